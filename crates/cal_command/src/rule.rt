//! What may be sent on a ring, so that whoever takes it knows it.
use cal_machine::Command;
use rtrb::Protocol;

/// The most commands that a ring carries in all: after that many it has no room any more, so no
/// count wraps.
pub const MOST_COMMANDS: u64 = 1 << 62;

/// The rule of every ring: a Run's core is below `MOST_CORES`, and fewer than `MOST_COMMANDS` came
/// before.
#[derive(Clone, Copy)]
pub struct Sendable;

impl Protocol<Command> for Sendable {
    ghost use Rattle.std.specs.Prelude.{◌<◌, length};
    ghost use Rattle.cal_command.specs.declared.rule.TheConstants.{MOST_COMMANDS};
    ghost use Rattle.cal_command.specs.Commands.{IsSendable};

    ghost allows = { λ before command. IsSendable command × (length before < MOST_COMMANDS) };
}
