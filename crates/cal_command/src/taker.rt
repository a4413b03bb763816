//! The end of a ring that takes.
ghost use Rattle.std.specs.Prelude.{◌≡◌, ◌<◌, [], ◌∷◌, ◌++◌, length, IfNone, IfSome};
ghost use Rattle.cal_command.specs.Commands.{IsSendable};

use crate::rule::Sendable;
use cal_machine::Command;
use rtrb::Consumer;
use std::alloc::Global;
use std::marker::Model;

/// The kernel thread's end of a ring. A contract sees which ring it is and all commands taken so
/// far.
#[derive(Drop)]
pub struct Taker {
    pub(crate) consumer: Consumer<Command, Global, Sendable>,
    pub(crate) count: u64,
}

impl Model for Taker {
    ghost use Rattle.std.specs.Prelude.{◌≡◌, ◌^◌, ◌<◌, ◌≤◌, length};
    ghost use Rattle.cal_command.specs.Rings.{TakerView, ring_of_consumer};
    ghost use Rattle.rtrb.specs.Ring.{received};

    ghost Value = { TakerView };

    ghost view = { λ t. record {
      ring = ring_of_consumer t.consumer;
      taken = received t.consumer;
    } };

    ghost invariant = { λ t. t.count ≡ length (received t.consumer) };
}

impl Taker {
    /// The next command, with its number from 1; a Run's core is below `MOST_CORES`. None where no
    /// command was seen on the ring, and then nothing has changed. That a command on the ring is
    /// seen is no promise beside a sender.
    pub fn take(&mut self) -> Option<(u64, Command)>
        ensures ring { self.new.ring ≡ self.old.ring }
        ensures none { IfNone result (self.new ≡ self.old) }
        ensures next { IfSome result (λ r. self.new.taken ≡ self.old.taken ++ r.1 ∷ []) }
        ensures number { IfSome result (λ r. r.0 ≡ length self.new.taken) }
        ensures core { IfSome result (λ r. IsSendable r.1) }
    {
        let command = self.consumer.pop().ok()?;
        self.count += 1;
        Some((self.count, command))
    }
}
