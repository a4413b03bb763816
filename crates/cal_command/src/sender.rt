//! The end of a ring that sends.
ghost use Rattle.std.specs.Prelude.{◌≡◌, ◌+◌, ◌≤◌, ◌↔◌, false, [], ◌∷◌, ◌++◌, length, IsTrue};
ghost use Rattle.cal_command.specs.Commands.{IsSendable};
ghost use Rattle.cal_command.specs.Rings.{HasRoom};

use crate::rule::{MOST_COMMANDS, Sendable};
use cal_machine::Command;
use rtrb::Producer;
use std::alloc::Global;
use std::marker::Model;

/// The scheduler's end of a ring. A contract sees which ring it is, all commands sent so far, and
/// how many places are known to be free.
#[derive(Drop)]
pub struct Sender {
    pub(crate) producer: Producer<Command, Global, Sendable>,
    pub(crate) count: u64,
}

impl Model for Sender {
    ghost use Rattle.std.specs.Prelude.{◌≡◌, ◌≤◌, length};
    ghost use Rattle.cal_command.specs.declared.rule.TheConstants.{MOST_COMMANDS};
    ghost use Rattle.cal_command.specs.Rings.{SenderView, ring_of_producer};
    ghost use Rattle.rtrb.specs.Ring.{sent, known_free};

    ghost Value = { SenderView };

    ghost view = { λ s. record {
      ring = ring_of_producer s.producer;
      sent = sent s.producer;
      free = known_free s.producer;
    } };

    ghost invariant = { λ s. (s.count ≡ length (sent s.producer)) × (s.count ≤ MOST_COMMANDS) };
}

impl Sender {
    /// Whether a place is free, and fewer than `MOST_COMMANDS` were sent. If so, it stays so up to
    /// the next `send`. That a ring with a free place answers true is no promise beside a taker,
    /// but where the place is known to be free.
    pub fn room(&mut self) -> bool
        ensures same { (self.new.ring ≡ self.old.ring) × (self.new.sent ≡ self.old.sent) }
        ensures known { IsTrue result ↔ HasRoom self.new }
        ensures kept { self.old.free ≤ self.new.free }
        ensures spent { MOST_COMMANDS ≤ length self.old.sent → result ≡ false }
    {
        if self.count >= MOST_COMMANDS {
            return false;
        }
        !self.producer.is_full()
    }

    /// Sends a command. Requires that room is known, and that a Run's core is below `MOST_CORES`. It
    /// cannot fail.
    pub fn send(&mut self, command: Command)
        requires room { HasRoom self.old }
        requires core { IsSendable command }
        ensures ring { self.new.ring ≡ self.old.ring }
        ensures sent { self.new.sent ≡ self.old.sent ++ command ∷ [] }
        ensures free { self.old.free ≡ self.new.free + 1 }
    {
        self.producer.push_reserved(command);
        self.count += 1;
    }
}
