//! The commands that were sent to a kernel thread, as a list.

ghost use Rattle.std.specs.Prelude.{◌≡◌, ◌<◌, ◌≤◌, ◌+◌, ◌++◌, ◌∷◌, ◌^◌};
ghost use Rattle.std.specs.Prelude.{[], IfSome, OnOk, slice_get};

use cal_command::Command;
use std::alloc::{AllocError, Global};
use std::marker::Model;

/// The commands that were sent to a kernel thread, in order, those that it took included.
#[derive(Drop)]
pub(crate) struct Outbox {
    commands: Vec<Command>,
}

impl Model for Outbox {
    ghost use Rattle.std.specs.Prelude.{◌-◌};
    ghost use Rattle.std.specs.Vec.{vec_len, vec_capacity};
    ghost use Rattle.cal_world.specs.World.Outbox as outbox;

    ghost Value = { outbox.Outbox };

    ghost view = { λ o. record {
      commands = o.commands.items;
      room = vec_capacity o.commands - vec_len o.commands;
    } };
}

impl Outbox {
    /// No command.
    pub fn new(alloc: Global) -> Outbox
        ensures { result.commands ≡ [] }
    {
        Outbox {
            commands: Vec::new(alloc),
        }
    }

    /// The command at a place, from 0, if there is one.
    pub fn command(&self, place: usize) -> Option<Command>
        ensures command { result ≡ slice_get self.now.commands place }
        ensures small { IfSome result (λ _. place + 1 < 2 ^ 64) }
    {
        if place < self.commands.len() {
            Some(self.commands[place])
        } else {
            None
        }
    }

    /// Makes room for so many more. Fails only when out of memory.
    pub fn reserve(&mut self, additional: usize) -> Result<(), AllocError>
        ensures commands { self.new.commands ≡ self.old.commands }
        ensures room { OnOk result (additional ≤ self.new.room) }
    {
        self.commands.reserve(additional)
    }

    /// Puts a command at the end, in room that is there.
    pub fn send(&mut self, command: Command)
        requires { 0 < self.old.room }
        ensures commands { self.new.commands ≡ self.old.commands ++ command ∷ [] }
        ensures room { self.new.room + 1 ≡ self.old.room }
    {
        self.commands.push_reserved(command);
    }
}
