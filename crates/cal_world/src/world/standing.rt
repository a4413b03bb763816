//! Where a kernel thread stands.

ghost use Rattle.std.specs.Prelude.{◌≡◌, ℕ, ◌+◌, ◌<◌, ◌^◌, ◌∷◌, ◌++◌, [], Some, List};
ghost use Rattle.cal_world.specs.declared.event.Event.{Event};
ghost use Rattle.cal_world.specs.declared.event.Event.TheVariants.{Take, Yield, Read, Watch};
ghost use Rattle.cal_world.specs.Projections.{next_command};
ghost use Rattle.cal_kthread.specs.Journal as journal;
ghost use Rattle.cal_world.specs.World.Standing.{IsOf};

use cal_command::Command;

/// The state after the events so far for one kernel thread.
#[derive(Clone, Copy, Debug, PartialEq, Eq)]
pub(crate) struct Standing {
    /// How many commands it took.
    pub taken: usize,
    /// The core on which it runs.
    pub core: Option<u8>,
    /// The place of its page that the scheduler read last.
    pub read_floor: u64,
    /// The place of its page that the second observer read last.
    pub watch_floor: u64,
}

/// The core of a thread that took this command.
fn core_after(command: Command) -> Option<u8>
    ensures { result ≡ journal.core_after command }
{
    match command {
        Command::Run(core) => Some(core),
        Command::Park => None,
    }
}

impl Standing {
    /// Of a thread of which nothing happened.
    pub fn first() -> Standing
        ensures { (k : ℕ) → IsOf result [] k }
    {
        Standing {
            taken: 0,
            core: None,
            read_floor: 0,
            watch_floor: 0,
        }
    }

    /// After a Take of this command.
    pub fn after_take(self, command: Command) -> Standing
        requires { self.taken + 1 < 2 ^ 64 }
        ensures { (before : List Event) (k : ℕ) → next_command before k ≡ Some command →
            IsOf self before k → IsOf result (before ++ Take k ∷ []) k }
    {
        Standing {
            taken: self.taken + 1,
            core: core_after(command),
            ..self
        }
    }

    /// After a Yield.
    pub fn after_yield(self) -> Standing
        ensures { (before : List Event) (k : ℕ) →
            IsOf self before k → IsOf result (before ++ Yield k ∷ []) k }
    {
        Standing { core: None, ..self }
    }

    /// After a Read of its page at this place.
    pub fn after_read(self, number: u64) -> Standing
        ensures { (before : List Event) (k : ℕ) →
            IsOf self before k → IsOf result (before ++ Read k number ∷ []) k }
    {
        Standing {
            read_floor: number,
            ..self
        }
    }

    /// After a Watch of its page at this place.
    pub fn after_watch(self, number: u64) -> Standing
        ensures { (before : List Event) (k : ℕ) →
            IsOf self before k → IsOf result (before ++ Watch k number ∷ []) k }
    {
        Standing {
            watch_floor: number,
            ..self
        }
    }
}
