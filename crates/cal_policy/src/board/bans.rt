//! Which cores are banned.

ghost use Rattle.std.specs.Prelude.{◌≡◌, ℕ, ◌<◌, ◌++◌, ◌∷◌, [], List, replicate};
ghost use Rattle.cal_machine.specs.declared.machine.TheConstants.{MOST_CORES};
ghost use Rattle.cal_machine.specs.declared.numbering.TheConstants.{MOST_THREADS};
ghost use Rattle.cal_policy.specs.declared.history.action.Action.{Action};
ghost use Rattle.cal_policy.specs.Board.{BansAgree, BansSound, NamesCores};

use crate::history::action::Action;
use cal_machine::MOST_CORES;

/// For whom a core is banned: the thread on its sibling, and when its request was begun.
#[derive(Clone, Copy, Debug, PartialEq, Eq)]
pub struct BannedFor {
    pub thread: u8,
    pub started: u64,
}

/// The bans that the actions so far leave.
#[derive(Drop)]
pub struct Bans {
    pub bans: [Option<BannedFor>; MOST_CORES],
}

fn no_bans() -> [Option<BannedFor>; MOST_CORES]
    ensures { result ≡ replicate MOST_CORES None }
{
    [None; MOST_CORES]
}

impl Bans {
    /// No core is banned before any action.
    pub fn new() -> Bans
        ensures agree { BansAgree result [] }
        ensures sound { (threads : ℕ) → BansSound threads result }
    {
        Bans { bans: no_bans() }
    }

    /// Brings the bans up to one more action.
    pub fn apply(&mut self, action: Action)
        requires names { NamesCores MOST_CORES MOST_THREADS action }
        ensures agree { (x : List Action) → BansAgree self.old x →
            BansAgree self.new (x ++ action ∷ []) }
        ensures sound { (threads : ℕ) → BansSound threads self.old →
            NamesCores MOST_CORES threads action → BansSound threads self.new }
    {
        match action {
            Action::Ban {
                core,
                thread,
                started,
            } => self.bans[core as usize] = Some(BannedFor { thread, started }),
            Action::Unban { core } => self.bans[core as usize] = None,
            Action::Free { .. } => {}
            Action::Revoke { .. } => {}
            Action::Cap { .. } => {}
            Action::Grant { .. } => {}
        }
    }
}
