//! Who has each core, and how many commands each thread was sent.

ghost use Rattle.std.specs.Prelude.{◌≡◌, ◌≢◌, ℕ, ◌+◌, ◌<◌, ◌≤◌, ◌^◌, ◌++◌};
ghost use Rattle.std.specs.Prelude.{◌∷◌, [], List, Some, None, ◌==◌, if◌then◌else◌, min, replicate};
ghost use Rattle.cal_machine.specs.declared.machine.TheConstants.{MOST_CORES};
ghost use Rattle.cal_machine.specs.declared.numbering.TheConstants.{MOST_THREADS};
ghost use Rattle.cal_policy.specs.declared.history.action.Action.{Action};
ghost use Rattle.cal_policy.specs.declared.history.action.Action.TheVariants.{Revoke, Grant};
ghost use Rattle.cal_policy.specs.Board.{HoldersAgree, HoldingSound, NamesCores, granted_in};
ghost use Rattle.cal_policy.specs.Board.{holder_in, holder_at, core_changed};
ghost use Rattle.cal_policy.specs.Board.Counts as counts;
ghost use Rattle.cal_policy.specs.Board.RecentCores.{last_thread_in, last_thread_with};
ghost use Rattle.std.specs.Option.{IfSome};

use crate::history::action::{Action, Cause};
use cal_machine::{MOST_CORES, MOST_THREADS};

/// What put a thread on a core: the thread, and the number of the Run that was sent to it, among
/// all commands to it from 1 on.
///
/// A number in the code is the least of the command's number and 2^64: no record acknowledges more.
#[derive(Clone, Copy, Debug, PartialEq, Eq)]
pub struct Placement {
    /// The thread that the core was granted to.
    pub thread: u8,
    /// The number of the Run that it was sent for that.
    pub number: u128,
}

/// Who has a core.
#[derive(Clone, Copy, Debug, PartialEq, Eq)]
pub enum Holder {
    /// Nobody.
    Free,
    /// A thread that was granted it.
    Held(Placement),
    /// A thread that was granted it and was then sent Park, for this cause.
    Leaving(Placement, Cause),
}

impl Holder {
    /// Whether nobody has the core.
    pub fn is_free(self) -> bool
        ensures { result ≡ counts.is_free self }
    {
        match self {
            Holder::Free => true,
            Holder::Held(_) | Holder::Leaving(..) => false,
        }
    }

    /// Whether a thread has the core and was not told to leave it.
    pub fn is_held(self) -> bool
        ensures { result ≡ counts.is_held self }
    {
        match self {
            Holder::Held(_) => true,
            Holder::Free | Holder::Leaving(..) => false,
        }
    }

    /// Whether thread `k` has the core, told to leave it or not.
    pub fn is_with(self, k: u8) -> bool
        ensures { result ≡ counts.is_with k self }
    {
        match self {
            Holder::Free => false,
            Holder::Held(placement) | Holder::Leaving(placement, _) => placement.thread == k,
        }
    }
}

/// What the actions so far have made of the cores.
#[derive(Drop)]
pub struct Holding {
    /// The last grant of each core.
    pub granted: [Option<Placement>; MOST_CORES],
    /// Who has each core.
    pub holders: [Holder; MOST_CORES],
    /// How many commands each thread was sent, at most 2^64.
    pub sent: [u128; MOST_THREADS],
}

fn none_granted() -> [Option<Placement>; MOST_CORES]
    ensures { result ≡ replicate MOST_CORES None }
{
    [None; MOST_CORES]
}

fn all_free() -> [Holder; MOST_CORES]
    ensures { result ≡ replicate MOST_CORES Holder.Free }
{
    [Holder::Free; MOST_CORES]
}

/// The core whose holder an action changes.
pub fn core_changed_by(action: Action) -> Option<u8>
    ensures changed { result ≡ core_changed action }
    ensures below { (cores threads : ℕ) → NamesCores cores threads action →
        IfSome result (λ core. core < cores) }
{
    match action {
        Action::Free { core } => Some(core),
        Action::Revoke { core, .. } => Some(core),
        Action::Grant { core, .. } => Some(core),
        Action::Unban { .. } => None,
        Action::Ban { .. } => None,
        Action::Cap { .. } => None,
    }
}

/// One command more, as numbers are kept.
fn one_more(number: u128) -> u128
    requires { number ≤ 2 ^ 64 }
    ensures { result ≡ min (number + 1) (2 ^ 64) }
{
    if number < 1 << 64 { number + 1 } else { number }
}

impl Holding {
    /// The state before any action.
    pub fn new() -> Holding
        ensures agrees { HoldersAgree result [] }
        ensures sound { (threads : ℕ) → HoldingSound threads result }
        ensures free { (c : ℕ) → holder_in result c ≡ Holder.Free }
        ensures ungranted { (c : ℕ) → last_thread_in result c ≡ None }
    {
        Holding {
            granted: none_granted(),
            holders: all_free(),
            sent: [0; MOST_THREADS],
        }
    }

    /// Who has this core; of no core nobody.
    pub fn holder_at(&self, core: Option<u8>) -> Holder
        requires { IfSome core (λ c. c < MOST_CORES) }
        ensures { result ≡ holder_at self.now core }
    {
        match core {
            None => Holder::Free,
            Some(core) => self.holders[core as usize],
        }
    }

    /// The last grant of this core; of no core of the state none.
    pub fn grant_of(&self, core: u8) -> Option<Placement>
        ensures { result ≡ granted_in self.now core }
    {
        if (core as usize) < MOST_CORES {
            self.granted[core as usize]
        } else {
            None
        }
    }

    /// The thread of this core's last grant; of no core none.
    pub fn thread_granted(&self, core: Option<u8>) -> Option<u8>
        ensures { (c : ℕ) → core ≡ Some c →
            result ≡ last_thread_in self.now c }
    {
        match self.grant_of(core?) {
            Some(grant) => Some(grant.thread),
            None => None,
        }
    }

    /// Brings the state up to one more action.
    pub fn apply(&mut self, action: Action)
        requires sound { HoldingSound MOST_THREADS self.old }
        requires names { NamesCores MOST_CORES MOST_THREADS action }
        ensures agrees { (x : List Action) → HoldersAgree self.old x →
            HoldersAgree self.new (x ++ action ∷ []) }
        ensures sound { (threads : ℕ) → HoldingSound threads self.old →
            NamesCores MOST_CORES threads action → HoldingSound threads self.new }
        ensures others { (c : ℕ) → core_changed action ≢ Some c →
            holder_in self.new c ≡ holder_in self.old c }
        ensures granted { (c : ℕ) → last_thread_in self.new c
            ≡ last_thread_with action (last_thread_in self.old) c }
    {
        match action {
            Action::Free { core } => self.holders[core as usize] = Holder::Free,
            Action::Revoke { core, cause } => self.revoke(core, cause),
            Action::Grant { core, thread, .. } => self.grant(core, thread),
            Action::Unban { .. } => {}
            Action::Ban { .. } => {}
            Action::Cap { .. } => {}
        }
    }

    /// A core is revoked: the thread of its last grant is sent Park and is leaving.
    fn revoke(&mut self, core: u8, cause: Cause)
        requires sound { HoldingSound MOST_THREADS self.old }
        requires core { core < MOST_CORES }
        ensures agrees { (x : List Action) → HoldersAgree self.old x →
            HoldersAgree self.new (x ++ Revoke core cause ∷ []) }
        ensures sound { (threads : ℕ) → HoldingSound threads self.old →
            HoldingSound threads self.new }
        ensures others { (c : ℕ) → c ≢ core → holder_in self.new c ≡ holder_in self.old c }
        ensures granted { self.new.granted ≡ self.old.granted }
    {
        match self.granted[core as usize] {
            None => self.holders[core as usize] = Holder::Free,
            Some(placement) => {
                let thread = placement.thread;
                let number = one_more(self.sent[thread as usize]);
                self.sent[thread as usize] = number;
                self.holders[core as usize] = Holder::Leaving(placement, cause);
            }
        }
    }

    /// A core is granted: the thread is sent Run and holds it.
    fn grant(&mut self, core: u8, thread: u8)
        requires sound { HoldingSound MOST_THREADS self.old }
        requires core { core < MOST_CORES }
        requires thread { thread < MOST_THREADS }
        ensures agrees { (x : List Action) (class : ℕ) → HoldersAgree self.old x →
            HoldersAgree self.new (x ++ Grant core thread class ∷ []) }
        ensures sound { (threads : ℕ) → HoldingSound threads self.old → thread < threads →
            HoldingSound threads self.new }
        ensures others { (c : ℕ) → c ≢ core → holder_in self.new c ≡ holder_in self.old c }
        ensures granted { (c : ℕ) → last_thread_in self.new c
            ≡ (if c == core then Some thread else last_thread_in self.old c) }
    {
        let number = one_more(self.sent[thread as usize]);
        let placement = Placement { thread, number };
        self.sent[thread as usize] = number;
        self.granted[core as usize] = Some(placement);
        self.holders[core as usize] = Holder::Held(placement);
    }
}
