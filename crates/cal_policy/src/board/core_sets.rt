//! Sets of cores, kept up with each change of a holder and each ban.

ghost use Rattle.std.specs.Prelude.{◌≡◌, ◌≢◌, ◌<◌, ◌≤◌, ◌++◌, ◌∷◌, []};
ghost use Rattle.std.specs.Prelude.{List, Some, ℕ, true, false};
ghost use Rattle.std.specs.Option.{IfSome, IfNone};
ghost use Rattle.cal_machine.specs.declared.numbering.TheConstants.{MOST_THREADS};
ghost use Rattle.cal_machine.specs.Table.{IsTable};
ghost use Rattle.cal_machine.specs.CoreSet.{has};
ghost use Rattle.cal_machine.specs.declared.machine.TheConstants.{MOST_CORES};
ghost use Rattle.cal_policy.specs.declared.history.action.Action.{Action};
ghost use Rattle.cal_policy.specs.declared.board.holders.Holder.{Holder};
ghost use Rattle.cal_policy.specs.Board.{NamesCores};
ghost use Rattle.cal_policy.specs.Board.CoreSets.{IsSorted, IsSetOfBanned};
ghost use Rattle.cal_policy.specs.Board.OpenCores.{core_named};

use crate::board::holders::Holder;
use crate::history::action::Action;
use cal_machine::{Config, CoreSet, MOST_CORES};

/// Which cores are taken or banned, of all `MOST_CORES` that a table can have.
#[derive(Drop)]
pub struct CoreSets {
    /// The cores that a thread holds or leaves; the others are free.
    pub taken: CoreSet,
    /// The cores that are banned.
    pub banned: CoreSet,
}

/// The least core of a set from this one on that the machine has.
pub fn next_core(config: &Config, cores: &CoreSet, first: u8) -> Option<u8>
    requires table { IsTable config.now }
    ensures next { IfSome result (λ core. (first ≤ core) × (core < config.now.cores)) }
    ensures member { IfSome result (λ core. has cores.now core ≡ true) }
    ensures between { IfSome result (λ next. (core : ℕ) → first ≤ core → core < next →
        has cores.now core ≡ false) }
    ensures none { IfNone result ((core : ℕ) → first ≤ core → core < config.now.cores →
        has cores.now core ≡ false) }
{
    match cores.least_from(first) {
        Some(core) if core < config.machine().cores() => Some(core),
        _ => None,
    }
}

/// The set of all cores.
pub fn all_cores() -> CoreSet
    ensures { (core : ℕ) → core < MOST_CORES → has result core ≡ true }
{
    let mut cores = CoreSet::empty();
    for core in 0..MOST_CORES as u8 {
        cores.insert(core);
    }
    cores
}

/// Brings the set of banned cores up to one more action.
fn note_banned(banned: &mut CoreSet, action: Action)
    requires { NamesCores MOST_CORES MOST_THREADS action }
    ensures banned { (x : List Action) → IsSetOfBanned banned.old x →
        IsSetOfBanned banned.new (x ++ action ∷ []) }
    ensures elsewhere { (c : ℕ) → core_named action ≢ Some c → has banned.new c ≡ has banned.old c }
{
    match action {
        Action::Ban { core, .. } => banned.insert(core),
        Action::Unban { core } => banned.remove(core),
        Action::Free { .. } => {}
        Action::Revoke { .. } => {}
        Action::Cap { .. } => {}
        Action::Grant { .. } => {}
    }
}

impl CoreSets {
    /// The sets where every core is free and none is banned.
    pub fn new() -> CoreSets
        ensures sorted { (core : ℕ) → core < MOST_CORES → IsSorted core Holder.Free result }
        ensures banned { IsSetOfBanned result.banned [] }
    {
        CoreSets {
            taken: CoreSet::empty(),
            banned: CoreSet::empty(),
        }
    }

    /// Brings the set of banned cores up to one more action.
    pub fn note_ban(&mut self, action: Action)
        requires { NamesCores MOST_CORES MOST_THREADS action }
        ensures banned { (x : List Action) → IsSetOfBanned self.old.banned x →
            IsSetOfBanned self.new.banned (x ++ action ∷ []) }
        ensures others { (c : ℕ) (h : Holder) → IsSorted c h self.old → IsSorted c h self.new }
        ensures elsewhere { (c : ℕ) → core_named action ≢ Some c →
            has self.new.banned c ≡ has self.old.banned c }
    {
        note_banned(&mut self.banned, action);
    }

    /// Puts a core, if there is one, where its holder says.
    pub fn move_core(&mut self, core: Option<u8>, holder: Holder)
        requires { IfSome core (λ c. c < MOST_CORES) }
        ensures sorted { IfSome core (λ c. IsSorted c holder self.new) }
        ensures others { (c : ℕ) (h : Holder) → core ≢ Some c → IsSorted c h self.old →
            IsSorted c h self.new }
        ensures banned { self.new.banned ≡ self.old.banned }
    {
        if let Some(core) = core {
            if holder.is_free() {
                self.taken.remove(core);
            } else {
                self.taken.insert(core);
            }
        }
    }
}
