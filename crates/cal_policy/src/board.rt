//! What the actions and looks so far have made of cores, threads and tasks, as plain data.

pub mod bans;
pub mod caps;
pub mod core_sets;
pub mod cores;
pub mod counts;
pub mod debts;
pub mod holders;
pub mod open_cores;
pub mod queries;
pub mod recent_cores;
pub mod records;
pub mod replay;
pub mod survey;
pub mod unshown;

ghost use Rattle.std.specs.Prelude.{◌≡◌, ◌≤◌, ◌++◌, ◌∷◌, [], List, length};
ghost use Rattle.cal_machine.specs.declared.machine.TheConstants.{MOST_CORES};
ghost use Rattle.cal_machine.specs.declared.numbering.TheConstants.{MOST_THREADS};
ghost use Rattle.cal_policy.specs.declared.history.action.Action.{Action};
ghost use Rattle.cal_policy.specs.declared.history.look.Seen.{Seen};
ghost use Rattle.cal_machine.specs.Table.{Table, IsTable};
ghost use Rattle.cal_policy.specs.Board.{HasGranted};
ghost use Rattle.cal_policy.specs.State.{IsReady, Agrees, KeepingAgrees};
ghost use Rattle.cal_policy.specs.Board.{KeepsBefore, NamesCores, NamesTable};
ghost use Rattle.cal_policy.specs.Board.KeepingSets.{FitAfter, KeepsSets};
ghost use Rattle.cal_policy.specs.declared.history.entry.PassEntry.{PassEntry};
ghost use Rattle.cal_policy.specs.declared.judgement.open_input.FoundLook.{FoundLook};
ghost use Rattle.cal_policy.specs.History.{looks_of};
ghost use Rattle.cal_policy.specs.Judgement.OpenInput.{judged_looks};
ghost use Rattle.cal_policy.specs.Judgement.OpenPass.{IsOpenAt, ShowNoted};

use crate::board::bans::Bans;
use crate::board::caps::Caps;
use crate::board::core_sets::CoreSets;
use crate::board::debts::Debts;
use crate::board::holders::{Holding, core_changed_by};
use crate::board::open_cores::OpenCores;
use crate::board::recent_cores::RecentCores;
use crate::board::records::Keeping;
use crate::board::survey::Survey;
use crate::board::unshown::note_changed;
use crate::history::action::Action;
use crate::history::look::Seen;
use crate::judgement::open_pass::OpenPass;
use cal_machine::{Config, CoreSet};

/// The state that the actions and looks so far leave. It has no Model; see `Agrees` and
/// `KeepingAgrees` (specs/State.antt) for what each field means.
#[derive(Drop)]
pub struct Board {
    /// Who has each core, and what was sent.
    pub holding: Holding,
    /// How many cores tasks and threads have.
    pub survey: Survey,
    /// Which cores are taken or banned.
    pub sets: CoreSets,
    /// Which cores grants and bans go over.
    pub open_cores: OpenCores,
    /// Which cores each task had last.
    pub recent: RecentCores,
    /// For whom each core is banned.
    pub bans: Bans,
    /// The cap of each task: how many cores a best-effort one may book.
    pub caps: Caps,
    /// To which tasks free cores are owed.
    pub debts: Debts,
    /// The records that are kept.
    pub keeping: Keeping,
    /// The cores that the kept record of their thread may not show: all that may have been left.
    pub unshown: CoreSet,
    /// The cores granted in this pass.
    pub fresh: CoreSet,
}

/// Notes the core of a grant.
fn note_grant(fresh: &mut CoreSet, action: Action)
    requires { NamesCores MOST_CORES MOST_THREADS action }
    ensures { (acts : List Action) → HasGranted fresh.old acts →
        HasGranted fresh.new (acts ++ action ∷ []) }
{
    match action {
        Action::Grant { core, .. } => fresh.insert(core),
        Action::Free { .. } => {}
        Action::Unban { .. } => {}
        Action::Ban { .. } => {}
        Action::Revoke { .. } => {}
        Action::Cap { .. } => {}
    }
}

impl Board {
    /// The state before any action and look.
    pub fn new() -> Board
        ensures agrees { Agrees result [] }
        ensures fresh { HasGranted result.fresh [] }
        ensures keeping { KeepingAgrees result.keeping [] }
        ensures before { KeepsBefore result.keeping [] }
        ensures ready { (table : Table) → IsReady table result }
    {
        Board {
            holding: Holding::new(),
            survey: Survey::new(),
            sets: CoreSets::new(),
            open_cores: OpenCores::new(),
            recent: RecentCores::new(),
            bans: Bans::new(),
            caps: Caps::new(),
            debts: Debts::new(),
            keeping: Keeping::new(),
            unshown: CoreSet::empty(),
            fresh: CoreSet::empty(),
        }
    }

    /// Brings the state up to one more action.
    pub fn apply(&mut self, config: &Config, action: Action)
        requires table { IsTable config.now }
        requires ready { IsReady config.now self.old }
        requires names { NamesTable config.now action }
        ensures agrees { (x : List Action) → Agrees self.old x →
            Agrees self.new (x ++ action ∷ []) }
        ensures fresh { (acts : List Action) → HasGranted self.old.fresh acts →
            HasGranted self.new.fresh (acts ++ action ∷ []) }
        ensures ready { IsReady config.now self.new }
        ensures keeping { self.new.keeping ≡ self.old.keeping }
    {
        let core = core_changed_by(action);
        let before = self.holding.holder_at(core);
        self.survey.remove(config, before);
        self.recent.note(config, &self.holding, action);
        self.holding.apply(action);
        let after = self.holding.holder_at(core);
        self.survey.add(config, after);
        self.sets.move_core(core, after);
        note_changed(&mut self.unshown, core);
        self.sets.note_ban(action);
        let banned = self.sets.banned;
        self.open_cores.note(config, &self.holding, &banned, action);
        self.bans.apply(action);
        self.caps.apply(action);
        self.debts.note(action, before);
        note_grant(&mut self.fresh, action);
    }

    /// A state like this one, to try actions on.
    pub fn duplicate(&self) -> Board
        ensures { result ≡ self.now }
    {
        Board {
            holding: Holding {
                granted: self.holding.granted,
                holders: self.holding.holders,
                sent: self.holding.sent,
            },
            survey: Survey {
                held: self.survey.held,
                booked: self.survey.booked,
                placed: self.survey.placed,
                awaited: self.survey.awaited,
            },
            sets: CoreSets {
                taken: self.sets.taken,
                banned: self.sets.banned,
            },
            open_cores: OpenCores {
                idle: self.open_cores.idle,
                alone: self.open_cores.alone,
                beside_held: self.open_cores.beside_held,
            },
            recent: RecentCores {
                of_task: self.recent.of_task,
            },
            bans: Bans {
                bans: self.bans.bans,
            },
            caps: Caps {
                caps: self.caps.caps,
            },
            debts: Debts {
                owed: self.debts.owed,
            },
            keeping: Keeping {
                kept: self.keeping.kept,
                before: self.keeping.before,
                moved: self.keeping.moved,
                waiting: self.keeping.waiting,
                numbers: self.keeping.numbers,
                settled: self.keeping.settled,
                unkept: self.keeping.unkept,
            },
            unshown: self.unshown,
            fresh: self.fresh,
        }
    }

    /// Begins a pass with its looks: no core was granted in it yet.
    pub fn begin(&mut self, seen: &[Seen])
        requires { length seen.now ≤ MOST_THREADS }
        ensures agrees { (x : List Action) → Agrees self.old x → Agrees self.new x }
        ensures fresh { HasGranted self.new.fresh [] }
        ensures ready { (table : Table) → IsReady table self.old → IsReady table self.new }
        ensures keeping { (looks : List (List Seen)) → KeepingAgrees self.old.keeping looks →
            KeepingAgrees self.new.keeping (looks ++ seen.now ∷ []) }
        ensures before { (looks : List (List Seen)) → KeepingAgrees self.old.keeping looks →
            KeepsBefore self.new.keeping looks }
    {
        self.fresh = CoreSet::empty();
        self.keeping.look(seen, &mut self.unshown);
    }

    /// Begins a pass with its looks, which fit those before. Only those that are not as the ones
    /// before are taken.
    pub fn begin_fit(&mut self, seen: &[Seen])
        requires looks { length seen.now ≤ MOST_THREADS }
        requires sets { KeepsSets self.old.keeping }
        ensures agrees { (x : List Action) → Agrees self.old x → Agrees self.new x }
        ensures fresh { HasGranted self.new.fresh [] }
        ensures ready { (table : Table) → IsReady table self.old → IsReady table self.new }
        ensures keeping { (looks : List (List Seen)) → KeepingAgrees self.old.keeping looks →
            FitAfter looks seen.now → KeepingAgrees self.new.keeping (looks ++ seen.now ∷ []) }
        ensures before { (looks : List (List Seen)) → KeepingAgrees self.old.keeping looks →
            KeepsBefore self.new.keeping looks }
    {
        self.fresh = CoreSet::empty();
        self.keeping.look_fit(seen, &mut self.unshown);
    }

    /// Begins a pass with the looks that were noted of it.
    pub fn begin_noted(&mut self, pass: &OpenPass)
        requires sets { KeepsSets self.old.keeping }
        ensures agrees { (x : List Action) → Agrees self.old x → Agrees self.new x }
        ensures fresh { HasGranted self.new.fresh [] }
        ensures ready { (table : Table) → IsReady table self.old → IsReady table self.new }
        ensures keeping { (table : Table) (h : List PassEntry) (looks : List FoundLook) →
            KeepingAgrees self.old.keeping (looks_of h) → IsOpenAt table h looks pass.now →
            KeepingAgrees self.new.keeping (looks_of h ++ judged_looks table h looks ∷ []) }
        // Whatever history the state is of, what was noted is taken as it stands.
        ensures noted { (looks : List (List Seen)) (seen : List Seen) →
            KeepingAgrees self.old.keeping looks → ShowNoted pass.now seen →
            KeepingAgrees self.new.keeping (looks ++ seen ∷ []) }
        ensures before { (looks : List (List Seen)) → KeepingAgrees self.old.keeping looks →
            KeepsBefore self.new.keeping looks }
    {
        self.fresh = CoreSet::empty();
        self.keeping.look_noted(pass, &mut self.unshown);
    }
}
