//! The cores that grants and bans go over, kept up with each change of a holder and each ban.

ghost use Rattle.std.specs.Prelude.{◌≡◌, ◌<◌, ◌==◌, ℕ, true, false, if◌then◌else◌};
ghost use Rattle.std.specs.Option.{IfSome};
ghost use Rattle.cal_machine.specs.Table.{IsTable};
ghost use Rattle.cal_machine.specs.CoreSet.{has};
ghost use Rattle.cal_machine.specs.declared.core_set.CoreSet.{CoreSet};
ghost use Rattle.cal_machine.specs.Machine.{sibling_of};
ghost use Rattle.cal_machine.specs.declared.machine.TheConstants.{MOST_CORES};
ghost use Rattle.cal_policy.specs.declared.board.holders.Holder.{Holder};
ghost use Rattle.cal_policy.specs.Board.{NamesCores, NamesTable, holder_in};
ghost use Rattle.cal_policy.specs.Board.OpenCores.{Opens, IsSameElsewhere, core_named};
ghost use Rattle.cal_policy.specs.Board.OpenCores.{is_idle_by, is_alone_by, is_beside_held_by};

use crate::board::core_sets::all_cores;
use crate::board::holders::Holding;
use crate::history::action::Action;
use cal_machine::{Config, CoreSet};

/// The cores that a grant or a ban may come to, as far as holders and bans go, of all `MOST_CORES`
/// that a table can have.
#[derive(Drop)]
pub struct OpenCores {
    /// The cores that nobody has and that are not banned.
    pub idle: CoreSet,
    /// The cores that are held, each beside one that is not held, where neither is banned.
    pub alone: CoreSet,
    /// The idle cores that are each beside one that is held.
    pub beside_held: CoreSet,
}

/// The core that an action names.
pub fn core_named_by(action: Action) -> Option<u8>
    ensures named { result ≡ core_named action }
    ensures below { (cores threads : ℕ) → NamesCores cores threads action →
        IfSome result (λ core. core < cores) }
{
    match action {
        Action::Free { core } => Some(core),
        Action::Unban { core } => Some(core),
        Action::Ban { core, .. } => Some(core),
        Action::Revoke { core, .. } => Some(core),
        Action::Grant { core, .. } => Some(core),
        Action::Cap { .. } => None,
    }
}

/// Puts a core into a set or takes it out.
fn put(set: &mut CoreSet, core: u8, is_in: bool)
    requires { core < MOST_CORES }
    ensures { (c : ℕ) → has set.new c ≡ (if c == core then is_in else has set.old c) }
{
    if is_in {
        set.insert(core);
    } else {
        set.remove(core);
    }
}

/// Whether nobody has the core and it is not banned.
fn is_idle(holding: &Holding, banned: &CoreSet, core: u8) -> bool
    requires { core < MOST_CORES }
    ensures { result ≡ is_idle_by (holder_in holding.now) banned.now core }
{
    holding.holder_at(Some(core)).is_free() && !banned.has(core)
}

/// Whether the core is held and the one beside it is not, and neither is banned.
fn is_alone(holding: &Holding, banned: &CoreSet, core: u8, beside: u8) -> bool
    requires core { core < MOST_CORES }
    requires beside { beside < MOST_CORES }
    requires pair { beside ≡ sibling_of core }
    ensures { result ≡ is_alone_by (holder_in holding.now) banned.now core }
{
    let is_held = holding.holder_at(Some(core)).is_held();
    let is_held_beside = holding.holder_at(Some(beside)).is_held();
    is_held && !is_held_beside && !banned.has(core) && !banned.has(beside)
}

/// Whether the core is idle and the one beside it is held.
fn is_beside_held(holding: &Holding, banned: &CoreSet, core: u8, beside: u8) -> bool
    requires core { core < MOST_CORES }
    requires beside { beside < MOST_CORES }
    requires pair { beside ≡ sibling_of core }
    ensures { result ≡ is_beside_held_by (holder_in holding.now) banned.now core }
{
    is_idle(holding, banned, core) && holding.holder_at(Some(beside)).is_held()
}

impl OpenCores {
    /// The sets where every core is free and none is banned.
    pub fn new() -> OpenCores
        ensures idle { (c : ℕ) → c < MOST_CORES → has result.idle c ≡ true }
        ensures alone { (c : ℕ) → has result.alone c ≡ false }
        ensures beside { (c : ℕ) → has result.beside_held c ≡ false }
    {
        OpenCores {
            idle: all_cores(),
            alone: CoreSet::empty(),
            beside_held: CoreSet::empty(),
        }
    }

    /// Brings the sets up to what became of a core.
    fn sort(&mut self, holding: &Holding, banned: &CoreSet, core: u8, beside: u8)
        requires core { core < MOST_CORES }
        requires beside { beside < MOST_CORES }
        requires pair { beside ≡ sibling_of core }
        requires back { core ≡ sibling_of beside }
        ensures idle { (c : ℕ) → has self.new.idle c ≡ (if c == core
            then is_idle_by (holder_in holding.now) banned.now core else has self.old.idle c) }
        ensures alone { (c : ℕ) → has self.new.alone c ≡ (if c == beside
            then is_alone_by (holder_in holding.now) banned.now beside
            else if c == core then is_alone_by (holder_in holding.now) banned.now core
            else has self.old.alone c) }
        ensures beside { (c : ℕ) → has self.new.beside_held c ≡ (if c == beside
            then is_beside_held_by (holder_in holding.now) banned.now beside
            else if c == core then is_beside_held_by (holder_in holding.now) banned.now core
            else has self.old.beside_held c) }
    {
        put(&mut self.idle, core, is_idle(holding, banned, core));
        put(
            &mut self.alone,
            core,
            is_alone(holding, banned, core, beside),
        );
        put(
            &mut self.alone,
            beside,
            is_alone(holding, banned, beside, core),
        );
        put(
            &mut self.beside_held,
            core,
            is_beside_held(holding, banned, core, beside),
        );
        put(
            &mut self.beside_held,
            beside,
            is_beside_held(holding, banned, beside, core),
        );
    }

    /// Brings the sets up to what an action made of holders and bans.
    pub fn note(&mut self, config: &Config, holding: &Holding, banned: &CoreSet, action: Action)
        requires table { IsTable config.now }
        requires names { NamesTable config.now action }
        ensures kept { (holder : ℕ → Holder) (bans : CoreSet) → Opens holder bans self.old →
            IsSameElsewhere action holder bans (holder_in holding.now) banned.now →
            Opens (holder_in holding.now) banned.now self.new }
    {
        config.limits();
        if let Some(core) = core_named_by(action) {
            let beside = config.machine().sibling(core);
            self.sort(holding, banned, core, beside);
        }
    }
}
