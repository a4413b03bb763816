//! Two states that stand at one place: on the spare actions are tried, and where they are permitted
//! the other follows. So a pass that is permitted copies no state.

ghost use Rattle.std.specs.Prelude.{◌≡◌, ◌++◌, ◌↔◌, [], List, IsOk, IfErr, OnErr};
ghost use Rattle.cal_machine.specs.Table.{Table, IsTable};
ghost use Rattle.cal_policy.specs.declared.history.entry.PassEntry.{PassEntry};
ghost use Rattle.cal_policy.specs.declared.history.input.Input.{Input};
ghost use Rattle.cal_policy.specs.Setting.{setting};
ghost use Rattle.cal_policy.specs.State.{IsReady, IsStateAfter};
ghost use Rattle.cal_guard.specs.Permitted.{ArePermitted, IsPermittedHistory};
ghost use Rattle.cal_guard.specs.Refusals.{MayEndWith, IsFirstWrong};
ghost use Rattle.cal_guard.specs.Passing.{IsInside, AreFew, AreLooks, InsideOn, GoingBy};
ghost use Rattle.cal_guard.specs.Spare.{AreTwins, IsSpareOf};

use crate::pass_looks::PassLooks;
use crate::passing::Passing;
use crate::refusal::Refused;
use crate::sizes::board_has_places;
use cal_machine::Config;
use cal_policy::Action;
use cal_policy::state::Terms;

/// Twins that are both ready for one table: the one is the other's spare.
fn twins_are_spare(config: &Config, passing: &Passing, spare: &Passing)
    ensures { AreTwins passing.now spare.now → IsReady config.now passing.now.board →
        IsReady config.now spare.now.board → IsSpareOf passing.now spare.now }
{
    config.limits();
    board_has_places(&passing.board);
    board_has_places(&spare.board);
}

/// Makes the spare a copy of the state again. It stands by itself, so that only what is refused pays
/// for the room of a copy.
#[cold]
#[inline(never)]
fn put_back(passing: &Passing, spare: &mut Passing)
    ensures { spare.new ≡ passing.now }
{
    *spare = passing.duplicate();
}

/// Begins the pass on these looks in both.
pub fn begin_both(config: &Config, passing: &mut Passing, spare: &mut Passing, looks: PassLooks)
    requires few { AreFew looks }
    requires ready { IsReady config.now passing.old.board }
    requires spare { IsSpareOf passing.old spare.old }
    ensures inside { (table : Table) (h : List PassEntry) (input : Input) →
        AreLooks looks.entry table h input.seen → IsPermittedHistory table h →
        IsStateAfter passing.old.board h → IsInside passing.new (setting table h input) [] }
    ensures ready { IsReady config.now passing.new.board }
    ensures spare { IsSpareOf passing.new spare.new }
{
    passing.begin(looks);
    spare.begin(looks);
    twins_are_spare(config, passing, spare);
}

/// Tries these actions on the spare. Where each is permitted and the pass may end after them, the
/// other state follows; else the spare is made a copy of it again.
pub fn offer_both(
    config: &Config,
    passing: &mut Passing,
    spare: &mut Passing,
    terms: &Terms,
    actions: &[Action],
) -> Result<(), Refused>
    requires ready { IsReady config.now passing.old.board }
    requires spare { IsSpareOf passing.old spare.old }
    ensures exact { InsideOn config.now terms.entry.now passing.old (λ s acts.
        IsOk result ↔ MayEndWith s acts actions.now) }
    ensures inside { IsOk result → InsideOn config.now terms.entry.now passing.old (λ s acts.
        IsInside passing.new s (acts ++ actions.now)) }
    ensures first { IfErr result (λ refused. InsideOn config.now terms.entry.now passing.old
        (λ s acts. IsFirstWrong s acts actions.now refused)) }
    ensures unchanged { OnErr result (passing.new ≡ passing.old) }
    ensures ready { IsReady config.now passing.new.board }
    ensures spare { IsSpareOf passing.new spare.new }
{
    config.limits();
    match spare.take_each(config, terms, actions) {
        Ok(()) => {
            passing.follow(config, actions);
            twins_are_spare(config, passing, spare);
            Ok(())
        }
        Err(refused) => {
            put_back(passing, spare);
            Err(refused)
        }
    }
}

/// Tries the pass on these looks with these actions on the spare. Where they are permitted, the
/// other state follows; else the spare is made a copy of it again.
pub fn step_both(
    config: &Config,
    passing: &mut Passing,
    spare: &mut Passing,
    terms: &Terms,
    looks: PassLooks,
    chosen: &[Action],
) -> Result<(), Refused>
    requires few { AreFew looks }
    requires ready { IsReady config.now passing.old.board }
    requires spare { IsSpareOf passing.old spare.old }
    ensures exact { GoingBy config.now terms.entry.now looks.entry passing.old.board (λ h input.
        IsOk result ↔ ArePermitted (setting config.now h input) chosen.now) }
    ensures inside { IsOk result →
        GoingBy config.now terms.entry.now looks.entry passing.old.board (λ h input.
        IsInside passing.new (setting config.now h input) chosen.now) }
    ensures first { IfErr result (λ refused.
        GoingBy config.now terms.entry.now looks.entry passing.old.board (λ h input.
        IsFirstWrong (setting config.now h input) [] chosen.now refused)) }
    ensures unchanged { OnErr result (passing.new ≡ passing.old) }
    ensures ready { IsReady config.now passing.new.board }
    ensures spare { IsSpareOf passing.new spare.new }
{
    config.limits();
    spare.begin(looks);
    match spare.take_each(config, terms, chosen) {
        Ok(()) => {
            passing.begin(looks);
            passing.follow(config, chosen);
            twins_are_spare(config, passing, spare);
            Ok(())
        }
        Err(refused) => {
            put_back(passing, spare);
            Err(refused)
        }
    }
}
