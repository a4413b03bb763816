//! One walk over what C hands in: a look that is no news is passed over, each other one is taken.

ghost use Rattle.std.specs.Prelude.{◌≡◌, ◌+◌, ◌<◌, ◌≤◌, ◌++◌, ◌∷◌, []};
ghost use Rattle.std.specs.Prelude.{IfOk, IfErr, List, map, length, ℕ, Some};
ghost use Rattle.cal_machine.specs.TableTasks.{threads_of_table};
ghost use Rattle.cal_policy.specs.declared.history.entry.PassEntry.{PassEntry};
ghost use Rattle.cal_policy.specs.declared.judgement.open_input.FoundLook.{FoundLook};
ghost use Rattle.cal_policy.specs.State.{IsStateAfter};
ghost use Rattle.cal_policy.specs.Judgement.Judging.{IsInput};
ghost use Rattle.cal_policy.specs.Judgement.OneByOne.{fault_of};
ghost use Rattle.cal_policy.specs.Judgement.OpenPass.{IsOpenAt};
ghost use Rattle.cal_policy.specs.Judgement.Settled.{SettledAreNoNews};
ghost use Rattle.caladan_c.specs.Found.{found_of, input_of_found, look_of_found};
ghost use Rattle.caladan_c.specs.OneByOne.{AreSaid, is_unfit, IsTakenAt, said_of};

use crate::found::{Found, found_look};
use crate::told::fault::tell_look;
use cal_machine::Config;
use cal_policy::state::Board;
use cal_policy::{LookFault, OpenPass, taken_of};

/// What looks are judged by: the table, and the board after the passes so far.
#[derive(Clone, Copy)]
pub struct Basis<'a> {
    /// The table.
    pub config: &'a Config,
    /// The board.
    pub board: &'a Board,
}

/// Takes what was found of the next thread, or says why its look does not fit and changes nothing.
/// It stands apart, so that a look that is passed over is not written down.
#[cold]
#[inline(never)]
fn take_news(
    came: &mut OpenPass,
    config: &Config,
    board: &Board,
    one: &Found,
) -> Result<(), LookFault>
    requires next { came.old.count < threads_of_table config.now }
    ensures taken { IfOk result (λ _. (h : List PassEntry) (looks : List FoundLook) →
        IsStateAfter board.now h → IsOpenAt config.now h looks came.old →
        IsOpenAt config.now h (looks ++ found_of one.entry.now ∷ []) came.new) }
    ensures count { IfOk result (λ _. came.new.count ≡ came.old.count + 1) }
    ensures misfit { IfErr result (λ why. (h : List PassEntry) → IsStateAfter board.now h →
        is_unfit h came.old.count one.entry.now ≡ Some why) }
{
    came.look(config, board, found_look(one))
}

/// Takes what was found of the next thread, or says why its look does not fit.
#[inline(always)]
fn take_next(
    came: &mut OpenPass,
    config: &Config,
    board: &Board,
    one: &Found,
) -> Result<(), LookFault>
    requires next { came.old.count < threads_of_table config.now }
    ensures taken { IfOk result (λ _. (h : List PassEntry) (looks : List FoundLook) →
        SettledAreNoNews config.now h → IsStateAfter board.now h →
        IsOpenAt config.now h looks came.old →
        IsOpenAt config.now h (looks ++ found_of one.entry.now ∷ []) came.new) }
    ensures count { IfOk result (λ _. came.new.count ≡ came.old.count + 1) }
    ensures misfit { IfErr result (λ why. (h : List PassEntry) → IsStateAfter board.now h →
        is_unfit h came.old.count one.entry.now ≡ Some why) }
{
    config.limits();
    if came.pass_over(board, found_look(one)) {
        return Ok(());
    }
    take_news(came, config, board, one)
}

/// Takes the looks of a pass, or says why the first that does not fit does not.
pub fn take_looks(came: &mut OpenPass, on: Basis<'_>, looks: &[Found]) -> Result<(), LookFault>
    requires count { length looks.now ≡ threads_of_table on.config.now }
    ensures taken { IfOk result (λ _. (h : List PassEntry) →
        SettledAreNoNews on.entry.config.now h → IsStateAfter on.entry.board.now h →
        IsOpenAt on.entry.config.now h (map found_of looks.entry.now) came.new) }
    ensures count { IfOk result (λ _. came.new.count ≡ length looks.entry.now) }
    ensures unfit { IfErr result (λ _. (h : List PassEntry) (now bandwidth : ℕ) →
        IsStateAfter on.entry.board.now h →
        IsInput on.entry.config.now h
        (input_of_found on.entry.config.now h now bandwidth looks.entry.now) → ⊥) }
{
    came.begin();
    for one in looks {
        take_next(came, on.config, on.board, one)?;
    }
    Ok(())
}

/// Takes the look at the next thread by itself, and tells what was judged of it. It stands apart,
/// as `take_news` does.
#[cold]
#[inline(never)]
fn take_news_by_itself(came: &mut OpenPass, config: &Config, board: &Board, one: &Found) -> u8
    requires next { came.old.count < threads_of_table config.now }
    ensures taken { (h : List PassEntry) (looks : List Found) → IsStateAfter board.now h →
        length looks ≡ came.old.count → IsTakenAt config.now h looks came.old →
        IsTakenAt config.now h (looks ++ one.entry.now ∷ []) came.new }
    ensures count { came.new.count ≡ came.old.count + 1 }
    ensures said { (h : List PassEntry) → IsStateAfter board.now h →
        result ≡ said_of (fault_of config.now.cores h came.old.count (look_of_found one.entry.now))
        (look_of_found one.entry.now) }
{
    let found = found_look(one);
    let fault = board.fault_of(config, came.count, found.look);
    came.take(config, board, taken_of(found, fault));
    tell_look(found.look, fault)
}

/// Takes the look at the next thread by itself, and tells what was judged of it.
#[inline(always)]
fn take_by_itself(came: &mut OpenPass, config: &Config, board: &Board, one: &Found) -> u8
    requires next { came.old.count < threads_of_table config.now }
    ensures taken { (h : List PassEntry) (looks : List Found) → SettledAreNoNews config.now h →
        IsStateAfter board.now h → length looks ≡ came.old.count →
        IsTakenAt config.now h looks came.old →
        IsTakenAt config.now h (looks ++ one.entry.now ∷ []) came.new }
    ensures count { came.new.count ≡ came.old.count + 1 }
    ensures said { (h : List PassEntry) → SettledAreNoNews config.now h →
        IsStateAfter board.now h →
        result ≡ said_of (fault_of config.now.cores h came.old.count (look_of_found one.entry.now))
        (look_of_found one.entry.now) }
{
    config.limits();
    if came.pass_over(board, found_look(one)) {
        return 1;
    }
    take_news_by_itself(came, config, board, one)
}

/// Takes the looks of a pass, each by itself, and tells what was judged of each.
pub fn take_each(came: &mut OpenPass, on: Basis<'_>, looks: &[Found], judged: &mut [u8])
    requires count { length looks.now ≡ threads_of_table on.config.now }
    requires room { threads_of_table on.config.now ≤ length judged.old }
    ensures taken { (h : List PassEntry) → SettledAreNoNews on.entry.config.now h →
        IsStateAfter on.entry.board.now h →
        IsTakenAt on.entry.config.now h looks.entry.now came.new }
    ensures count { came.new.count ≡ length looks.entry.now }
    ensures said { (h : List PassEntry) → SettledAreNoNews on.entry.config.now h →
        IsStateAfter on.entry.board.now h →
        AreSaid on.entry.config.now.cores h looks.entry.now judged.new }
{
    came.begin();
    for (k, one) in looks.iter().enumerate() {
        judged[k] = take_by_itself(came, on.config, on.board, one);
    }
}
