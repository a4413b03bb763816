//! Which of the looks that C hands in does not fit.

ghost use Rattle.std.specs.Prelude.{◌≡◌, ◌≢◌, ◌<◌, Err, IfErr, IfNone, IfOk, IsOk, List, length};
ghost use Rattle.std.specs.Option.{is_some, IfSome};
ghost use Rattle.cal_machine.specs.TableTasks.{threads_of_table};
ghost use Rattle.cal_policy.specs.declared.history.entry.PassEntry.{PassEntry};
ghost use Rattle.cal_policy.specs.State.{IsStateAfter};
ghost use Rattle.caladan_c.specs.OneByOne.{is_unfit, IsFirstUnfit, AllFit};
ghost use Rattle.caladan_c.specs.declared.answer.Refusal.TheVariants.{WrongCount};

use crate::answer::Refusal;
use crate::found::{Found, found_look};
use cal_machine::Config;
use cal_policy::state::Board;

/// Whether the look at thread `k` does not fit what the thread showed before.
fn is_misfit(config: &Config, board: &Board, k: usize, one: &Found) -> bool
    requires { k < threads_of_table config.now }
    ensures { (h : List PassEntry) → IsStateAfter board.now h →
        result ≡ is_some (is_unfit h k one.now) }
{
    board.misfit_of(config, k, found_look(one).look).is_some()
}

/// The first thread whose look does not fit what it showed before, or has not the right shape; or
/// that there is not one look for each thread.
pub fn first_unfit(
    config: &Config,
    board: &Board,
    looks: &[Found],
) -> Result<Option<usize>, Refusal>
    ensures first { IfOk result (λ found. IfSome found (λ k. (h : List PassEntry) →
        IsStateAfter board.now h → IsFirstUnfit h looks.now k)) }
    ensures none { IfOk result (λ found. IfNone found ((h : List PassEntry) →
        IsStateAfter board.now h → AllFit h looks.now)) }
    ensures wrong_count { length looks.now ≢ threads_of_table config.now →
        result ≡ Err WrongCount }
    ensures answers { length looks.now ≡ threads_of_table config.now → IsOk result }
    ensures why { IfErr result (λ why. why ≡ WrongCount) }
{
    if looks.len() != config.threads() {
        return Err(Refusal::WrongCount);
    }
    for (k, one) in looks.iter().enumerate() {
        if is_misfit(config, board, k, one) {
            return Ok(Some(k));
        }
    }
    Ok(None)
}
