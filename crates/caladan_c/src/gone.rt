//! What the page of a thread that is gone must show.

ghost use Rattle.std.specs.Prelude.{◌≡◌, ◌⊎◌, ◌<◌, ◌≤◌, Err, IfErr, IfOk, List, false};
ghost use Rattle.cal_machine.specs.TableTasks.{threads_of_table};
ghost use Rattle.cal_policy.specs.declared.history.entry.PassEntry.{PassEntry};
ghost use Rattle.cal_policy.specs.Judgement.Gone.{can_be_gone};
ghost use Rattle.cal_policy.specs.Policies.{IsLegalBy};
ghost use Rattle.cal_policy.specs.declared.policy.Policy.{Policy};
ghost use Rattle.cal_policy.specs.State.{IsStateAfter};
ghost use Rattle.cal_guard.specs.Permitted.{IsPermittedHistory};
ghost use Rattle.caladan_c.specs.Facts.{IsLookOfGone, IsGuardedLookOfGone};
ghost use Rattle.caladan_c.specs.declared.answer.Refusal.TheVariants.{Lost, NoSuch};

use crate::answer::Refusal;
use crate::found::Found;
use crate::told::facts::tell_shown;
use cal_guard::{each_policy_is_permitted, gone_may_be_freed, permitted_gone_is_kept};
use cal_machine::Config;
use cal_policy::laws::gone_frees_its_cores;
use cal_policy::state::Board;

/// The look at the page of a thread that is gone; or that the table has no such thread, or that no
/// page can show it. The same look serves a scheduler, whose next pass frees the thread's cores, and
/// a guard, which then permits that.
pub fn gone_look(config: &Config, board: &Board, thread: usize) -> Result<Found, Refusal>
    ensures legal { IfOk result (λ look. (policy : Policy) (h : List PassEntry) →
        IsLegalBy policy config.now h → IsStateAfter board.now h →
        IsLookOfGone policy config.now h thread look) }
    ensures permitted { IfOk result (λ look. (h : List PassEntry) →
        IsPermittedHistory config.now h → IsStateAfter board.now h →
        IsGuardedLookOfGone config.now h thread look) }
    ensures lost { result ≡ Err Lost → (h : List PassEntry) → IsStateAfter board.now h →
        can_be_gone h thread ≡ false }
    ensures no_thread { threads_of_table config.now ≤ thread → result ≡ Err NoSuch }
    ensures answers { thread < threads_of_table config.now → IfErr result (λ why. why ≡ Lost) }
    ensures why { IfErr result (λ why. (why ≡ NoSuch) ⊎ (why ≡ Lost)) }
{
    if thread >= config.threads() {
        return Err(Refusal::NoSuch);
    }
    config.limits();
    each_policy_is_permitted();
    gone_frees_its_cores();
    permitted_gone_is_kept();
    gone_may_be_freed();
    match board.gone(config, thread) {
        Some(shown) => Ok(tell_shown(shown)),
        None => Err(Refusal::Lost),
    }
}
