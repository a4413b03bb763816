//! How looks are judged by the commands sent so far, and which inputs a pass may be given.

ghost use Rattle.std.specs.Prelude.{◌≡◌, ℕ, ◌<◌, ◌≤◌, ◌==◌, ◌&&◌, ◌↔◌, nat_le};
ghost use Rattle.std.specs.Prelude.{List, length, IsTrue, Some, slice_get};
ghost use Rattle.cal_machine.specs.declared.machine.TheConstants.{MOST_CORES};
ghost use Rattle.cal_machine.specs.declared.numbering.TheConstants.{MOST_THREADS};
ghost use Rattle.cal_policy.specs.declared.history.action.Action.{Action};
ghost use Rattle.cal_policy.specs.declared.history.entry.PassEntry.{PassEntry};
ghost use Rattle.cal_policy.specs.declared.history.look.Seen.{Seen};
ghost use Rattle.cal_signal.specs.Shown.{IsFitShown};
ghost use Rattle.cal_policy.specs.History.{actions_of, looks_of};
ghost use Rattle.cal_policy.specs.History.Looks.{last_shown, look_of};
ghost use Rattle.cal_policy.specs.Judgement.Orderly.{IsOrderly};
ghost use Rattle.cal_machine.specs.TableTasks.{threads_of_table};
ghost use Rattle.cal_policy.specs.Judgement.Judging.{is_acknowledged_by, is_foreign, judged};
ghost use Rattle.cal_policy.specs.Judgement.Judging.{IsFitLook, AreFitLooks, IsInput};
ghost use Rattle.cal_policy.specs.Board.{HasSizes, HoldersAgree};
ghost use Rattle.cal_policy.specs.State.{Agrees, KeepingAgrees};

use crate::board::Board;
use crate::board::holders::{Holder, Holding, Placement};
use crate::board::records::Keeping;
use crate::board::replay::board_of;
use crate::history::entry::PassEntry;
use crate::history::input::Input;
use crate::history::look::Seen;
use cal_machine::Config;
use cal_signal::{Look, Record, Shown, is_busy_pair, may_follow, shaped};

/// Whether this is thread `k` with a Run that the record acknowledges.
fn is_run_of(placement: Placement, k: usize, rec: &Record) -> bool
    ensures { result ≡ ((placement.thread == k) && nat_le placement.number rec.now.taken) }
{
    placement.thread as usize == k && placement.number <= u128::from(rec.taken)
}

/// Whether thread `k` holds or leaves the core by a Run that the record acknowledges.
fn is_acknowledged(holder: Holder, k: usize, rec: &Record) -> bool
    ensures { result ≡ is_acknowledged_by k rec.now holder }
{
    match holder {
        Holder::Free => false,
        Holder::Held(placement) => is_run_of(placement, k, rec),
        Holder::Leaving(placement, _) => is_run_of(placement, k, rec),
    }
}

/// Whether the record shows thread `k` on a core that it does not have by a Run that the record
/// acknowledges.
fn is_elsewhere(holding: &Holding, cores: u8, k: usize, rec: Record) -> bool
    requires { cores ≤ MOST_CORES }
    ensures { (x : List Action) → HoldersAgree holding.now x → result ≡ is_foreign cores x k rec }
{
    if rec.running == 0 {
        return false;
    }
    if rec.running > u64::from(cores) {
        return true;
    }
    !is_acknowledged(holding.holders[rec.running as usize - 1], k, &rec)
}

/// The judgement of a look at thread `k`.
#[inline(always)]
pub fn judged_by(board: &Board, cores: u8, k: usize, look: Look) -> Seen
    requires cores { cores ≤ MOST_CORES }
    requires thread { k < MOST_THREADS }
    ensures { (x : List Action) → Agrees board.now x → result ≡ judged cores x k look }
{
    match look {
        Look::Busy { first, second } => Seen::Busy { first, second },
        Look::Whole { number, rec } => {
            if board.holding.sent[k] < u128::from(rec.taken) {
                Seen::Ahead { number, rec }
            } else if is_elsewhere(&board.holding, cores, k, rec) {
                Seen::Foreign { number, rec }
            } else {
                Seen::Whole { number, rec }
            }
        }
    }
}

/// The look, without its judgement.
fn look_at(seen: Seen) -> Look
    ensures { result ≡ look_of seen }
{
    match seen {
        Seen::Busy { first, second } => Look::Busy { first, second },
        Seen::Whole { number, rec } => Look::Whole { number, rec },
        Seen::Ahead { number, rec } => Look::Whole { number, rec },
        Seen::Foreign { number, rec } => Look::Whole { number, rec },
    }
}

/// Whether a record has the right shape and may be shown after another one.
fn is_fit_record(last: &Shown, number: u64, rec: &Record) -> bool
    ensures { IsTrue result ↔ IsFitShown last.now (record { number = number; rec = rec.now }) }
{
    let next = Shown { number, rec: *rec };
    shaped(rec) && may_follow(last, &next)
}

/// Whether a look fits what was shown of its thread before.
pub fn is_fit_look(last: &Shown, look: &Seen) -> bool
    ensures { IsTrue result ↔ IsFitLook last.now look.now }
{
    match look {
        Seen::Busy { first, second } => is_busy_pair(*first, *second),
        Seen::Whole { number, rec } => is_fit_record(last, *number, rec),
        Seen::Ahead { number, rec } => is_fit_record(last, *number, rec),
        Seen::Foreign { number, rec } => is_fit_record(last, *number, rec),
    }
}

/// Whether each look fits what was shown of its thread before.
fn each_fits(keeping: &Keeping, seen: &[Seen]) -> bool
    requires { length seen.now ≤ MOST_THREADS }
    ensures { (looks : List (List Seen)) → KeepingAgrees keeping.now looks →
        IsTrue result ↔ ((k : ℕ) (look : Seen) → slice_get seen.now k ≡ Some look →
        IsFitLook (last_shown looks k) look) }
{
    for (k, look) in seen.iter().enumerate() {
        if !is_fit_look(&keeping.shown(k), look) {
            return false;
        }
    }
    true
}

/// Whether there is one look and one answer on room for each thread, and each look fits what was
/// shown of its thread before.
pub fn looks_fit(keeping: &Keeping, config: &Config, input: &Input) -> bool
    ensures few { IsTrue result → length input.entry.now.seen ≤ MOST_THREADS }
    ensures sizes { IsTrue result → HasSizes config.now input.entry.now }
    ensures fit { (h : List PassEntry) → KeepingAgrees keeping.now (looks_of h) → IsTrue result ↔
        AreFitLooks config.now h input.entry.now }
{
    let threads = config.threads();
    let seen = input.seen.as_slice();
    if seen.len() != threads || input.rooms.as_slice().len() != threads {
        return false;
    }
    each_fits(keeping, seen)
}

/// Whether two judged looks are equal.
fn is_same_look(a: &Seen, b: &Seen) -> bool
    ensures { IsTrue result ↔ a.now ≡ b.now }
{
    *a == *b
}

/// Whether a look says what is judged of it.
fn is_as_judged(board: &Board, cores: u8, k: usize, look: Seen) -> bool
    requires cores { cores ≤ MOST_CORES }
    requires thread { k < MOST_THREADS }
    ensures { (x : List Action) → Agrees board.now x → IsTrue result ↔
        look ≡ judged cores x k (look_of look) }
{
    let said = judged_by(board, cores, k, look_at(look));
    is_same_look(&look, &said)
}

/// Whether each look says what is judged of it.
pub fn each_as_judged(board: &Board, cores: u8, seen: &[Seen]) -> bool
    requires cores { cores ≤ MOST_CORES }
    requires looks { length seen.now ≤ MOST_THREADS }
    ensures { (x : List Action) → Agrees board.now x →
        IsTrue result ↔ ((k : ℕ) (look : Seen) → slice_get seen.now k ≡ Some look →
        look ≡ judged cores x k (look_of look)) }
{
    for (k, look) in seen.iter().enumerate() {
        if !is_as_judged(board, cores, k, *look) {
            return false;
        }
    }
    true
}

/// The judgement of a look at thread `k` after a history: a whole record that acknowledges more
/// commands than were sent is ahead; one that shows its thread on a core that the thread does not
/// have by a Run that it acknowledges is foreign.
pub fn judge(config: &Config, history: &[PassEntry], k: usize, look: Look) -> Seen
    requires orderly { IsOrderly config.now history.now }
    requires thread { k < threads_of_table config.now }
    ensures { result ≡ judged config.now.cores (actions_of history.now) k look }
{
    config.limits();
    let board = board_of(config, history);
    judged_by(&board, config.machine().cores(), k, look)
}

/// Whether a pass may be given this input after a history: one look and one answer on room for each
/// thread; each look fits what was shown of its thread before, and says what is judged of it.
pub fn is_input(config: &Config, history: &[PassEntry], input: &Input) -> bool
    requires { IsOrderly config.now history.now }
    ensures { IsTrue result ↔ IsInput config.now history.now input.entry.now }
{
    let board = board_of(config, history);
    board.fits(config, input)
}
