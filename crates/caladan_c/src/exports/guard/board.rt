//! What a policy chooses by: what the looks of the next pass are judged, the kept records, bans, and
//! who was on a core last. Nothing changes.

ghost use Rattle.std.specs.Prelude.{◌≡◌, ◌≢◌, ◌⊎◌, ◌<◌, ◌≤◌, length, false};
ghost use Rattle.std.specs.Option.{is_some, ForSome};
ghost use Rattle.cal_machine.specs.TableTasks.{threads_of_table};
ghost use Rattle.cal_policy.specs.History.{actions_of, ban_of, last_thread, looks_of};
ghost use Rattle.cal_policy.specs.History.Looks.{kept_by};
ghost use Rattle.cal_guard.specs.Guarded.{AfterPermitted};
ghost use Rattle.caladan_c.specs.Answer.{refusal_number};
ghost use Rattle.caladan_c.specs.Cores.{told_ban_of, told_last_of};
ghost use Rattle.caladan_c.specs.Facts.{found_kept};
ghost use Rattle.caladan_c.specs.Kinds.{guard_in};
ghost use Rattle.caladan_c.specs.OneByOne.{AreSaid};
ghost use Rattle.caladan_c.specs.declared.answer.Refusal.TheVariants.{Closed, NoRoom, NoSuch};
ghost use Rattle.caladan_c.specs.declared.answer.Refusal.TheVariants.{WrongCount};

use crate::answer::Refusal;
use crate::found::Found;
use crate::handle::Handle;
use crate::handle::kept::Kept;
use crate::judging::judge_each;
use crate::told::cores::{ToldBan, ToldLast, ban_on, last_on};
use crate::told::facts::kept_of_thread;
use std::alloc::Global;

/// What `caladan_guard_pass_each` would judge of each look, were it given them now: 0; 10 the handle
/// is closed; 13 there is not one look for each thread; 14 there is not room for a judgement of
/// each. Only 0 writes any.
#[unsafe(no_mangle)]
pub extern "C" fn caladan_guard_judge(
    alloc: Global,
    handle: &mut Handle,
    looks: &[Found],
    judged: &mut [u8],
) -> u8
    ensures closed { is_some (guard_in handle.old) ≡ false → result ≡ refusal_number Closed }
    ensures judged { result ≡ 0 → ForSome (guard_in handle.old) (λ g.
        AfterPermitted g.table g.guard (λ h. AreSaid g.table.cores h looks.now judged.new)) }
    ensures wrong_count { ForSome (guard_in handle.old) (λ g.
        length looks.now ≢ threads_of_table g.table → result ≡ refusal_number WrongCount) }
    ensures no_room { ForSome (guard_in handle.old) (λ g.
        length looks.now ≡ threads_of_table g.table → length judged.old < threads_of_table g.table →
        result ≡ refusal_number NoRoom) }
    ensures answers { ForSome (guard_in handle.old) (λ g.
        length looks.now ≡ threads_of_table g.table → threads_of_table g.table ≤ length judged.old →
        result ≡ 0) }
    ensures own { (result ≡ 0) ⊎ (result ≡ refusal_number Closed) ⊎
        (result ≡ refusal_number WrongCount) ⊎ (result ≡ refusal_number NoRoom) }
    ensures refused { result ≢ 0 → judged.new ≡ judged.old }
    ensures same { handle.new.pointer.kept ≡ handle.old.pointer.kept }
{
    did!(Guard: handle, alloc;
        kept => judge_each(kept.config(), kept.board(), looks, judged); _judged => ())
}

/// The kept record of a thread after the passes that went through, as a look of which all but the
/// words is 0: 0; 10 the handle is closed; 16 the table has no such thread.
#[unsafe(no_mangle)]
pub extern "C" fn caladan_guard_kept(
    alloc: Global,
    handle: &mut Handle,
    thread: usize,
    look: &mut Found,
) -> u8
    ensures closed { is_some (guard_in handle.old) ≡ false → result ≡ refusal_number Closed }
    ensures told { result ≡ 0 → ForSome (guard_in handle.old) (λ g.
        AfterPermitted g.table g.guard (λ h.
        look.new ≡ found_kept (kept_by (looks_of h) thread))) }
    ensures there { ForSome (guard_in handle.old) (λ g. thread < threads_of_table g.table →
        result ≡ 0) }
    ensures no_thread { ForSome (guard_in handle.old) (λ g. threads_of_table g.table ≤ thread →
        result ≡ refusal_number NoSuch) }
    ensures refused { result ≢ 0 → look.new ≡ look.old }
    ensures same { handle.new.pointer.kept ≡ handle.old.pointer.kept }
{
    looked_up!(Guard: handle, alloc; kept => kept_of_thread(kept.config(), kept.board(), thread);
        found => *look = found)
}

/// For whom a core is banned after the passes that went through: 0; 10 the handle is closed; 16 the
/// table has no such core.
#[unsafe(no_mangle)]
pub extern "C" fn caladan_guard_ban(
    alloc: Global,
    handle: &mut Handle,
    core: u8,
    ban: &mut ToldBan,
) -> u8
    ensures closed { is_some (guard_in handle.old) ≡ false → result ≡ refusal_number Closed }
    ensures told { result ≡ 0 → ForSome (guard_in handle.old) (λ g.
        AfterPermitted g.table g.guard (λ h.
        ban.new ≡ told_ban_of (ban_of (actions_of h) core))) }
    ensures there { ForSome (guard_in handle.old) (λ g. core < g.table.cores → result ≡ 0) }
    ensures no_core { ForSome (guard_in handle.old) (λ g. g.table.cores ≤ core →
        result ≡ refusal_number NoSuch) }
    ensures refused { result ≢ 0 → ban.new ≡ ban.old }
    ensures same { handle.new.pointer.kept ≡ handle.old.pointer.kept }
{
    looked_up!(Guard: handle, alloc; kept => ban_on(kept.config(), kept.board(), core);
        found => *ban = found)
}

/// Who was granted a core last in the passes that went through: 0; 10 the handle is closed; 16 the
/// table has no such core.
#[unsafe(no_mangle)]
pub extern "C" fn caladan_guard_last(
    alloc: Global,
    handle: &mut Handle,
    core: u8,
    last: &mut ToldLast,
) -> u8
    ensures closed { is_some (guard_in handle.old) ≡ false → result ≡ refusal_number Closed }
    ensures told { result ≡ 0 → ForSome (guard_in handle.old) (λ g.
        AfterPermitted g.table g.guard (λ h.
        last.new ≡ told_last_of g.table (last_thread (actions_of h) core))) }
    ensures there { ForSome (guard_in handle.old) (λ g. core < g.table.cores → result ≡ 0) }
    ensures no_core { ForSome (guard_in handle.old) (λ g. g.table.cores ≤ core →
        result ≡ refusal_number NoSuch) }
    ensures refused { result ≢ 0 → last.new ≡ last.old }
    ensures same { handle.new.pointer.kept ≡ handle.old.pointer.kept }
{
    looked_up!(Guard: handle, alloc; kept => last_on(kept.config(), kept.board(), core);
        found => *last = found)
}
