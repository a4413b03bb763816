//! What the table says, what was sent to a thread, and what one that is gone must show.

ghost use Rattle.std.specs.Prelude.{◌≡◌, ◌≢◌, ◌⊎◌, ◌<◌, ◌≤◌, length, false};
ghost use Rattle.std.specs.Option.{is_some, ForSome};
ghost use Rattle.cal_policy.specs.Judgement.Gone.{can_be_gone};
ghost use Rattle.cal_machine.specs.TableTasks.{threads_of_table};
ghost use Rattle.caladan_c.specs.Answer.{refusal_number};
ghost use Rattle.cal_policy.specs.History.{looks_of};
ghost use Rattle.cal_policy.specs.History.Looks.{kept_by};
ghost use Rattle.caladan_c.specs.Passing.{AfterOwn};
ghost use Rattle.caladan_c.specs.Facts.{machine_of, row_of, state_of, found_kept, IsLookOfGone};
ghost use Rattle.caladan_c.specs.declared.answer.Refusal.TheVariants.{Closed, Lost, NoSuch};
ghost use Rattle.caladan_c.specs.Kinds.{scheduler_in};

use crate::answer::Refusal;
use crate::found::Found;
use crate::gone::gone_look;
use crate::handle::Handle;
use crate::handle::kept::Kept;
use crate::told::facts::{
    MachineFacts, TaskRow, ThreadState, kept_of_thread, row_of_task, state_of_thread, tell_machine,
};
use std::alloc::Global;

/// What the table says of the machine: 0; 10 the handle is closed.
#[unsafe(no_mangle)]
pub extern "C" fn caladan_table(
    alloc: Global,
    handle: &mut Handle,
    machine: &mut MachineFacts,
) -> u8
    ensures closed { is_some (scheduler_in handle.old) ≡ false → result ≡ refusal_number Closed }
    ensures told { ForSome (scheduler_in handle.old) (λ s.
        (result ≡ 0) × (machine.new ≡ machine_of s.table)) }
    ensures refused { result ≢ 0 → machine.new ≡ machine.old }
    ensures same { handle.new.pointer.kept ≡ handle.old.pointer.kept }
{
    asked!(Scheduler: handle, alloc; Refusal::Closed as u8;
        kept => tell_machine(kept.config()); told => {
        *machine = told;
        0
    })
}

/// What the table says of a task: 0; 10 the handle is closed; 16 the table has no such task.
#[unsafe(no_mangle)]
pub extern "C" fn caladan_table_task(
    alloc: Global,
    handle: &mut Handle,
    task: usize,
    row: &mut TaskRow,
) -> u8
    ensures closed { is_some (scheduler_in handle.old) ≡ false → result ≡ refusal_number Closed }
    ensures told { result ≡ 0 → ForSome (scheduler_in handle.old) (λ s.
        row.new ≡ row_of s.table task) }
    ensures there { ForSome (scheduler_in handle.old) (λ s. task < length s.table.tasks →
        result ≡ 0) }
    ensures no_task { ForSome (scheduler_in handle.old) (λ s. length s.table.tasks ≤ task →
        result ≡ refusal_number NoSuch) }
    ensures refused { result ≢ 0 → row.new ≡ row.old }
    ensures same { handle.new.pointer.kept ≡ handle.old.pointer.kept }
{
    looked_up!(Scheduler: handle, alloc; kept => row_of_task(kept.config(), task);
        found => *row = found)
}

/// A thread's task, how many commands were sent to it in the passes so far, and how many of them
/// its kept record acknowledges: 0; 10 the handle is closed; 16 the table has no such thread.
#[unsafe(no_mangle)]
pub extern "C" fn caladan_thread(
    alloc: Global,
    handle: &mut Handle,
    thread: usize,
    state: &mut ThreadState,
) -> u8
    ensures closed { is_some (scheduler_in handle.old) ≡ false → result ≡ refusal_number Closed }
    ensures told { result ≡ 0 → ForSome (scheduler_in handle.old) (λ s.
        AfterOwn s.table s.book (λ h. state.new ≡ state_of s.table h thread)) }
    ensures there { ForSome (scheduler_in handle.old) (λ s. thread < threads_of_table s.table →
        result ≡ 0) }
    ensures no_thread { ForSome (scheduler_in handle.old) (λ s. threads_of_table s.table ≤ thread →
        result ≡ refusal_number NoSuch) }
    ensures refused { result ≢ 0 → state.new ≡ state.old }
    ensures same { handle.new.pointer.kept ≡ handle.old.pointer.kept }
{
    looked_up!(Scheduler: handle, alloc;
        kept => state_of_thread(kept.config(), kept.board(), thread); found => *state = found)
}

/// The kept record of a thread after the passes so far, as a look of which all but the words is 0: 0;
/// 10 the handle is closed; 16 the table has no such thread.
#[unsafe(no_mangle)]
pub extern "C" fn caladan_kept(
    alloc: Global,
    handle: &mut Handle,
    thread: usize,
    look: &mut Found,
) -> u8
    ensures closed { is_some (scheduler_in handle.old) ≡ false → result ≡ refusal_number Closed }
    ensures told { result ≡ 0 → ForSome (scheduler_in handle.old) (λ s.
        AfterOwn s.table s.book (λ h. look.new ≡ found_kept (kept_by (looks_of h) thread))) }
    ensures there { ForSome (scheduler_in handle.old) (λ s. thread < threads_of_table s.table →
        result ≡ 0) }
    ensures no_thread { ForSome (scheduler_in handle.old) (λ s. threads_of_table s.table ≤ thread →
        result ≡ refusal_number NoSuch) }
    ensures refused { result ≢ 0 → look.new ≡ look.old }
    ensures same { handle.new.pointer.kept ≡ handle.old.pointer.kept }
{
    looked_up!(Scheduler: handle, alloc;
        kept => kept_of_thread(kept.config(), kept.board(), thread); found => *look = found)
}

/// What the page of a thread must show once the thread is gone, as a look: 0; 10 the handle is
/// closed; 16 the table has no such thread; 21 no page can show it, because the thread has shown
/// more commands taken than were sent (which only a plain pass lets it), or a number is at its end.
#[unsafe(no_mangle)]
pub extern "C" fn caladan_gone(
    alloc: Global,
    handle: &mut Handle,
    thread: usize,
    look: &mut Found,
) -> u8
    ensures closed { is_some (scheduler_in handle.old) ≡ false → result ≡ refusal_number Closed }
    ensures told { result ≡ 0 → ForSome (scheduler_in handle.old) (λ s.
        AfterOwn s.table s.book (λ h. IsLookOfGone s.book.policy s.table h thread look.new)) }
    ensures lost { result ≡ refusal_number Lost → ForSome (scheduler_in handle.old) (λ s.
        AfterOwn s.table s.book (λ h. can_be_gone h thread ≡ false)) }
    ensures there { ForSome (scheduler_in handle.old) (λ s. thread < threads_of_table s.table →
        (result ≡ 0) ⊎ (result ≡ refusal_number Lost)) }
    ensures no_thread { ForSome (scheduler_in handle.old) (λ s. threads_of_table s.table ≤ thread →
        result ≡ refusal_number NoSuch) }
    ensures refused { result ≢ 0 → look.new ≡ look.old }
    ensures same { handle.new.pointer.kept ≡ handle.old.pointer.kept }
{
    did!(Scheduler: handle, alloc;
        kept => gone_look(kept.config(), kept.board(), thread); found => *look = found)
}
