//! What a guard says of its table, what was sent to a thread, and what one that is gone must show.

ghost use Rattle.std.specs.Prelude.{◌≡◌, ◌≢◌, ◌⊎◌, ◌<◌, ◌≤◌, length, false};
ghost use Rattle.std.specs.Option.{is_some, ForSome};
ghost use Rattle.cal_policy.specs.Judgement.Gone.{can_be_gone};
ghost use Rattle.cal_machine.specs.TableTasks.{threads_of_table};
ghost use Rattle.caladan_c.specs.Answer.{refusal_number};
ghost use Rattle.caladan_c.specs.Facts.{machine_of, row_of, state_of, IsGuardedLookOfGone};
ghost use Rattle.cal_guard.specs.Guarded.{AfterPermitted};
ghost use Rattle.caladan_c.specs.declared.answer.Refusal.TheVariants.{Closed, Lost, NoSuch};
ghost use Rattle.caladan_c.specs.Kinds.{guard_in};

use crate::answer::Refusal;
use crate::found::Found;
use crate::gone::gone_look;
use crate::handle::Handle;
use crate::handle::kept::Kept;
use crate::told::facts::{
    MachineFacts, TaskRow, ThreadState, row_of_task, state_of_thread, tell_machine,
};
use std::alloc::Global;

/// What the table says of the machine: 0; 10 the handle is closed.
#[unsafe(no_mangle)]
pub extern "C" fn caladan_guard_table(
    alloc: Global,
    handle: &mut Handle,
    machine: &mut MachineFacts,
) -> u8
    ensures closed { is_some (guard_in handle.old) ≡ false → result ≡ refusal_number Closed }
    ensures told { ForSome (guard_in handle.old) (λ g.
        (result ≡ 0) × (machine.new ≡ machine_of g.table)) }
    ensures refused { result ≢ 0 → machine.new ≡ machine.old }
    ensures same { handle.new.pointer.kept ≡ handle.old.pointer.kept }
{
    asked!(Guard: handle, alloc; Refusal::Closed as u8;
        kept => tell_machine(kept.config()); told => {
        *machine = told;
        0
    })
}

/// What the table says of a task: 0; 10 the handle is closed; 16 the table has no such task.
#[unsafe(no_mangle)]
pub extern "C" fn caladan_guard_table_task(
    alloc: Global,
    handle: &mut Handle,
    task: usize,
    row: &mut TaskRow,
) -> u8
    ensures closed { is_some (guard_in handle.old) ≡ false → result ≡ refusal_number Closed }
    ensures told { result ≡ 0 → ForSome (guard_in handle.old) (λ g.
        row.new ≡ row_of g.table task) }
    ensures there { ForSome (guard_in handle.old) (λ g. task < length g.table.tasks →
        result ≡ 0) }
    ensures no_task { ForSome (guard_in handle.old) (λ g. length g.table.tasks ≤ task →
        result ≡ refusal_number NoSuch) }
    ensures refused { result ≢ 0 → row.new ≡ row.old }
    ensures same { handle.new.pointer.kept ≡ handle.old.pointer.kept }
{
    looked_up!(Guard: handle, alloc; kept => row_of_task(kept.config(), task);
        found => *row = found)
}

/// A thread's task, how many commands were sent to it in the passes so far, and how many of them
/// its kept record acknowledges: 0; 10 the handle is closed; 16 the table has no such thread.
#[unsafe(no_mangle)]
pub extern "C" fn caladan_guard_thread(
    alloc: Global,
    handle: &mut Handle,
    thread: usize,
    state: &mut ThreadState,
) -> u8
    ensures closed { is_some (guard_in handle.old) ≡ false → result ≡ refusal_number Closed }
    ensures told { result ≡ 0 → ForSome (guard_in handle.old) (λ g.
        AfterPermitted g.table g.guard (λ h. state.new ≡ state_of g.table h thread)) }
    ensures there { ForSome (guard_in handle.old) (λ g. thread < threads_of_table g.table →
        result ≡ 0) }
    ensures no_thread { ForSome (guard_in handle.old) (λ g. threads_of_table g.table ≤ thread →
        result ≡ refusal_number NoSuch) }
    ensures refused { result ≢ 0 → state.new ≡ state.old }
    ensures same { handle.new.pointer.kept ≡ handle.old.pointer.kept }
{
    looked_up!(Guard: handle, alloc;
        kept => state_of_thread(kept.config(), kept.board(), thread); found => *state = found)
}

/// What the page of a thread must show once the thread is gone, as a look: 0; 10 the handle is
/// closed; 16 the table has no such thread; 21 no page can show it, because the thread has shown
/// more commands taken than were sent (which only a plain pass lets it), or a number is at its end.
#[unsafe(no_mangle)]
pub extern "C" fn caladan_guard_gone(
    alloc: Global,
    handle: &mut Handle,
    thread: usize,
    look: &mut Found,
) -> u8
    ensures closed { is_some (guard_in handle.old) ≡ false → result ≡ refusal_number Closed }
    ensures told { result ≡ 0 → ForSome (guard_in handle.old) (λ g.
        AfterPermitted g.table g.guard (λ h. IsGuardedLookOfGone g.table h thread look.new)) }
    ensures lost { result ≡ refusal_number Lost → ForSome (guard_in handle.old) (λ g.
        AfterPermitted g.table g.guard (λ h. can_be_gone h thread ≡ false)) }
    ensures there { ForSome (guard_in handle.old) (λ g. thread < threads_of_table g.table →
        (result ≡ 0) ⊎ (result ≡ refusal_number Lost)) }
    ensures no_thread { ForSome (guard_in handle.old) (λ g. threads_of_table g.table ≤ thread →
        result ≡ refusal_number NoSuch) }
    ensures refused { result ≢ 0 → look.new ≡ look.old }
    ensures same { handle.new.pointer.kept ≡ handle.old.pointer.kept }
{
    did!(Guard: handle, alloc;
        kept => gone_look(kept.config(), kept.board(), thread); found => *look = found)
}
