//! What the turns of each kernel thread come to, in thread order.

ghost use Rattle.std.specs.Prelude.{[], List, IfOk, replicate};
ghost use Rattle.std.specs.List.{AllZip};
ghost use Rattle.cal_kthread.specs.declared.journal.entry.Entry.{Entry};
ghost use Rattle.cal_measure.specs.ThreadWork.{AreTotalsOfEach, IsThreadWorkOf};

use crate::thread_work::ThreadWork;
use crate::thread_work::totals::ThreadTotals;
use std::alloc::{AllocError, Global};

/// Those of so many threads that did nothing yet. Fails only when out of memory.
pub fn open_works(alloc: Global, threads: usize) -> Result<Vec<ThreadWork>, AllocError>
    ensures { IfOk result (λ works. AllZip IsThreadWorkOf (replicate threads []) works.items) }
{
    let mut works = Vec::new(alloc);
    for _ in 0..threads {
        works.push(ThreadWork::open(alloc))?;
    }
    Ok(works)
}

/// What the whole journals came to, in a run with this last clock. Fails only when out of memory.
pub fn end_works(
    alloc: Global,
    works: Vec<ThreadWork>,
    last: u64,
) -> Result<Vec<ThreadTotals>, AllocError>
    ensures { IfOk result (λ totals. (journals : List (List Entry)) →
        AllZip IsThreadWorkOf journals works.items →
        AreTotalsOfEach last journals totals.items) }
{
    let mut totals = Vec::new(alloc);
    for work in works {
        let ended = work.end(last)?;
        totals.push(ended)?;
    }
    Ok(totals)
}
