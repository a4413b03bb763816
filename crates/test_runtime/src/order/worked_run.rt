//! The worked run, as values: two passes, and what the thread did.
ghost use Rattle.std.specs.Prelude.{◌≡◌, IfOk};
ghost use Rattle.test_runtime.specs.WorkedRow.{waiting, at_work, served, pass_at};
ghost use Rattle.test_runtime.specs.WorkedRow.{passes, journal};

use cal_kthread::{Entry, Journal, Request};
use cal_machine::Command;
use cal_policy::{Action, ActionList, Input, PassEntry, Rooms, Seen, SeenList};
use cal_signal::Record;
use std::alloc::{AllocError, Global};

/// The record with a request that waits.
pub fn waiting() -> Record
    ensures { result ≡ waiting }
{
    Record {
        queued: 1,
        oldest: 100,
        stamp: 100,
        ..Record::ZERO
    }
}

/// The record of a thread that is at work on it.
pub fn at_work() -> Record
    ensures { result ≡ at_work }
{
    Record {
        taken: 1,
        running: 1,
        started: 120,
        misses: 7,
        stamp: 120,
        ..Record::ZERO
    }
}

/// The record after it.
pub fn served() -> Record
    ensures { result ≡ served }
{
    Record {
        taken: 1,
        running: 1,
        misses: 14,
        stamp: 140,
        ..Record::ZERO
    }
}

/// A pass on this look at the one thread, whose ring has room.
fn pass(alloc: Global, now: u64, look: Seen, actions: Vec<Action>) -> Result<PassEntry, AllocError>
    ensures { IfOk result (λ entry. entry ≡ pass_at now look actions.items) }
{
    Ok(PassEntry {
        input: Input {
            now,
            bandwidth: 0,
            seen: SeenList::new(vec![in alloc; look]?),
            rooms: Rooms::new(vec![in alloc; true]?),
        },
        actions: ActionList::new(actions),
    })
}

/// The two passes.
pub fn passes(alloc: Global) -> Result<Vec<PassEntry>, AllocError>
    ensures { IfOk result (λ history. history.items ≡ passes) }
{
    let grant = Action::Grant {
        core: 0,
        thread: 0,
        class: 3,
    };
    let first = Seen::Whole {
        number: 1,
        rec: waiting(),
    };
    let second = Seen::Whole {
        number: 2,
        rec: at_work(),
    };
    let granting = pass(alloc, 111, first, vec![in alloc; grant]?)?;
    let resting = pass(alloc, 130, second, Vec::new(alloc))?;
    Ok(vec![in alloc; granting, resting]?)
}

/// What the thread did.
pub fn journal(alloc: Global) -> Result<Journal, AllocError>
    ensures { IfOk result (λ made. made ≡ journal) }
{
    let request = Request {
        id: 1,
        work: 2,
        misses: 7,
    };
    Ok(Journal::new(vec![in alloc;
        Entry::Arrived(request),
        Entry::Published(1, waiting()),
        Entry::Took(1, Command::Run(0)),
        Entry::Published(2, at_work()),
        Entry::Served { id: 1 },
        Entry::Published(3, served()),
    ]?))
}
