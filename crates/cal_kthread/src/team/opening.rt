//! One kernel thread is opened.
ghost use Rattle.std.specs.Prelude.{◌≡◌, [], IfOk};
ghost use Rattle.cal_kthread.specs.Turn.Thread.{IsFresh};

use crate::bare_thread::BareThread;
use crate::queue::OwnQueue;
use crate::turn::thread::Thread;
use cal_command::{Sender, open_ring};
use cal_machine::Past;
use cal_signal::{Observer, open_watched};
use std::alloc::{AllocError, Global};

/// A kernel thread that was just opened, and the other ends of its page and its ring.
#[derive(Drop)]
pub(crate) struct Opened {
    /// The thread.
    pub(crate) thread: BareThread,
    /// The first observer of its page.
    pub(crate) observer: Observer,
    /// The second observer of its page.
    pub(crate) watcher: Observer,
    /// The end of its ring that sends.
    pub(crate) sender: Sender,
}

/// A kernel thread of this number that did nothing yet, with a page, a ring and a queue of its own,
/// and no thieves. Fails only when out of memory.
pub(crate) fn open_thread(alloc: Global, number: u8) -> Result<Opened, AllocError>
    ensures number { IfOk result (λ opened. opened.thread.number ≡ number) }
    ensures fresh { IfOk result (λ opened. IsFresh opened.thread) }
    ensures page { IfOk result (λ opened.
        (opened.thread.thread.publisher.page ≡ opened.observer.page)
        × (opened.thread.thread.publisher.page ≡ opened.watcher.page)) }
    ensures unseen { IfOk result (λ opened. (opened.observer.loads ≡ [])
        × (opened.observer.looks ≡ [])
        × (opened.watcher.loads ≡ []) × (opened.watcher.looks ≡ [])) }
    ensures ring { IfOk result (λ opened. (opened.thread.thread.taker.ring ≡ opened.sender.ring)
        × (opened.sender.sent ≡ []) × (opened.sender.free ≡ 4)) }
{
    let (publisher, observer, watcher) = open_watched(alloc)?;
    let (sender, taker) = open_ring(alloc)?;
    let queue = OwnQueue::open(alloc)?;
    let thread = Thread {
        publisher,
        taker,
        taken: 0,
        queue,
        sources: Vec::new(alloc),
        core: None,
        current: None,
        front: None,
        misses: 0,
    };
    Ok(Opened {
        thread: BareThread {
            number,
            past: Past::none(),
            thread,
        },
        observer,
        watcher,
        sender,
    })
}
