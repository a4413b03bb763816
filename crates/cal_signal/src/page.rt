//! Opening a page, the calls that take both of its ends, and closing it.
ghost use Rattle.std.specs.Prelude.{◌≡◌, ◌+◌, ◌*◌, ◌++◌, [], ◌∷◌, length, IfOk};
ghost use Rattle.cal_signal.specs.Pages.{IsPage, page_of, last_published, FitsPage, floor_of};

use crate::look::Look;
use crate::observer::Observer;
use crate::publication::OpenPage;
use crate::publisher::Publisher;
use crate::record::{Record, WORDS};
use crate::rule::{Comparison, OpenLooking, PageTable, Parts, ReadingBack, WatcherPart};
use std::alloc::{AllocError, Global};
use std::sync::Arc;

/// A new page with one observer. Out of memory is the only error.
pub fn open_page(alloc: Global) -> Result<(Publisher, Observer), AllocError>
    ensures one_page { IfOk result (λ ends. ends.0.page ≡ ends.1.page) }
    ensures fresh { IfOk result (λ ends. (ends.0.published ≡ []) × (ends.1.loads ≡ [])
        × (ends.1.looks ≡ [])) }
{
    let (table, mut seat) = PageTable::of_words(alloc, &[0; 1 + WORDS], &())?;
    let observing = table.shared.split_seat::<Parts>(&mut seat);
    let ours = Arc::new(alloc, table)?;
    let theirs = Arc::try_clone(&ours)?;
    let publisher = Publisher {
        table: ours,
        seat,
        place: 0,
        last: Record::ZERO,
    };
    let observer = Observer {
        table: theirs,
        seat: observing,
        floor: 0,
    };
    Ok((publisher, observer))
}

/// A new page with two observers. Out of memory is the only error.
pub fn open_watched(alloc: Global) -> Result<(Publisher, Observer, Observer), AllocError>
    ensures one_page { IfOk result (λ ends. (ends.0.page ≡ ends.1.page)
        × (ends.0.page ≡ ends.2.page)) }
    ensures fresh { IfOk result (λ ends. (ends.0.published ≡ [])
        × (ends.1.loads ≡ []) × (ends.1.looks ≡ []) × (ends.2.loads ≡ []) × (ends.2.looks ≡ [])) }
{
    let (table, mut seat) = PageTable::of_words(alloc, &[0; 1 + WORDS], &())?;
    let watching = table.shared.split_seat::<WatcherPart>(&mut seat);
    let observing = table.shared.split_seat::<Parts>(&mut seat);
    let ours = Arc::new(alloc, table)?;
    let theirs = Arc::try_clone(&ours)?;
    let others = Arc::try_clone(&ours)?;
    let publisher = Publisher {
        table: ours,
        seat,
        place: 0,
        last: Record::ZERO,
    };
    let observer = Observer {
        table: theirs,
        seat: observing,
        floor: 0,
    };
    let watcher = Observer {
        table: others,
        seat: watching,
        floor: 0,
    };
    Ok((publisher, observer, watcher))
}

/// A look at a page while its next record is being written: busy, with the odd version twice. The
/// floor stays. Asks for two ends of one page; takes either observer of a watched one. Waits for
/// nobody.
pub fn look_open(page: OpenPage, observer: Observer) -> (OpenPage, Observer, Look)
    requires { page.page ≡ observer.page }
    ensures page { result.0 ≡ page }
    ensures look { let version = 2 * length page.published + 1 in
        (result.2 ≡ Look.Busy version version)
        × (result.1 ≡ record observer { loads = observer.loads ++ version ∷ [] }) }
{
    let OpenPage {
        table,
        mut seat,
        place,
        pending,
        count,
    } = page;
    let Observer {
        table: theirs,
        seat: observing,
        floor,
    } = observer;
    table.shared.join_seat::<OpenLooking>(&mut seat, observing);
    let observing = table.shared.split_seat::<Parts>(&mut seat);
    let version = place * 2 + 1;
    let page = OpenPage {
        table,
        seat,
        place,
        pending,
        count,
    };
    let observer = Observer {
        table: theirs,
        seat: observing,
        floor,
    };
    let look = Look::Busy {
        first: version,
        second: version,
    };
    (page, observer, look)
}

/// The record at the last place, which is the observer's new floor. It is never busy. Asks for two
/// ends of one page; takes either observer of a watched one. Waits for nobody.
pub fn read_back(publisher: Publisher, observer: Observer) -> (Publisher, Observer, Record)
    requires { publisher.page ≡ observer.page }
    ensures publisher { result.0 ≡ publisher }
    ensures last { result.2 ≡ last_published publisher.published }
    ensures looks { result.1 ≡ record observer {
      looks = observer.looks
          ++ (length publisher.published, result.2) ∷ [];
    } }
{
    let Publisher {
        table,
        mut seat,
        place,
        last,
    } = publisher;
    let Observer {
        table: theirs,
        seat: observing,
        floor: _,
    } = observer;
    table.shared.join_seat::<ReadingBack>(&mut seat, observing);
    let observing = table.shared.split_seat::<Parts>(&mut seat);
    let publisher = Publisher {
        table,
        seat,
        place,
        last,
    };
    let observer = Observer {
        table: theirs,
        seat: observing,
        floor: place,
    };
    (publisher, observer, last)
}

/// How far a page came.
#[derive(Clone, Copy, Debug, PartialEq, Eq)]
pub struct PageEnd {
    /// The last place.
    pub published: u64,
    /// The observer's floor.
    pub seen: u64,
}

/// Ends a page with one observer. Asks for the two ends of one page.
///
/// What was published is a page, and every record that was observed is the one at its place there.
pub fn close_page(publisher: Publisher, observer: Observer) -> PageEnd
    requires { publisher.page ≡ observer.page }
    ensures page { IsPage (page_of publisher.published) }
    ensures fits { FitsPage (page_of publisher.published) observer.looks }
    ensures ends { (result.published ≡ length publisher.published)
        × (result.seen ≡ floor_of observer.looks) }
{
    let Publisher {
        table,
        mut seat,
        place,
        last: _,
    } = publisher;
    let Observer {
        table: _,
        seat: observing,
        floor,
    } = observer;
    table.shared.join_seat::<Parts>(&mut seat, observing);
    table.shared.load::<Comparison>(&mut seat, 0);
    PageEnd {
        published: place,
        seen: floor,
    }
}

/// How far a page with two observers came.
#[derive(Clone, Copy, Debug, PartialEq, Eq)]
pub struct WatchEnd {
    /// The last place.
    pub published: u64,
    /// The floor of the observer that was given first.
    pub first: u64,
    /// The floor of the other.
    pub second: u64,
}

/// Ends a page with two observers, which may come in either order. Asks for the three ends of one
/// page.
///
/// What was published is a page, and every record that either observer saw is the one at its place
/// there. Nothing is said of the order between the two.
pub fn close_watched(publisher: Publisher, first: Observer, second: Observer) -> WatchEnd
    requires { (publisher.page ≡ first.page) × (publisher.page ≡ second.page) }
    ensures page { IsPage (page_of publisher.published) }
    ensures first_fits { FitsPage (page_of publisher.published) first.looks }
    ensures second_fits { FitsPage (page_of publisher.published) second.looks }
    ensures ends { (result.published ≡ length publisher.published)
        × (result.first ≡ floor_of first.looks) × (result.second ≡ floor_of second.looks) }
{
    let Publisher {
        table,
        mut seat,
        place,
        last: _,
    } = publisher;
    let Observer {
        table: _,
        seat: observing,
        floor: observed,
    } = first;
    let Observer {
        table: _,
        seat: watching,
        floor: watched,
    } = second;
    table.shared.join_seat::<Parts>(&mut seat, observing);
    table.shared.load::<Comparison>(&mut seat, 0);
    let _observing = table.shared.split_seat::<Parts>(&mut seat);
    table.shared.join_seat::<Parts>(&mut seat, watching);
    table.shared.load::<Comparison>(&mut seat, 0);
    WatchEnd {
        published: place,
        first: observed,
        second: watched,
    }
}
