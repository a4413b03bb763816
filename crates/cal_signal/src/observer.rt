//! An end of a page that looks.
ghost use Rattle.std.specs.Prelude.{◌≡◌, ◌%◌, ◌++◌, [], ◌∷◌, IfOk, IfErr};
ghost use Rattle.cal_signal.specs.Looks.{whole_of};
ghost use Rattle.cal_signal.specs.Pages.{floor_of};
ghost use Rattle.cal_signal.specs.Found.{Found, RefusedAtOnce};

use crate::look::Look;
use crate::open_look::OpenLook;
use crate::record::{Record, WORDS};
use crate::rule::{FirstLoad, PageSeat, PageTable, SecondLoad};
use crate::words::load_words;
use std::marker::Model;
use std::sync::Arc;

/// An end of a page that looks. A page has one or two, which may be moved to threads of their own.
///
/// A contract sees which page it is, each version that was loaded, and each successful look with
/// its place and its record.
#[derive(Drop)]
pub struct Observer {
    pub(crate) table: Arc<PageTable>,
    pub(crate) seat: PageSeat,
    pub(crate) floor: u64,
}

impl Model for Observer {
    ghost use Rattle.cal_signal.specs.Ends.{ObserverView, observer_view, IsObserver};
    ghost use Rattle.std.specs.Arc.{arc_value};

    ghost Value = { ObserverView };

    ghost view = { λ p. observer_view p.seat };

    ghost invariant = { λ p. IsObserver p.seat (arc_value p.table).shared.table_id p.floor };
}

impl Observer {
    /// The place of the last successful look, 0 before the first.
    pub fn floor(&self) -> u64
        ensures { result ≡ floor_of self.now.looks }
    {
        self.floor
    }

    /// One look: a version load, a load of each word and a second version load; an odd first
    /// version ends it at once. Waits for nobody.
    ///
    /// `Whole` gives the record at place `number`, which is not below the floor and is the new
    /// floor. `Busy` leaves the floor.
    pub fn observe(&mut self) -> Look
        ensures page { self.new.page ≡ self.old.page }
        ensures looks { self.new.looks ≡ self.old.looks ++ whole_of result }
        ensures found { Found self.old self.new result }
    {
        let first = self.table.shared.load::<FirstLoad>(&mut self.seat, 0);
        if first % 2 == 1 {
            return Look::Busy {
                first,
                second: first,
            };
        }
        let words = load_words(&self.table, &mut self.seat);
        let second = self.table.shared.load::<SecondLoad>(&mut self.seat, 0);
        if second != first {
            return Look::Busy { first, second };
        }
        self.floor = first / 2;
        Look::Whole {
            number: first / 2,
            rec: Record::from_words(words),
        }
    }

    /// Begins a look in steps: the first version load. An odd version is answered at once as
    /// `Busy`, with the observer, whose floor is as before. Waits for nobody.
    pub fn start(self) -> Result<OpenLook, (Look, Observer)>
        ensures begun { IfOk result (λ begun. begun ≡ record {
          page = self.page;
          loads = self.loads ++ begun.first ∷ [];
          looks = self.looks;
          first = begun.first;
          loaded = 0;
        }) }
        ensures even { IfOk result (λ begun. begun.first % 2 ≡ 0) }
        ensures refused { IfErr result (λ refused. RefusedAtOnce self refused.1 refused.0) }
        ensures handed_back { IfErr result (λ refused.
            (refused.1.page ≡ self.page) × (refused.1.looks ≡ self.looks)) }
    {
        let Observer {
            table,
            mut seat,
            floor,
        } = self;
        let first = table.shared.load::<FirstLoad>(&mut seat, 0);
        if first % 2 == 1 {
            let look = Look::Busy {
                first,
                second: first,
            };
            return Err((look, Observer { table, seat, floor }));
        }
        Ok(OpenLook {
            table,
            seat,
            floor,
            first,
            words: [0; WORDS],
            count: 0,
        })
    }
}
