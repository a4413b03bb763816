//! A look in steps.
ghost use Rattle.std.specs.Prelude.{◌≡◌, ◌+◌, ◌<◌, ◌++◌};
ghost use Rattle.cal_signal.specs.Found.{Finished};
ghost use Rattle.cal_signal.specs.Looks.{whole_of};

use crate::look::Look;
use crate::observer::Observer;
use crate::record::{Record, WORDS};
use crate::rule::{PageSeat, PageTable, SecondLoad, WordLoad};
use std::marker::Model;
use std::sync::Arc;

/// A look whose words are being loaded. The publisher may act between any two steps.
///
/// A contract sees what it sees of the observer, the first version, which is even, and how many
/// words are loaded.
#[derive(Drop)]
pub struct OpenLook {
    pub(crate) table: Arc<PageTable>,
    pub(crate) seat: PageSeat,
    pub(crate) floor: u64,
    pub(crate) first: u64,
    pub(crate) words: [u64; WORDS],
    pub(crate) count: u8,
}

impl Model for OpenLook {
    ghost use Rattle.cal_signal.specs.Ends.{LookView, IsLooking};
    ghost use Rattle.std.specs.Arc.{arc_value};

    ghost Value = { LookView };

    ghost view = { λ p. record {
      page = p.seat.table_id;
      loads = p.seat.me.0.loads;
      looks = p.seat.me.0.looks;
      first = p.first;
      loaded = p.count;
    } };

    ghost invariant = { λ p. IsLooking p.seat (arc_value p.table).shared.table_id p.floor p.first
        p.words p.count };
}

impl OpenLook {
    /// How many words are loaded, 0 to `WORDS`.
    pub fn loaded(&self) -> u8
        ensures { result ≡ self.now.loaded }
    {
        self.count
    }

    /// Loads the next word, in the record's order. Asks that fewer than `WORDS` are loaded. Waits
    /// for nobody.
    pub fn load_next(&mut self)
        requires { self.old.loaded < WORDS }
        ensures { self.new ≡ record self.old { loaded = self.old.loaded + 1 } }
    {
        let index = self.count as usize;
        self.words[index] = self
            .table
            .shared
            .load::<WordLoad>(&mut self.seat, index + 1);
        self.count += 1;
    }

    /// The second version load: answers as `Observer::observe` does, and hands the observer back.
    /// Asks that all words are loaded. Waits for nobody.
    pub fn finish(self) -> (Look, Observer)
        requires { self.loaded ≡ WORDS }
        ensures page { result.1.page ≡ self.page }
        ensures looks { result.1.looks ≡ self.looks ++ whole_of result.0 }
        ensures found { Finished self result.1 result.0 }
    {
        let OpenLook {
            table,
            mut seat,
            floor,
            first,
            words,
            count: _,
        } = self;
        let second = table.shared.load::<SecondLoad>(&mut seat, 0);
        if second != first {
            return (
                Look::Busy { first, second },
                Observer { table, seat, floor },
            );
        }
        let look = Look::Whole {
            number: first / 2,
            rec: Record::from_words(words),
        };
        let floor = first / 2;
        (look, Observer { table, seat, floor })
    }
}
