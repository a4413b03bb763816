//! A publication in steps.
ghost use Rattle.std.specs.Prelude.{◌≡◌, ◌+◌, ◌<◌, ◌++◌, [], ◌∷◌};

use crate::publisher::Publisher;
use crate::record::{Record, WORDS};
use crate::rule::{ClosingStore, PageSeat, PageTable, WordStore};
use std::marker::Model;
use std::sync::Arc;

/// A page whose next record is being written. Observers may look at it between any two steps.
///
/// A contract sees which page it is, the records that were published, the one that is being
/// written, and how many of its words are stored.
#[derive(Drop)]
pub struct OpenPage {
    pub(crate) table: Arc<PageTable>,
    pub(crate) seat: PageSeat,
    pub(crate) place: u64,
    pub(crate) pending: Record,
    pub(crate) count: u8,
}

impl Model for OpenPage {
    ghost use Rattle.cal_signal.specs.Ends.{OpenView, IsOpen};
    ghost use Rattle.std.specs.Arc.{arc_value};

    ghost Value = { OpenView };

    ghost view = { λ p. record {
      page = p.seat.table_id;
      published = p.seat.me.0.published;
      pending = p.pending;
      stored = p.count;
    } };

    ghost invariant = { λ p. IsOpen p.seat (arc_value p.table).shared.table_id p.place p.pending
        p.count };
}

impl OpenPage {
    /// How many words are stored, 0 to `WORDS`.
    pub fn stored(&self) -> u8
        ensures { result ≡ self.now.stored }
    {
        self.count
    }

    /// Stores the next word, in the record's order. Asks that fewer than `WORDS` are stored. Waits
    /// for nobody.
    pub fn store_next(&mut self)
        requires { self.old.stored < WORDS }
        ensures { self.new ≡ record self.old { stored = self.old.stored + 1 } }
    {
        let index = self.count as usize;
        let word = self.pending.words()[index];
        self.table
            .shared
            .store::<WordStore>(&mut self.seat, index + 1, word);
        self.count += 1;
    }

    /// Stores the even version: the record is published. Asks that all words are stored. Waits for
    /// nobody.
    pub fn finish(self) -> Publisher
        requires { self.stored ≡ WORDS }
        ensures { result ≡ record {
          page = self.page;
          published = self.published ++ self.pending ∷ [];
        } }
    {
        let OpenPage {
            table,
            mut seat,
            place,
            pending,
            count: _,
        } = self;
        table
            .shared
            .store::<ClosingStore>(&mut seat, 0, place * 2 + 2);
        Publisher {
            table,
            seat,
            place: place + 1,
            last: pending,
        }
    }
}
