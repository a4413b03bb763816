//! The end of a page that publishes.
ghost use Rattle.std.specs.Prelude.{◌≡◌, ◌+◌, ◌++◌, [], ◌∷◌, length};
ghost use Rattle.std.specs.Prelude.{Err, IfOk, OnErr, MatchResult};
ghost use Rattle.cal_signal.specs.declared.fault.PublishFault.TheVariants.{Backwards, BadShape};
ghost use Rattle.cal_signal.specs.declared.fault.PublishFault.TheVariants.{Exhausted};
ghost use Rattle.cal_signal.specs.declared.publisher.TheConstants.{LAST_PLACE};
ghost use Rattle.cal_signal.specs.Pages.{last_published};
ghost use Rattle.cal_signal.specs.Records.{IsLater, IsShaped};
ghost use Rattle.cal_signal.specs.Faults.{MayPublish, IsRefusal};

use crate::fault::PublishFault;
use crate::publication::OpenPage;
use crate::record::{Record, later, shaped};
use crate::rule::{ClosingStore, OpenStore, PageSeat, PageTable};
use crate::words::store_words;
use std::marker::Model;
use std::sync::Arc;

/// The greatest place on a page: a page carries no more records, so no version wraps.
pub const LAST_PLACE: u64 = (1 << 62) - 1;

/// The end of a page that publishes. A page has one, which may be moved to a thread of its own.
///
/// A contract sees which page it is and the records that were published.
#[derive(Drop)]
pub struct Publisher {
    pub(crate) table: Arc<PageTable>,
    pub(crate) seat: PageSeat,
    pub(crate) place: u64,
    pub(crate) last: Record,
}

impl Model for Publisher {
    ghost use Rattle.cal_signal.specs.Ends.{PublisherView, publisher_view, IsPublisher};
    ghost use Rattle.std.specs.Arc.{arc_value};

    ghost Value = { PublisherView };

    ghost view = { λ p. publisher_view p.seat };

    ghost invariant = { λ p. IsPublisher p.seat (arc_value p.table).shared.table_id p.place
        p.last };
}

impl Publisher {
    /// The last place and the record there: place 0 and the zero record before the first
    /// publication.
    pub fn last(&self) -> (u64, Record)
        ensures place { result.0 ≡ length self.now.published }
        ensures last { result.1 ≡ last_published self.now.published }
    {
        (self.place, self.last)
    }

    /// The refusal of a record, the first that stands.
    fn check(&self, rec: &Record) -> Result<(), PublishFault>
        ensures { MatchResult result
            (λ _. MayPublish self.now.published rec.now)
            (λ fault. IsRefusal self.now.published rec.now fault) }
    {
        if !later(&self.last, rec) {
            return Err(PublishFault::Backwards);
        }
        if !shaped(rec) {
            return Err(PublishFault::BadShape);
        }
        if self.place == LAST_PLACE {
            return Err(PublishFault::Exhausted);
        }
        Ok(())
    }

    /// Publishes a record, and answers its place, which is one above the last. Waits for nobody.
    ///
    /// A refused record leaves the page unchanged: `Backwards` where it is not later than the last
    /// record, else `BadShape` where it is not shaped, else `Exhausted` where the last place is
    /// `LAST_PLACE`.
    pub fn publish(&mut self, rec: Record) -> Result<u64, PublishFault>
        ensures page { self.new.page ≡ self.old.page }
        ensures published { IfOk result (λ place. MayPublish self.old.published rec
            × (place ≡ length self.old.published + 1)
            × (self.new.published ≡ self.old.published ++ rec ∷ [])) }

        // A record that is not later is reported as such, even if it is not shaped either.
        ensures backwards { result ≡ Err Backwards →
            ¬ IsLater (last_published self.old.published) rec }
        ensures bad_shape { result ≡ Err BadShape →
            IsLater (last_published self.old.published) rec × (¬ IsShaped rec) }
        ensures exhausted { result ≡ Err Exhausted →
            IsLater (last_published self.old.published) rec × IsShaped rec
            × (length self.old.published ≡ LAST_PLACE) }
        ensures refused { OnErr result (self.new ≡ self.old) }
    {
        self.check(&rec)?;
        Ok(self.put(rec))
    }

    /// Publishes a record of which it is known that it may be published, as `publish` does, and
    /// answers its place. Asks that it is later than the last record and shaped, and that a place is
    /// left. Waits for nobody.
    pub fn put(&mut self, rec: Record) -> u64
        requires may { MayPublish self.old.published rec }
        ensures page { self.new.page ≡ self.old.page }
        ensures place { result ≡ length self.old.published + 1 }
        ensures published { self.new.published ≡ self.old.published ++ rec ∷ [] }
    {
        let version = self.place * 2;
        self.table
            .shared
            .store::<OpenStore>(&mut self.seat, 0, version + 1);
        store_words(&self.table, &mut self.seat, rec.words(), self.last.words());
        self.table
            .shared
            .store::<ClosingStore>(&mut self.seat, 0, version + 2);
        self.place += 1;
        self.last = rec;
        self.place
    }

    /// Begins to publish a record in steps: stores the odd version. Waits for nobody.
    ///
    /// A refused record hands the publisher back unchanged, with the refusal that `publish` gives.
    pub fn begin(self, rec: Record) -> Result<OpenPage, (PublishFault, Publisher)>
        ensures { MatchResult result
            (λ begun. MayPublish self.published rec
            × (begun ≡ record {
              page = self.page;
              published = self.published;
              pending = rec;
              stored = 0;
            }))
            (λ refused. IsRefusal self.published rec refused.0 × (refused.1 ≡ self)) }
    {
        if let Err(fault) = self.check(&rec) {
            return Err((fault, self));
        }
        let Publisher {
            table,
            mut seat,
            place,
            last: _,
        } = self;
        table.shared.store::<OpenStore>(&mut seat, 0, place * 2 + 1);
        Ok(OpenPage {
            table,
            seat,
            place,
            pending: rec,
            count: 0,
        })
    }
}
