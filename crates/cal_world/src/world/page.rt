//! The page of a kernel thread, as a list.

ghost use Rattle.std.specs.Prelude.{◌≡◌, ◌<◌, ◌++◌, ◌∷◌, [], IfOk, OnOk};
ghost use Rattle.std.specs.Prelude.{OnErr, length, slice_index_or, List};
ghost use Rattle.cal_signal.specs.declared.record.Record.{Record};
ghost use Rattle.cal_signal.specs.Records.{zero_record};
ghost use Rattle.cal_signal.specs.Pages.{page_of, last_published};

use cal_policy::Record;
use std::alloc::{AllocError, Global};
use std::marker::Model;

/// The zero record, at place 0, and the records that a kernel thread published, in order.
#[derive(Drop)]
pub(crate) struct Page {
    records: Vec<Record>,
}

impl Model for Page {
    ghost use Rattle.std.specs.Prelude.{◌<◌, List, length};
    ghost use Rattle.cal_signal.specs.declared.record.Record.{Record};

    ghost Value = { List Record };

    ghost view = { λ page. page.records.items };

    ghost invariant = { λ page. 0 < length page.records.items };
}

impl Page {
    /// The page on which nothing was published. Fails only when out of memory.
    pub fn open(alloc: Global) -> Result<Page, AllocError>
        ensures { IfOk result (λ page. page ≡ page_of []) }
    {
        let mut records = Vec::new(alloc);
        records.push(Record::ZERO)?;
        Ok(Page { records })
    }

    /// How many places there are.
    pub fn places(&self) -> usize
        ensures { result ≡ length self.now }
    {
        self.records.len()
    }

    /// The record at a place; past the last place the zero record.
    pub fn record(&self, place: u64) -> Record
        ensures { result ≡ slice_index_or self.now place zero_record }
    {
        if place < self.records.len() as u64 {
            self.records[place as usize]
        } else {
            Record::ZERO
        }
    }

    /// The record at the last place.
    pub fn last(&self) -> Record
        ensures { (published : List Record) →
            self.now ≡ page_of published → result ≡ last_published published }
    {
        self.records[self.records.len() - 1]
    }

    /// Puts a record at the next place. Fails only when out of memory; then nothing has changed.
    pub fn publish(&mut self, rec: Record) -> Result<(), AllocError>
        ensures ok { OnOk result (self.new ≡ self.old ++ rec ∷ []) }
        ensures err { OnErr result (self.new ≡ self.old) }
    {
        self.records.push(rec)?;
        Ok(())
    }
}
