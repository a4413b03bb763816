//! What the rows of a file of passes have given so far, whatever its passes are.

ghost use Rattle.std.specs.Prelude.{◌≡◌, ℕ, [], List, IfOk, IfErr, option_map};
ghost use Rattle.csv.specs.Records.{fields_of};
ghost use Rattle.cal_trace.specs.Rows.Answers.{Takes};
ghost use Rattle.cal_trace.specs.Rows.Passes.{with_closed};
ghost use Rattle.cal_trace.specs.Rows.SoFar.{at_start, is_between, next_thread};
ghost use Rattle.cal_trace.specs.Rows.SoFar.{take_pass, take_end, so_far, IsCounted};
ghost use Rattle.cal_trace.specs.declared.fault.FaultKind.TheVariants as kind;
ghost use Rattle.cal_trace.specs.declared.arrivals.GivenPass.{GivenPass};

use crate::arrivals::GivenPass;
use crate::fault::FaultKind;
use crate::rows::look_rows::{end_row, pass_row};
use csv::ByteRecord;
use std::alloc::Global;

/// A pass whose rows are still being read.
pub(crate) trait PassAtHand: Sized + Drop {
    /// What it is once they have come.
    type Pass: Drop;

    // What it is as far as they have come.
    ghost pass: { Self → Self.Pass };

    // How many looks a pass has.
    ghost looks_in: { Self.Pass → ℕ };

    // What a pass is after its pass row.
    ghost begun: { GivenPass → Self.Pass };

    /// A pass with room for the looks of so many threads. Fails only when out of memory.
    fn begin(alloc: Global, threads: usize, row: GivenPass) -> Result<Self, FaultKind>
        ensures begun { IfOk result (λ hand. pass hand ≡ begun row) }
        ensures memory { IfErr result (λ k. k ≡ kind.Memory) };

    /// How many looks it has.
    fn looks(&self) -> usize
        ensures { result ≡ looks_in (pass self.now) };

    /// Ends it, and gives the pass that its rows so far have made.
    fn close(self) -> Self::Pass
        ensures { result ≡ pass self };
}

/// What the rows so far have given, except the passes that were given out.
#[derive(Drop)]
pub(crate) struct PassesSoFar<P> {
    alloc: Global,
    // How many passes so far, the one at hand included.
    passes: usize,
    /// The pass at hand.
    pub at_hand: Option<P>,
    /// Whether the end row came.
    pub ended: bool,
}

impl<P: PassAtHand> PassesSoFar<P> {
    /// Before the first row after the header.
    pub(crate) fn new(alloc: Global) -> PassesSoFar<P>
        ensures start { so_far P.pass [] result ≡ at_start }
        ensures counted { IsCounted P.pass [] result }
    {
        PassesSoFar {
            alloc,
            passes: 0,
            at_hand: None,
            ended: false,
        }
    }

    // Whether a pass row or the end row may come here.
    fn is_between(&self, threads: usize) -> bool
        ensures { result ≡ is_between P.looks_in threads (so_far P.pass [] self.now) }
    {
        match &self.at_hand {
            Some(pass) => !self.ended && pass.looks() == threads,
            None => !self.ended,
        }
    }

    /// The thread whose look comes next, where a look may come here.
    pub(crate) fn next_thread(&self, threads: usize) -> Result<usize, FaultKind>
        ensures { result ≡ next_thread P.looks_in threads (so_far P.pass [] self.now).at_hand }
    {
        match &self.at_hand {
            Some(pass) if pass.looks() < threads => Ok(pass.looks()),
            _ => Err(FaultKind::Order),
        }
    }

    // Hands out the pass at hand.
    fn close(&mut self) -> Option<P::Pass>
        ensures closed { result ≡ option_map P.pass self.old.at_hand }
        ensures left { self.new ≡ record self.old { at_hand = None } }
    {
        match self.at_hand.take() {
            Some(pass) => Some(pass.close()),
            None => None,
        }
    }

    /// Takes a pass row, and hands out the pass that it ends, if it ends one.
    pub(crate) fn take_pass(
        &mut self,
        row: &ByteRecord,
        threads: usize,
    ) -> Result<Option<P::Pass>, FaultKind>
        ensures takes { (given : List P.Pass) → IsCounted P.pass given self.old →
            Takes (λ closed. so_far P.pass (with_closed given closed) self.new) result
            (take_pass P.looks_in P.begun threads (so_far P.pass given self.old)
            (fields_of row.now)) }
        ensures counted { (given : List P.Pass) → IsCounted P.pass given self.old →
            IfOk result (λ closed. IsCounted P.pass (with_closed given closed) self.new) }
    {
        if !self.is_between(threads) {
            return Err(FaultKind::Order);
        }
        let row = pass_row(row, self.passes)?;
        let pass = P::begin(self.alloc, threads, row)?;
        let closed = self.close();
        self.at_hand = Some(pass);
        self.passes += 1;
        Ok(closed)
    }

    /// Takes the end row, and hands out the pass that it ends, if it ends one.
    pub(crate) fn take_end(
        &mut self,
        row: &ByteRecord,
        threads: usize,
    ) -> Result<Option<P::Pass>, FaultKind>
        ensures takes { (given : List P.Pass) → IsCounted P.pass given self.old →
            Takes (λ closed. so_far P.pass (with_closed given closed) self.new) result
            (take_end P.looks_in threads (so_far P.pass given self.old) (fields_of row.now)) }
        ensures counted { (given : List P.Pass) → IsCounted P.pass given self.old →
            IfOk result (λ closed. IsCounted P.pass (with_closed given closed) self.new) }
    {
        if !self.is_between(threads) {
            return Err(FaultKind::Order);
        }
        end_row(row, self.passes)?;
        self.ended = true;
        Ok(self.close())
    }
}
