//! Reading signals, row by row.

ghost use Rattle.std.specs.Prelude.{◌≡◌};
ghost use Rattle.std.specs.Option.{unwrap_or};
ghost use Rattle.cal_trace.specs.Signals.{form_of, shown_by};
ghost use Rattle.csv.specs.Records.{fields_of};

use crate::arrivals::GivenPass;
use crate::fault::FaultKind;
use crate::rows::fields::is_row;
use crate::rows::look_rows::{LookForm, look_row};
use crate::rows::passes::PassReading;
use crate::rows::so_far::{PassAtHand, PassesSoFar};
use crate::rows::version::Version;
use crate::signals::{SignalLooks, SignalPass};
use cal_policy::FoundLook;
use cal_signal::{Look, Shown, may_follow};
use csv::ByteRecord;
use std::alloc::Global;

/// What a row of a file of signals is, by its first field and its number of fields.
#[derive(Clone, Copy)]
pub(crate) enum Form {
    /// The header once more, which may not come here.
    Header,
    /// A pass begins.
    Pass,
    /// A look of the pass at hand.
    Look(LookForm),
    /// The file ends.
    End,
}

fn form_of(row: &ByteRecord, version: Version) -> Option<Form>
    ensures { result ≡ form_of version (fields_of row.now) }
{
    if is_row(row, b"pass".as_slice(), 3) {
        Some(Form::Pass)
    } else if is_row(row, b"whole".as_slice(), version.record_fields()) {
        Some(Form::Look(LookForm::Whole))
    } else if is_row(row, b"busy".as_slice(), 5) {
        Some(Form::Look(LookForm::Busy))
    } else if is_row(row, b"end".as_slice(), 2) {
        Some(Form::End)
    } else if is_row(row, b"caladan-signals".as_slice(), 2) {
        Some(Form::Header)
    } else {
        None
    }
}

/// What a thread that showed this last has shown after one more look: the same after one that
/// found no record.
fn shown_with(last: Shown, look: &Look) -> Shown
    ensures { result ≡ unwrap_or (shown_by look.now) last }
{
    match look {
        Look::Whole { number, rec } => Shown {
            number: *number,
            rec: *rec,
        },
        Look::Busy { .. } => last,
    }
}

/// A pass whose looks are still being read.
#[derive(Drop)]
struct OpenPass {
    now: u64,
    bandwidth: u64,
    looks: Vec<FoundLook>,
}

impl PassAtHand for OpenPass {
    ghost use Rattle.cal_trace.specs.Signals.{begun, looks_in};
    ghost use Rattle.cal_trace.specs.Signals.Reading.{pass_at_hand};

    type Pass = SignalPass;

    ghost pass = { pass_at_hand };

    ghost looks_in = { looks_in };

    ghost begun = { begun };

    fn begin(alloc: Global, threads: usize, row: GivenPass) -> Result<OpenPass, FaultKind> {
        let looks = Vec::with_capacity(alloc, threads)?;
        Ok(OpenPass {
            now: row.now,
            bandwidth: row.bandwidth,
            looks,
        })
    }

    fn looks(&self) -> usize {
        self.looks.len()
    }

    fn close(self) -> SignalPass {
        let OpenPass {
            now,
            bandwidth,
            looks,
        } = self;
        SignalPass {
            now,
            bandwidth,
            looks: SignalLooks::new(looks),
        }
    }
}

/// What the rows of signals so far have given, except the passes that were given out.
#[derive(Drop)]
pub(crate) struct SignalReading {
    version: Version,
    threads: usize,
    passes: PassesSoFar<OpenPass>,
    // What each thread showed last.
    shown: Vec<Shown>,
}

impl SignalReading {
    ghost use Rattle.std.specs.Prelude.{◌≡◌, [], List, OnOk, IfOk, IfErr, Some};
    ghost use Rattle.csv.specs.Records.{fields_of};
    ghost use Rattle.cal_trace.specs.Rows.Answers.{Takes};
    ghost use Rattle.cal_trace.specs.Rows.Passes.{with_closed};
    ghost use Rattle.cal_trace.specs.Rows.SoFar.{at_start, with_more, IsCounted};
    ghost use Rattle.cal_trace.specs.Signals.{take_form, with_look};
    ghost use Rattle.cal_trace.specs.Signals.Reading.{file_of, pass_at_hand, so_far};
    ghost use Rattle.cal_trace.specs.Signals.Reading.{HasPlaces, KeepsSignals};
    ghost use Rattle.cal_trace.specs.declared.fault.FaultKind.TheVariants as kind;
    ghost use Rattle.cal_trace.specs.declared.signals.reading.Form.TheVariants as form;
    ghost use Rattle.cal_trace.specs.declared.signals.SignalPass.{SignalPass};

    /// Before the first row after the header of a file for so many threads.
    pub(crate) fn new(
        alloc: Global,
        version: Version,
        threads: usize,
    ) -> Result<SignalReading, FaultKind>
        ensures start { IfOk result (λ reading. so_far [] reading ≡ at_start) }
        ensures kept { IfOk result (KeepsSignals []) }
        ensures places { IfOk result HasPlaces }
        ensures file { IfOk result (λ reading. file_of reading ≡ (threads, version)) }
        ensures memory { IfErr result (λ k. k ≡ kind.Memory) }
    {
        let shown = vec![in alloc; Shown::NOTHING; threads]?;
        Ok(SignalReading {
            version,
            threads,
            passes: PassesSoFar::new(alloc),
            shown,
        })
    }

    fn take_look(&mut self, row: &ByteRecord, look: LookForm) -> Result<(), FaultKind>
        requires { HasPlaces self.old }
        ensures takes { (given : List SignalPass) → KeepsSignals given self.old →
            Takes (λ _. so_far given self.new) result
            (take_form self.old.threads (so_far given self.old) (Some (form.Look look))
            (fields_of row.now)) }
        ensures kept { (given : List SignalPass) → KeepsSignals given self.old →
            OnOk result (KeepsSignals given self.new) }
        ensures places { OnOk result (HasPlaces self.new) }
        ensures file { file_of self.new ≡ file_of self.old }
    {
        let thread = self.passes.next_thread(self.threads)?;
        let found = look_row(row, look, thread)?;
        let last = self.shown[thread];
        let shown = shown_with(last, &found.look);
        if !may_follow(&last, &shown) {
            return Err(FaultKind::Backwards);
        }
        self.add_look(found)?;
        self.shown[thread] = shown;
        Ok(())
    }

    fn add_look(&mut self, look: FoundLook) -> Result<(), FaultKind>
        ensures added { (given : List SignalPass) →
            OnOk result
            (so_far given self.new ≡ with_more (with_look look) (so_far given self.old)) }
        ensures shown { self.new.shown ≡ self.old.shown }
        ensures counted { (given : List SignalPass) →
            IsCounted pass_at_hand given self.old.passes →
            OnOk result (IsCounted pass_at_hand given self.new.passes) }
        ensures file { file_of self.new ≡ file_of self.old }
        ensures memory { IfErr result (λ k. k ≡ kind.Memory) }
    {
        if let Some(pass) = &mut self.passes.at_hand {
            pass.looks.push(look)?;
        }
        Ok(())
    }

    // Takes one more row of this form.
    fn take_form(&mut self, row: &ByteRecord, form: Form) -> Result<Option<SignalPass>, FaultKind>
        requires { HasPlaces self.old }
        ensures takes { (given : List SignalPass) → KeepsSignals given self.old →
            Takes (λ closed. so_far (with_closed given closed) self.new) result
            (take_form self.old.threads (so_far given self.old) (Some form) (fields_of row.now)) }
        ensures kept { (given : List SignalPass) → KeepsSignals given self.old →
            IfOk result (λ closed. KeepsSignals (with_closed given closed) self.new) }
        ensures places { OnOk result (HasPlaces self.new) }
        ensures file { file_of self.new ≡ file_of self.old }
    {
        match form {
            Form::Header => Err(FaultKind::Order),
            Form::Pass => self.passes.take_pass(row, self.threads),
            Form::End => self.passes.take_end(row, self.threads),
            Form::Look(look) => {
                self.take_look(row, look)?;
                Ok(None)
            }
        }
    }
}

impl PassReading for SignalReading {
    ghost use Rattle.std.specs.Prelude.{ℕ};
    ghost use Rattle.cal_trace.specs.declared.signals.SignalPass.{SignalPass};
    ghost use Rattle.cal_trace.specs.Signals.{take_row};
    ghost use Rattle.cal_trace.specs.Signals.Reading.{file_of, so_far, HasPlaces};
    ghost use Rattle.cal_trace.specs.Signals.Reading.{KeepsFittingSignals};
    ghost use Rattle.cal_trace.specs.declared.rows.version.Version.{Version};

    type Pass = SignalPass;

    ghost so_far = { so_far };

    ghost File = { ℕ × Version };

    ghost file = { file_of };

    ghost take = { λ file. take_row file.0 file.1 };

    ghost IsReady = { HasPlaces };

    ghost KeepsPasses = { KeepsFittingSignals };

    fn take_row(&mut self, row: &ByteRecord) -> Result<Option<SignalPass>, FaultKind> {
        match form_of(row, self.version) {
            None => Err(FaultKind::Fields),
            Some(form) => self.take_form(row, form),
        }
    }

    fn has_ended(&self) -> bool {
        self.passes.ended
    }
}
