//! Reading a history, row by row.

ghost use Rattle.std.specs.Prelude.{◌≡◌};
ghost use Rattle.cal_trace.specs.History.{form_of, judged, look_form};
ghost use Rattle.csv.specs.Records.{fields_of};

use crate::arrivals::GivenPass;
use crate::fault::FaultKind;
use crate::history::action_rows::{ActionForm, Extent, action_form, action_row};
use crate::rows::fields::is_row;
use crate::rows::look_rows::{LookForm, look_row};
use crate::rows::passes::PassReading;
use crate::rows::so_far::{PassAtHand, PassesSoFar};
use crate::rows::version::Version;
use cal_policy::{
    Action, ActionList, FoundLook, Input, MOST_ACTIONS, PassEntry, Rooms, Seen, SeenList,
};
use cal_signal::Look;
use csv::ByteRecord;
use std::alloc::Global;

/// What a row of a history is, by its first field and its number of fields.
#[derive(Clone, Copy)]
pub(crate) enum Form {
    /// The header once more, which may not come here.
    Header,
    /// A pass begins.
    Pass,
    /// A look of the pass at hand.
    Look(LookForm),
    /// An action of the pass at hand.
    Act(ActionForm),
    /// The file ends.
    End,
}

fn look_form(row: &ByteRecord, version: Version) -> Option<LookForm>
    ensures { result ≡ look_form version (fields_of row.now) }
{
    if is_row(row, b"whole".as_slice(), version.record_fields()) {
        Some(LookForm::Whole)
    } else if is_row(row, b"busy".as_slice(), 5) {
        Some(LookForm::Busy)
    } else if is_row(row, b"ahead".as_slice(), version.record_fields()) {
        Some(LookForm::Ahead)
    } else if is_row(row, b"foreign".as_slice(), version.record_fields()) {
        Some(LookForm::Foreign)
    } else {
        None
    }
}

fn form_of(row: &ByteRecord, version: Version) -> Option<Form>
    ensures { result ≡ form_of version (fields_of row.now) }
{
    if is_row(row, b"pass".as_slice(), 3) {
        return Some(Form::Pass);
    }
    if is_row(row, b"end".as_slice(), 2) {
        return Some(Form::End);
    }
    if is_row(row, b"caladan-history".as_slice(), 2) {
        return Some(Form::Header);
    }
    match look_form(row, version) {
        Some(form) => Some(Form::Look(form)),
        None => match action_form(row) {
            Some(form) => Some(Form::Act(form)),
            None => None,
        },
    }
}

/// The look of a row of this form, as it was judged.
fn judged(form: LookForm, look: Look) -> Seen
    ensures { result ≡ judged form look }
{
    match look {
        Look::Busy { first, second } => Seen::Busy { first, second },
        Look::Whole { number, rec } => match form {
            LookForm::Ahead => Seen::Ahead { number, rec },
            LookForm::Foreign => Seen::Foreign { number, rec },
            LookForm::Whole | LookForm::Busy => Seen::Whole { number, rec },
        },
    }
}

/// A pass whose looks and actions are still being read.
#[derive(Drop)]
struct OpenEntry {
    now: u64,
    bandwidth: u64,
    seen: Vec<Seen>,
    rooms: Vec<bool>,
    actions: Vec<Action>,
}

impl OpenEntry {
    ghost use Rattle.std.specs.Prelude.{◌≡◌, nat_lt, length, Ok, OnOk, IfErr};
    ghost use Rattle.cal_trace.specs.History.{with_action, with_look};
    ghost use Rattle.cal_trace.specs.History.Reading.{entry_at_hand};
    ghost use Rattle.cal_trace.specs.Rows.Answers.{Takes};
    ghost use Rattle.cal_trace.specs.Rows.LookRows.{check};
    ghost use Rattle.cal_trace.specs.declared.fault.FaultKind.TheVariants as kind;

    // One more look of a row of this form. Fails only when out of memory.
    fn add_look(&mut self, form: LookForm, found: FoundLook) -> Result<(), FaultKind>
        ensures added { OnOk result
            (entry_at_hand self.new ≡ with_look form found (entry_at_hand self.old)) }
        ensures memory { IfErr result (λ k. k ≡ kind.Memory) }
    {
        self.seen.push(judged(form, found.look))?;
        self.rooms.push(found.room)?;
        Ok(())
    }

    // One more action, where the pass has not too many.
    fn add_action(&mut self, action: Action) -> Result<(), FaultKind>
        ensures { Takes (λ _. entry_at_hand self.new) result
            (check (nat_lt (length (entry_at_hand self.old).actions) MOST_ACTIONS) kind.Range
            (Ok (with_action action (entry_at_hand self.old)))) }
    {
        if self.actions.len() >= MOST_ACTIONS {
            return Err(FaultKind::Range);
        }
        self.actions.push(action)?;
        Ok(())
    }
}

impl PassAtHand for OpenEntry {
    ghost use Rattle.cal_trace.specs.History.{begun, looks_in};
    ghost use Rattle.cal_trace.specs.History.Reading.{entry_at_hand};

    type Pass = PassEntry;

    ghost pass = { entry_at_hand };

    ghost looks_in = { looks_in };

    ghost begun = { begun };

    fn begin(alloc: Global, threads: usize, row: GivenPass) -> Result<OpenEntry, FaultKind> {
        let seen = Vec::with_capacity(alloc, threads)?;
        let rooms = Vec::with_capacity(alloc, threads)?;
        Ok(OpenEntry {
            now: row.now,
            bandwidth: row.bandwidth,
            seen,
            rooms,
            actions: Vec::new(alloc),
        })
    }

    fn looks(&self) -> usize {
        self.seen.len()
    }

    fn close(self) -> PassEntry {
        let OpenEntry {
            now,
            bandwidth,
            seen,
            rooms,
            actions,
        } = self;
        PassEntry {
            input: Input {
                now,
                bandwidth,
                seen: SeenList::new(seen),
                rooms: Rooms::new(rooms),
            },
            actions: ActionList::new(actions),
        }
    }
}

/// What the rows of a history so far have given, except the passes that were given out.
#[derive(Drop)]
pub(crate) struct HistoryReading {
    version: Version,
    extent: Extent,
    passes: PassesSoFar<OpenEntry>,
}

impl HistoryReading {
    ghost use Rattle.std.specs.Prelude.{◌≡◌, [], List, OnOk, Some};
    ghost use Rattle.csv.specs.Records.{fields_of};
    ghost use Rattle.cal_policy.specs.declared.history.entry.PassEntry.{PassEntry};
    ghost use Rattle.cal_trace.specs.Rows.Answers.{Takes};
    ghost use Rattle.cal_trace.specs.Rows.SoFar.{at_start};
    ghost use Rattle.cal_trace.specs.History.{take_form};
    ghost use Rattle.cal_trace.specs.History.Reading.{file_of, so_far, KeepsHistory};
    ghost use Rattle.cal_trace.specs.declared.history.reading.Form.TheVariants as form;

    /// Before the first row after the header of a file for a table of this extent.
    pub(crate) fn new(alloc: Global, version: Version, extent: Extent) -> HistoryReading
        ensures start { so_far [] result ≡ at_start }
        ensures kept { KeepsHistory [] result }
        ensures file { file_of result ≡ (extent, version) }
    {
        HistoryReading {
            version,
            extent,
            passes: PassesSoFar::new(alloc),
        }
    }

    fn take_look(&mut self, row: &ByteRecord, look: LookForm) -> Result<(), FaultKind>
        ensures takes { (given : List PassEntry) →
            Takes (λ _. so_far given self.new) result
            (take_form self.old.extent (so_far given self.old) (Some (form.Look look))
            (fields_of row.now)) }
        ensures kept { (given : List PassEntry) → KeepsHistory given self.old →
            OnOk result (KeepsHistory given self.new) }
        ensures file { file_of self.new ≡ file_of self.old }
    {
        let thread = self.passes.next_thread(self.extent.threads as usize)?;
        let found = look_row(row, look, thread)?;
        match &mut self.passes.at_hand {
            Some(entry) => entry.add_look(look, found),
            None => Ok(()),
        }
    }

    fn take_action(&mut self, row: &ByteRecord, action: ActionForm) -> Result<(), FaultKind>
        ensures takes { (given : List PassEntry) →
            Takes (λ _. so_far given self.new) result
            (take_form self.old.extent (so_far given self.old) (Some (form.Act action))
            (fields_of row.now)) }
        ensures kept { (given : List PassEntry) → KeepsHistory given self.old →
            OnOk result (KeepsHistory given self.new) }
        ensures file { file_of self.new ≡ file_of self.old }
    {
        match &mut self.passes.at_hand {
            Some(entry) if entry.seen.len() == self.extent.threads as usize => {
                entry.add_action(action_row(row, action, self.extent)?)
            }
            _ => Err(FaultKind::Order),
        }
    }
}

impl PassReading for HistoryReading {
    ghost use Rattle.std.specs.Prelude.{⊤};
    ghost use Rattle.cal_policy.specs.declared.history.entry.PassEntry.{PassEntry};
    ghost use Rattle.cal_trace.specs.History.{take_row};
    ghost use Rattle.cal_trace.specs.History.Reading.{file_of, so_far, KeepsHistory};
    ghost use Rattle.cal_trace.specs.declared.history.action_rows.Extent.{Extent};
    ghost use Rattle.cal_trace.specs.declared.rows.version.Version.{Version};

    type Pass = PassEntry;

    ghost so_far = { so_far };

    ghost File = { Extent × Version };

    ghost file = { file_of };

    ghost take = { λ file. take_row file.0 file.1 };

    // Rows can be taken in each state.
    ghost IsReady = { λ reading. ⊤ };

    ghost KeepsPasses = { KeepsHistory };

    fn take_row(&mut self, row: &ByteRecord) -> Result<Option<PassEntry>, FaultKind> {
        match form_of(row, self.version) {
            None => Err(FaultKind::Fields),
            Some(Form::Header) => Err(FaultKind::Order),
            Some(Form::Pass) => self.passes.take_pass(row, self.extent.threads as usize),
            Some(Form::End) => self.passes.take_end(row, self.extent.threads as usize),
            Some(Form::Look(look)) => {
                self.take_look(row, look)?;
                Ok(None)
            }
            Some(Form::Act(action)) => {
                self.take_action(row, action)?;
                Ok(None)
            }
        }
    }

    fn has_ended(&self) -> bool {
        self.passes.ended
    }
}
