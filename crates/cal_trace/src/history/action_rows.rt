//! The action rows of a history.

ghost use Rattle.std.specs.Prelude.{◌≡◌, ◌&&◌, nat_le};
ghost use Rattle.cal_trace.specs.History.ActionRows.{action_form, action_row, core_row, ban_row};
ghost use Rattle.cal_trace.specs.History.ActionRows.{revoke_row, cap_row, grant_row};
ghost use Rattle.cal_trace.specs.History.ActionRows.{is_revocation, later_action_form};
ghost use Rattle.cal_trace.specs.History.ActionRows.{revoke_for_bandwidth_row};
ghost use Rattle.cal_trace.specs.Rows.RowFields.{is_word};
ghost use Rattle.csv.specs.Records.{field_at, fields_of};

use crate::fault::FaultKind;
use crate::rows::fields::{has_numbers, is_number_at, is_row, is_word_at, number_at};
use cal_machine::MOST_LIMIT;
use cal_policy::{Action, Cause, CoreClass};
use csv::ByteRecord;

/// What an action row is, by its first field, its cause and its number of fields.
#[derive(Clone, Copy)]
pub(crate) enum ActionForm {
    /// `free,core`
    Free,
    /// `unban,core`
    Unban,
    /// `ban,core,thread,started`
    Ban,
    /// `revoke,core,ban,by`
    RevokeForBan,
    /// `revoke,core,bandwidth`
    RevokeForBandwidth,
    /// `revoke,core,preempt,task`
    RevokeForTask,
    /// `cap,task,cap`
    Cap,
    /// `grant,core,thread,class`
    Grant,
}

/// How many cores, threads and tasks a table has: what a row names is below.
#[derive(Clone, Copy)]
pub(crate) struct Extent {
    /// How many cores, 2 to `MOST_CORES`.
    pub cores: u8,
    /// How many kernel threads, 1 to `MOST_THREADS`.
    pub threads: u8,
    /// How many tasks, 1 to 16.
    pub tasks: u8,
}

/// The form of an action row, where it has one.
pub(crate) fn action_form(row: &ByteRecord) -> Option<ActionForm>
    ensures { result ≡ action_form (fields_of row.now) }
{
    if is_row(row, b"free".as_slice(), 2) {
        Some(ActionForm::Free)
    } else if is_row(row, b"unban".as_slice(), 2) {
        Some(ActionForm::Unban)
    } else if is_row(row, b"ban".as_slice(), 4) {
        Some(ActionForm::Ban)
    } else {
        later_action_form(row)
    }
}

/// The form of a revocation, a cap or a grant.
fn later_action_form(row: &ByteRecord) -> Option<ActionForm>
    ensures { result ≡ later_action_form (fields_of row.now) }
{
    if is_revocation(row, 4, b"ban".as_slice()) {
        Some(ActionForm::RevokeForBan)
    } else if is_revocation(row, 3, b"bandwidth".as_slice()) {
        Some(ActionForm::RevokeForBandwidth)
    } else if is_revocation(row, 4, b"preempt".as_slice()) {
        Some(ActionForm::RevokeForTask)
    } else if is_row(row, b"cap".as_slice(), 3) {
        Some(ActionForm::Cap)
    } else if is_row(row, b"grant".as_slice(), 4) {
        Some(ActionForm::Grant)
    } else {
        None
    }
}

/// Whether a row is a revocation for this cause, with so many fields.
fn is_revocation(row: &ByteRecord, count: usize, cause: &[u8]) -> bool
    ensures { result ≡ is_revocation count (fields_of row.now)
        (is_word (field_at (fields_of row.now) 2) cause.now) }
{
    is_row(row, b"revoke".as_slice(), count) && is_word_at(row, 2, cause)
}

/// Reads an action row of this form. `Number` where a field is none, then `Range` where it names
/// what the table has not, a class that is not 1 to 5 or a cap above 16.
pub(crate) fn action_row(
    row: &ByteRecord,
    form: ActionForm,
    extent: Extent,
) -> Result<Action, FaultKind>
    ensures { result ≡ action_row form extent (fields_of row.now) }
{
    match form {
        ActionForm::Free => Ok(Action::Free {
            core: core_row(row, extent)?,
        }),
        ActionForm::Unban => Ok(Action::Unban {
            core: core_row(row, extent)?,
        }),
        ActionForm::Ban => ban_row(row, extent),
        ActionForm::RevokeForBan => {
            let (core, by) = revoke_row(row, extent, extent.cores)?;
            Ok(Action::Revoke {
                core,
                cause: Cause::Ban { by },
            })
        }
        ActionForm::RevokeForBandwidth => revoke_for_bandwidth_row(row, extent),
        ActionForm::RevokeForTask => {
            let (core, task) = revoke_row(row, extent, extent.tasks)?;
            Ok(Action::Revoke {
                core,
                cause: Cause::Preempt { task },
            })
        }
        ActionForm::Cap => cap_row(row, extent),
        ActionForm::Grant => grant_row(row, extent),
    }
}

fn core_row(row: &ByteRecord, extent: Extent) -> Result<u8, FaultKind>
    ensures { result ≡ core_row extent (fields_of row.now) }
{
    if !has_numbers(row) {
        return Err(FaultKind::Number);
    }
    let core = number_at(row, 1);
    if core >= extent.cores as u64 {
        return Err(FaultKind::Range);
    }
    Ok(core as u8)
}

fn ban_row(row: &ByteRecord, extent: Extent) -> Result<Action, FaultKind>
    ensures { result ≡ ban_row extent (fields_of row.now) }
{
    if !has_numbers(row) {
        return Err(FaultKind::Number);
    }
    let core = number_at(row, 1);
    let thread = number_at(row, 2);
    if core >= extent.cores as u64 || thread >= extent.threads as u64 {
        return Err(FaultKind::Range);
    }
    Ok(Action::Ban {
        core: core as u8,
        thread: thread as u8,
        started: number_at(row, 3),
    })
}

/// The core and what the cause names, which is below this number.
fn revoke_row(row: &ByteRecord, extent: Extent, below: u8) -> Result<(u8, u8), FaultKind>
    ensures { result ≡ revoke_row extent below (fields_of row.now) }
{
    if !is_number_at(row, 1) || !is_number_at(row, 3) {
        return Err(FaultKind::Number);
    }
    let core = number_at(row, 1);
    let named = number_at(row, 3);
    if core >= extent.cores as u64 || named >= below as u64 {
        return Err(FaultKind::Range);
    }
    Ok((core as u8, named as u8))
}

fn revoke_for_bandwidth_row(row: &ByteRecord, extent: Extent) -> Result<Action, FaultKind>
    ensures { result ≡ revoke_for_bandwidth_row extent (fields_of row.now) }
{
    if !is_number_at(row, 1) {
        return Err(FaultKind::Number);
    }
    let core = number_at(row, 1);
    if core >= extent.cores as u64 {
        return Err(FaultKind::Range);
    }
    Ok(Action::Revoke {
        core: core as u8,
        cause: Cause::Bandwidth,
    })
}

fn cap_row(row: &ByteRecord, extent: Extent) -> Result<Action, FaultKind>
    ensures { result ≡ cap_row extent (fields_of row.now) }
{
    if !has_numbers(row) {
        return Err(FaultKind::Number);
    }
    let task = number_at(row, 1);
    let cap = number_at(row, 2);
    if task >= extent.tasks as u64 || cap > MOST_LIMIT as u64 {
        return Err(FaultKind::Range);
    }
    Ok(Action::Cap {
        task: task as u8,
        cap: cap as u8,
    })
}

/// Whether a class has this number.
fn is_class(number: u64) -> bool
    ensures { result ≡ (nat_le 1 number && nat_le number 5) }
{
    CoreClass::from_number(number).is_some()
}

fn grant_row(row: &ByteRecord, extent: Extent) -> Result<Action, FaultKind>
    ensures { result ≡ grant_row extent (fields_of row.now) }
{
    if !has_numbers(row) {
        return Err(FaultKind::Number);
    }
    let core = number_at(row, 1);
    let thread = number_at(row, 2);
    let class = number_at(row, 3);
    if core >= extent.cores as u64 || thread >= extent.threads as u64 || !is_class(class) {
        return Err(FaultKind::Range);
    }
    Ok(Action::Grant {
        core: core as u8,
        thread: thread as u8,
        class: class as u8,
    })
}
