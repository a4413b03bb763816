//! What the program says where requests cannot be counted as words ask for it.

use crate::jobs::input::JobInput;
use crate::jobs::pacing::refuse_plan;
use cal_came::CountFault;
use cal_input::RunFault;
use cal_tables::AskedFault;
use cal_trace::{FaultKind, TraceFault};
use cal_why::place_of_field;
use std::alloc::Global;
use std::io::Write;

/// A file of when requests came.
#[derive(Clone, Copy)]
pub struct CameText<'a> {
    /// Its name.
    pub name: &'a str,
    /// Its bytes.
    pub text: &'a [u8],
}

/// Says why nothing is told of an input, and answers the exit status. What is no fault of a plan or of
/// a count is the error.
pub fn end_asked<E: Write>(
    input: &JobInput<'_>,
    fault: AskedFault,
    errors: &mut E,
) -> Result<u8, RunFault> {
    match fault {
        AskedFault::Run(fault) => Err(fault),
        AskedFault::Pace(fault) => Ok(refuse_plan(fault, errors)),
        AskedFault::Count(fault) => refuse_counting(input.alloc, input.came, fault, errors),
    }
}

/// Says why requests are not counted, and answers the exit status, 2. The fault is `Memory`.
pub fn refuse_counting<E: Write>(
    alloc: Global,
    came: Option<CameText<'_>>,
    fault: CountFault,
    errors: &mut E,
) -> Result<u8, RunFault> {
    match (fault, came) {
        (CountFault::Memory, _) => return Err(RunFault::Memory),
        (CountFault::Came(fault), Some(came)) => return refuse_comings(alloc, came, fault, errors),
        (fault, _) => {
            let _ = writeln!(errors, "caladan_view: {fault}");
        }
    }
    Ok(2)
}

/// Says which row of a file of comings is refused and what is wanted, and answers the exit status, 2.
fn refuse_comings<E: Write>(
    alloc: Global,
    came: CameText<'_>,
    fault: TraceFault,
    errors: &mut E,
) -> Result<u8, RunFault> {
    let place = place_of_field(alloc, came.text, fault.row, 0)?;
    let (name, place, wanted) = (came.name, place.as_str(), wanted_of(fault.kind));
    let _ = write!(
        errors,
        "caladan_view: {name}: {fault}\n{place}  wanted: {wanted}\n"
    );
    Ok(2)
}

/// What is wanted in place of a row of a file of comings.
fn wanted_of(kind: FaultKind) -> &'static str {
    match kind {
        FaultKind::Header => "the header id,turn",
        FaultKind::Order => {
            "a row for each request, in the order of the arrivals, \
             then one for each task of which some are left out"
        }
        FaultKind::Range => {
            "a turn not after the request's own, or a task of the table and at least 1"
        }
        _ => "<id>,<turn> or left out,<task>,<how many>",
    }
}
