//! The numbers of a run, or of a recorded history.

use crate::jobs::counting::end_asked;
use crate::jobs::input::JobInput;
use cal_input::RunFault;
use cal_policy::Verdict;
use cal_tables::{NumberForm, NumberStyle, measure};
use std::io::Write;

/// Writes the numbers of an input, and answers the exit status: of a history that is not legal
/// nothing is written but the line that names its first illegal pass.
pub fn answer_measure<W: Write, E: Write>(
    input: &JobInput<'_>,
    form: NumberForm,
    output: &mut W,
    errors: &mut E,
) -> Result<u8, RunFault> {
    let style = NumberStyle {
        labels: input.labels,
        form,
    };
    match measure(input.alloc, input.measured(), style, output) {
        Ok(Verdict::Legal) => Ok(0),
        Ok(Verdict::Illegal { pass }) => {
            let _ = writeln!(errors, "caladan_view: illegal pass {pass}");
            Ok(2)
        }
        Err(fault) => end_asked(input, fault, errors),
    }
}
