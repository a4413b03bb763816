//! How many passes an input has.

ghost use Rattle.cal_input.specs.Answers.{IsWhatInputSays};
ghost use Rattle.cal_input.specs.Recorded.{recorded_run_of};
ghost use Rattle.cal_facts.specs.Counting.{passes_in};

use cal_input::{RunFault, recorded_passes};
use std::alloc::Global;

/// Reads the history of an input to its end, and answers how many passes it has; none is kept. The
/// faults come in this order: `Separator`, `Config`, `Trace`; `Memory` may come at any place.
pub fn count_passes(alloc: Global, input: &[u8]) -> Result<usize, RunFault>
    ensures { IsWhatInputSays (λ count. count) result (passes_in (recorded_run_of input.now)) }
{
    let (_config, mut history) = recorded_passes(alloc, input)?;
    let mut count = 0usize;
    while let Some(_entry) = history.next()? {
        count = count.saturating_add(1);
    }
    Ok(count)
}
