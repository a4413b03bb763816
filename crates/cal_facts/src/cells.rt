//! The cells of a row, and the clocks of passes.

ghost use Rattle.std.specs.Prelude.{◌≡◌, IfOk, map};
ghost use Rattle.cal_facts.specs.Cells.{clocks_of, task_in};

use cal_machine::Config;
use cal_policy::PassEntry;
use cal_trace::GivenPass;
use std::alloc::{AllocError, Global};
use std::fmt;

/// A cell with a number, or an empty one.
#[derive(Clone, Copy)]
pub(crate) struct Cell {
    pub(crate) number: Option<u64>,
}

impl fmt::Display for Cell {
    ghost use Rattle.std.specs.Prelude.{Some};
    ghost use Rattle.cal_facts.specs.Cells.{cell};

    ghost output = { λ c. Some (cell c.number) };

    fn fmt<W: fmt::Write>(&self, f: &mut fmt::Formatter<W>) -> fmt::Result {
        match self.number {
            Some(number) => write!(f, "{number}"),
            None => f.write_str(""),
        }
    }
}

/// The task of a thread, where the table has the thread.
pub(crate) fn task_in(config: &Config, thread: u8) -> Option<u64>
    ensures { result ≡ task_in config.now thread }
{
    if (thread as usize) < config.threads() {
        Some(config.task_of(thread as usize) as u64)
    } else {
        None
    }
}

/// The clock of each pass of a history. Fails only when out of memory.
pub(crate) fn clocks_of(alloc: Global, history: &[PassEntry]) -> Result<Vec<u64>, AllocError>
    ensures { IfOk result (λ clocks. clocks.items ≡ clocks_of history.now) }
{
    let mut clocks = Vec::new(alloc);
    for entry in history {
        clocks.push(entry.input.now)?;
    }
    Ok(clocks)
}

/// The clock of each pass that is given. Fails only when out of memory.
pub(crate) fn clocks_given(alloc: Global, passes: &[GivenPass]) -> Result<Vec<u64>, AllocError>
    ensures { IfOk result (λ clocks. clocks.items ≡ map (λ pass. pass.now) passes.now) }
{
    passes.iter().map(|pass| pass.now).collect(alloc)
}
