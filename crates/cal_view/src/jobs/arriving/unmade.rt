//! Why no arrivals were made, and what is said of it.

use crate::edge::failure::Failure;
use crate::jobs::naming::refuse_other_count;
use crate::refusing::{end_refusal, refuse_word, table_alone};
use cal_input::RunFault;
use cal_load::{LoadFault, WordFault};
use cal_machine::ConfigFault;
use std::alloc::{AllocError, Global};
use std::io::Write;

/// Why no arrivals were made.
#[derive(Drop)]
pub enum Unmade<'a> {
    /// A word is refused.
    Word(WordFault<'a>),
    /// The input is refused, or memory.
    Run(RunFault),
    /// There are so many names, and so many tasks.
    Names(usize, usize),
    /// The log cannot be read.
    File(Failure<'a>),
    /// A row of the log is refused: the lines that say why.
    Row(String),
}

impl<'a> From<LoadFault<'a>> for Unmade<'a> {
    fn from(fault: LoadFault<'a>) -> Unmade<'a> {
        match fault {
            LoadFault::Word(fault) => Unmade::Word(fault),
            LoadFault::Memory => Unmade::Run(RunFault::Memory),
        }
    }
}

impl<'a> From<RunFault> for Unmade<'a> {
    fn from(fault: RunFault) -> Unmade<'a> {
        Unmade::Run(fault)
    }
}

impl<'a> From<ConfigFault> for Unmade<'a> {
    fn from(fault: ConfigFault) -> Unmade<'a> {
        Unmade::Run(RunFault::Config(fault))
    }
}

impl<'a> From<AllocError> for Unmade<'a> {
    fn from(_e: AllocError) -> Unmade<'a> {
        Unmade::Run(RunFault::Memory)
    }
}

impl Unmade<'_> {
    /// Says why, of this input, and answers the exit status. The fault is one that is no refusal of
    /// a part of the input.
    pub fn end<E: Write>(
        &self,
        alloc: Global,
        input: &[u8],
        errors: &mut E,
    ) -> Result<u8, RunFault> {
        match self {
            Unmade::Word(fault) => Ok(refuse_word(fault, errors)),
            Unmade::Run(fault) => end_refusal(alloc, table_alone(input), *fault, errors),
            Unmade::Names(names, tasks) => Ok(refuse_other_count(*names, *tasks, errors)),
            Unmade::File(failure) => Ok(failure.end(errors)),
            Unmade::Row(told) => {
                let _ = errors.write_all(told.as_bytes());
                Ok(2)
            }
        }
    }
}
