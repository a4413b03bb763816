//! Why a run has no answer, and the line that the program says of it.

use cal_engine::end_with;
use cal_input::{RunFault, status};
use std::alloc::{AllocError, AllocFailed};
use std::io;
use std::io::{ErrorKind, Write};

/// Why a run has no answer.
#[derive(Clone, Copy, Drop)]
pub struct Failure<'a> {
    /// The fault, of which the exit status is.
    pub fault: RunFault,
    /// The file that it is of.
    pub file: Option<&'a str>,
    /// What the system said.
    pub said: Option<io::Error>,
}

impl Failure<'_> {
    /// That this file cannot be read, or written.
    pub fn of_file(fault: RunFault, file: &str, said: io::Error) -> Failure<'_> {
        Failure {
            fault,
            file: Some(file),
            said: Some(said),
        }
    }

    /// Writes the line that the program says of it, and answers the exit status after it. Where the
    /// reader of the answer has gone it writes none. It takes no memory.
    pub fn end<E: Write>(&self, errors: &mut E) -> u8 {
        if self.is_reader_gone() {
            return status(&self.fault);
        }
        let fault = self.fault;
        let _ = match (self.file, self.said) {
            (Some(file), Some(said)) => writeln!(errors, "caladan_view: {file}: {said}"),
            (Some(file), None) => writeln!(errors, "caladan_view: {file}: {fault}"),
            (None, Some(said)) => writeln!(errors, "caladan_view: {fault}: {said}"),
            (None, None) => return end_with("caladan_view", &fault, errors),
        };
        status(&fault)
    }

    /// Whether whoever was to read the answer has gone.
    fn is_reader_gone(&self) -> bool {
        match self.said {
            Some(said) => self.fault == RunFault::Write && said.kind() == ErrorKind::BrokenPipe,
            None => false,
        }
    }
}

impl<'a> From<RunFault> for Failure<'a> {
    fn from(fault: RunFault) -> Failure<'a> {
        Failure {
            fault,
            file: None,
            said: None,
        }
    }
}

impl<'a> From<AllocError> for Failure<'a> {
    fn from(_e: AllocError) -> Failure<'a> {
        Failure::from(RunFault::Memory)
    }
}

impl<'a, T: Drop> From<AllocFailed<T>> for Failure<'a> {
    fn from(_e: AllocFailed<T>) -> Failure<'a> {
        Failure::from(RunFault::Memory)
    }
}
