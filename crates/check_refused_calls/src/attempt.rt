//! Tries of a call.

use std::alloc::{AllocError, AllocFailed};
use std::fmt::Debug;
use std::io;
use std::io::Write;

/// Why a call's answer is not written.
#[derive(Clone, Copy)]
pub enum Stop {
    /// The call was refused, and the line of its fault is written.
    Refused,
    /// The words or the input are not as they must be, or a call answered what it must not.
    Wrong,
}

impl From<io::Error> for Stop {
    fn from(_e: io::Error) -> Stop {
        Stop::Wrong
    }
}

impl From<AllocError> for Stop {
    fn from(_e: AllocError) -> Stop {
        Stop::Wrong
    }
}

impl<T: Drop> From<AllocFailed<T>> for Stop {
    fn from(_e: AllocFailed<T>) -> Stop {
        Stop::Wrong
    }
}

/// What comes of a call that may be refused.
pub type Tried<T> = Result<T, Stop>;

/// Marks the beginning of a try.
pub fn begin(rt: &HostRuntime) -> Tried<()> {
    rt.stderr().write_all(b"(")?;
    Ok(())
}

/// Marks the end of a try.
pub fn end(rt: &HostRuntime) -> Tried<()> {
    rt.stderr().write_all(b")")?;
    Ok(())
}

/// Marks the end of a try, and gives its answer. Where the call was refused, its fault is written.
pub fn answer<T: Drop, E: Debug + Drop>(rt: &HostRuntime, made: Result<T, E>) -> Tried<T> {
    end(rt)?;
    match made {
        Ok(answer) => Ok(answer),
        Err(fault) => {
            writeln!(&mut rt.stdout(), "refused: {fault:?}")?;
            Err(Stop::Refused)
        }
    }
}

/// Makes a call, and once more where it was refused.
pub fn twice<F: FnMut() -> Tried<()>>(mut call: F) -> Tried<()>
    requires { F.IsAlwaysCallable call }
{
    match call() {
        Err(Stop::Refused) => call().or(Err(Stop::Wrong)),
        made => made,
    }
}
