//! What caladan_sim and caladan_view do alike around their jobs: the words after the program's
//! name, what is said of words that ask for no job, and the end after a fault.

ghost use Rattle.std.specs.Prelude.{◌≡◌, ◌≢◌, ◌⊎◌, ◌↔◌, IfErr, IfOk, IsErrOf, drop, map};
ghost use Rattle.std.specs.Prelude.{string_bytes};
ghost use Rattle.clap.specs.Values.{kind_of};
ghost use Rattle.clap.specs.declared.error.kind.ErrorKind.TheVariants.{DisplayHelp, DisplayVersion};
ghost use Rattle.clap.specs.declared.error.kind.ErrorKind.TheVariants.{OutOfMemory};
ghost use Rattle.cal_input.specs.Faults.{status_of};

use cal_input::{RunFault, fault_line_as, status};
use clap::error::{Error, ErrorKind};
use std::alloc::{AllocError, Global};
use std::io::Write;

/// The words after the first one, which names the program.
pub fn words_after_first<'a>(alloc: Global, named: &'a [String]) -> Result<Vec<&'a str>, AllocError>
    ensures { IfOk result (λ given.
        map (λ word. word.now) given.items ≡ map string_bytes (drop 1 named.now)) }
{
    let mut given = Vec::new(alloc);
    if let Some((_, after)) = named.split_first() {
        for word in after {
            given.push(word.as_str())?;
        }
    }
    Ok(given)
}

/// Writes what `clap` says of the words, and answers the exit status: 0 for help and the version, 2
/// for bad arguments. The faults are `Memory`, where memory for the text was refused, and
/// `Write`.
pub fn refuse_words<W: Write, E: Write>(
    error: &Error,
    output: &mut W,
    errors: &mut E,
) -> Result<u8, RunFault>
    ensures status { IfOk result (λ status. (status ≡ 0) ⊎ (status ≡ 2)) }
    // Help and the version are answers, all else is a mistake.
    ensures mistake { IfOk result (λ status. (status ≡ 2)
        ↔ (kind_of error.now ≢ DisplayHelp) × (kind_of error.now ≢ DisplayVersion)) }
    // Each goes to its own writer alone.
    ensures apart { IfOk result (λ status. (status ≡ 0 → errors.new ≡ errors.old)
        × (status ≡ 2 → output.new ≡ output.old)) }
    ensures kind { IfErr result (λ fault. (fault ≡ RunFault.Memory) ⊎ (fault ≡ RunFault.Write)) }
    // Out of memory comes before anything is written.
    ensures memory { kind_of error.now ≡ OutOfMemory → IsErrOf result RunFault.Memory }
    ensures untouched { IfErr result (λ fault. fault ≢ RunFault.Write → output.new ≡ output.old) }
{
    if error.kind() == ErrorKind::OutOfMemory {
        return Err(RunFault::Memory);
    }
    let (written, status) = if error.use_stderr() {
        (write!(errors, "{error}"), 2)
    } else {
        (write!(output, "{error}"), 0)
    };
    match written {
        Ok(()) => Ok(status),
        Err(_) => Err(RunFault::Write),
    }
}

/// Writes the line that a program of this name says of a fault, and answers the exit status after
/// it. Where the writer answers an error the status is the same. Takes no memory.
pub fn end_with<E: Write>(program: &str, fault: &RunFault, errors: &mut E) -> u8
    ensures { result ≡ status_of fault.now }
{
    let _ = fault_line_as(program, fault, errors);
    status(fault)
}
