//! The words that a program was started with.

ghost use Rattle.std.specs.Prelude.{◌≡◌, IfErr};

use cal_input::RunFault;
use std::alloc::{AllocError, Global};
use std::env::{self, Args, Env};
use std::io;

/// The name of the program and the words after it, as they were given. Where one of them is not
/// text they are `name` and a replacement character, which is in no table. The fault is `Memory`.
pub fn given_words<R: Env + AllocGlobal>(rt: &R, name: &str) -> Result<Vec<String>, RunFault>
    ensures { IfErr result (λ fault. fault ≡ RunFault.Memory) }
{
    match env::args(rt) {
        Ok(args) => Ok(listed(rt.alloc(), args)?),
        Err(error) => {
            if error.kind() == io::ErrorKind::OutOfMemory {
                return Err(RunFault::Memory);
            }
            Ok(in_place_of_no_text(rt.alloc(), name)?)
        }
    }
}

/// All the words.
fn listed(alloc: Global, args: Args) -> Result<Vec<String>, AllocError> {
    let mut given = Vec::new(alloc);
    for word in args {
        given.push(word)?;
    }
    Ok(given)
}

/// The name and a replacement character.
fn in_place_of_no_text(alloc: Global, name: &str) -> Result<Vec<String>, AllocError> {
    let mut given = Vec::new(alloc);
    for word in [name, "\u{FFFD}"] {
        given.push(String::from_str(alloc, word)?)?;
    }
    Ok(given)
}
