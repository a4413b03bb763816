//! Reading an input of limited length.

ghost use Rattle.std.specs.Prelude.{◌≤◌, ◌<◌, ℕ, List, length, IfOk, IfErr, IfSome, IsErrOf};
ghost use Rattle.std.specs.Io.KnownBytes.{Consumes, IsAtEnd};
ghost use Rattle.cal_input.specs.Input.{IsOfReading};

use crate::fault::RunFault;
use std::alloc::Global;
use std::io::Read;

/// The most bytes that an input may have.
pub const INPUT_LIMIT: usize = 67_108_864;

// How many bytes are asked of the reader at a time.
const CHUNK: usize = 16_384;

/// All the bytes that a reader gives, read to its end.
///
/// `RunFault::Read` comes where the reader answers an error, whichever it is, and never after more
/// than `INPUT_LIMIT` bytes. `RunFault::Length` comes after `INPUT_LIMIT` bytes and one more,
/// whatever the reader does, so a reader that never ends meets it. `RunFault::Memory` comes where
/// memory was refused.
pub fn read_input<R: Read>(alloc: Global, reader: &mut R) -> Result<Vec<u8>, RunFault>
    ensures short { IfOk result (λ text. length text.items ≤ INPUT_LIMIT) }
    ensures all { IfOk result (λ text. Consumes (R.remaining reader.old) (R.remaining reader.new)
        text.items) }
    ensures end { IfOk result (λ _. IsAtEnd (R.remaining reader.new)) }
    ensures long { IsErrOf result RunFault.Length → IfSome (R.remaining reader.old) (λ bytes.
        INPUT_LIMIT < length bytes) }
    // What was read before the reader failed is within the limit, and no more was taken from it.
    ensures failed { IsErrOf result RunFault.Read → (bytes : List ℕ) ×
        (length bytes ≤ INPUT_LIMIT) ×
        Consumes (R.remaining reader.old) (R.remaining reader.new) bytes }
    ensures kinds { IfErr result IsOfReading }
{
    let mut text = Vec::new(alloc);
    let mut chunk = [0u8; CHUNK];
    while text.len() <= INPUT_LIMIT {
        let room = (INPUT_LIMIT + 1 - text.len()).min(CHUNK);
        let count = match reader.read(&mut chunk[..room]) {
            Ok(count) => count,
            Err(_) => return Err(RunFault::Read),
        };
        if count == 0 {
            return Ok(text);
        }
        text.extend_from_slice(&chunk[..count])?;
    }
    Err(RunFault::Length)
}
