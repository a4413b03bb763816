//! What an engine writes: the whole answer, after what stands before it.

ghost use Rattle.std.specs.Prelude.{◌≡◌, ◌++◌, IfErr, OnOk};
ghost use Rattle.std.specs.Io.KnownBytes.{Appends};
ghost use Rattle.cal_engine.specs.Front.{front_of};

use crate::jobs::front::{Front, write_front};
use cal_input::RunFault;
use std::io::Write;

/// Writes the whole answer. The fault is `Write`, if the writer returns an error; how much was
/// written is unspecified.
pub fn write_answer<W: Write>(answer: &[u8], writer: &mut W) -> Result<(), RunFault>
    ensures bytes { OnOk result (Appends (W.contents writer.old) (W.contents writer.new)
        answer.now) }
    ensures kind { IfErr result (λ fault. fault ≡ RunFault.Write) }
{
    match writer.write_all(answer) {
        Ok(()) => Ok(()),
        Err(_) => Err(RunFault::Write),
    }
}

/// Writes what stands before the answer to an input, and the whole answer. The fault is `Write`, if
/// the writer returns an error; how much was written is unspecified.
pub fn write_after_front<W: Write>(
    front: Front,
    input: &[u8],
    answer: &[u8],
    writer: &mut W,
) -> Result<(), RunFault>
    ensures bytes { OnOk result (Appends (W.contents writer.old) (W.contents writer.new)
        (front_of front input.now ++ answer.now)) }
    ensures kind { IfErr result (λ fault. fault ≡ RunFault.Write) }
{
    if write_front(front, input, writer).is_err() {
        return Err(RunFault::Write);
    }
    write_answer(answer, writer)
}
