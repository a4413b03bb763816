//! What was judged of a look that was taken by itself, as C is told.

ghost use Rattle.std.specs.Prelude.{◌≡◌};
ghost use Rattle.caladan_c.specs.OneByOne.{look_fault_number, said_of};

use cal_policy::{Look, LookFault};

/// Why a look was refused, as a number: 3 ahead, 4 foreign, 5 no busy pair, 6 misshapen, 7 its
/// place fell, 8 changed at its place, 9 a word fell.
fn tell_fault(fault: LookFault) -> u8
    ensures { result ≡ look_fault_number fault }
{
    match fault {
        LookFault::Ahead => 3,
        LookFault::Foreign => 4,
        LookFault::NoPair => 5,
        LookFault::Misshapen => 6,
        LookFault::PlaceFell => 7,
        LookFault::Changed => 8,
        LookFault::WordFell => 9,
    }
}

/// What C is told of a look: 1 kept, 2 busy, else why it was refused.
pub fn tell_look(look: Look, fault: Option<LookFault>) -> u8
    ensures { result ≡ said_of fault look }
{
    match fault {
        Some(fault) => tell_fault(fault),
        None => match look {
            Look::Whole { .. } => 1,
            Look::Busy { .. } => 2,
        },
    }
}
