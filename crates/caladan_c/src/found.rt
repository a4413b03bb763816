//! What was found of a kernel thread, as C hands it in.

ghost use Rattle.std.specs.Prelude.{◌≡◌};
ghost use Rattle.caladan_c.specs.Found.{found_of};

use cal_policy::FoundLook;
use cal_signal::{Look, Record};

/// What the look at one thread's page found, and whether the thread's command ring had room.
#[repr(C)]
#[derive(Clone, Copy)]
pub struct Found {
    /// Not 0: no record was found, `number` and `second` are the two versions that were loaded.
    pub busy: u8,
    /// Not 0: the thread's command ring had room.
    pub room: u8,
    /// The place of the record; of a busy look the first version.
    pub number: u64,
    /// Of a busy look the second version.
    pub second: u64,
    /// The record. Not read of a busy look.
    pub rec: Record,
}

/// The same, as a pass takes it.
pub fn found_look(found: &Found) -> FoundLook
    ensures { result ≡ found_of found.now }
{
    let look = if found.busy != 0 {
        Look::Busy {
            first: found.number,
            second: found.second,
        }
    } else {
        Look::Whole {
            number: found.number,
            rec: found.rec,
        }
    };
    FoundLook {
        look,
        room: found.room != 0,
    }
}
