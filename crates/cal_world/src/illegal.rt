//! Why an event is refused.

ghost use Rattle.std.specs.Prelude.{◌≡◌};
ghost use Rattle.cal_world.specs.declared.illegal.Illegal.TheVariants.{Memory};

use std::alloc::AllocError;
use thiserror::Error;

/// Why an event may not come next; where several causes hold the least is answered. `why as u8` is
/// its number, 1 to 8.
#[derive(Clone, Copy, Debug, PartialEq, Eq, Error)]
pub enum Illegal {
    /// There is no thread of that number.
    #[error("there is no such thread")]
    NoThread = 1,
    /// A Take where every command that was sent is taken.
    #[error("every command that was sent is taken")]
    NothingSent = 2,
    /// A Yield off a core.
    #[error("the thread is on no core")]
    NotOn = 3,
    /// A Publish of a record that does not show the thread's state, or is not shaped, or not later
    /// than the last one.
    #[error("the record is not of the thread's state")]
    NotItsState = 4,
    /// A Read or a Watch of a place below the thread's floor for it, or not yet published.
    #[error("there is no such place to read")]
    NoSuchPlace = 5,
    /// Looks come one per thread, in thread order, and a Decide after all of them; a Skip of a
    /// whole look never.
    #[error("it is out of turn")]
    OutOfTurn = 6,
    /// A Decide whose entry is not the pass on those looks.
    #[error("it is not the pass")]
    NotThePass = 7,
    /// Memory was refused. It may come in place of any other answer.
    #[error("out of memory")]
    Memory = 8,
}

impl From<AllocError> for Illegal {
    ghost from_gives = { λ _ e. e ≡ Memory };

    fn from(_e: AllocError) -> Illegal {
        Illegal::Memory
    }
}
