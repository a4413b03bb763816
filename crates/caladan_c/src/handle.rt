//! What C holds of a scheduler, a guard or an audit.

pub mod kept;
mod loose;
mod pointer;

ghost use Rattle.std.specs.Prelude.{◌≡◌, Option, Some, None};
ghost use Rattle.std.specs.Option.{is_some, option_map};

use crate::handle::kept::Kept;
use crate::handle::loose::Loose;
use crate::handle::pointer::Pointer;
use std::alloc::Global;
use std::mem;

/// What C holds: whether it is open, and where what it keeps lies.
#[repr(C)]
#[derive(Drop)]
pub struct Handle {
    live: bool,
    pub pointer: Pointer,
    ghost honest: { live ≡ is_some pointer.kept },
}

impl Handle {
    /// A handle that keeps nothing.
    pub fn closed(alloc: Global) -> Handle
        ensures { result.pointer.kept ≡ None }
    {
        Handle {
            live: false,
            pointer: Pointer::to_nothing(alloc),
        }
    }

    /// An open handle. It takes no memory.
    pub fn of(kept: Box<Kept>) -> Handle
        ensures { result.pointer.kept ≡ Some kept.value }
    {
        Handle {
            live: true,
            pointer: Pointer::of_loose(Loose::of(kept)),
        }
    }

    /// Whether it is open.
    pub fn is_open(&self) -> bool
        ensures { result ≡ is_some self.now.pointer.kept }
    {
        self.live
    }

    /// What it keeps, which it keeps no longer.
    pub fn take(&mut self, alloc: Global) -> Option<Box<Kept>>
        ensures taken { self.old.pointer.kept ≡ option_map (λ kept. kept.value) result }
        ensures closed { self.new.pointer.kept ≡ None }
    {
        let Handle { live, pointer } = mem::replace(self, Handle::closed(alloc));
        if live {
            Some(pointer.into_loose().into_box())
        } else {
            None
        }
    }
}
