//! A pointer that C carries, and that may own what it points to.

ghost use Rattle.std.specs.Prelude.{◌≡◌, true, Option, Some, None};
ghost use Rattle.std.specs.Coded.{coded_option};
ghost use Rattle.std.specs.Option.{is_some};
ghost use Rattle.caladan_c.specs.declared.handle.kept.Kept.{Kept};
ghost use Rattle.caladan_c.specs.Handles.{pointer_owns};
ghost use Rattle.caladan_c.specs.contracts.handle.kept.Kept.{the_row as kept_row};

use super::kept::Kept;
use super::loose::Loose;
use std::alloc::Global;
use std::marker::Model;

/// A pointer to nothing, or one that owns what it points to as a box does.
#[repr(C)]
#[derive(Drop)]
pub struct Pointer {
    at: *mut u8,
    alloc: Global,
    pub ghost kept: { Option Kept } by { coded_option kept_row.coded },
}

impl Model for Pointer {
    ghost also_owns = { λ p. pointer_owns kept_row p.kept p.alloc p.at };
}

impl Pointer {
    /// A pointer to what a box owned.
    pub fn of_loose(loose: Loose<Kept, Global>) -> Pointer
        ensures { result.kept ≡ Some loose.value }
    {
        let Loose { ptr, alloc } = loose;
        Pointer {
            at: ptr as *mut u8,
            alloc,
        }
    }

    /// What it owns.
    pub fn into_loose(self) -> Loose<Kept, Global>
        requires { is_some self.kept ≡ true }
        ensures { self.kept ≡ Some result.value }
    {
        let Pointer { at, alloc } = self;
        Loose {
            ptr: at as *mut Kept,
            alloc,
        }
    }

    /// A pointer to nothing.
    pub fn to_nothing(alloc: Global) -> Pointer
        ensures { result.kept ≡ None }
    {
        Pointer {
            at: std::ptr::null_mut(),
            alloc,
        }
    }
}
