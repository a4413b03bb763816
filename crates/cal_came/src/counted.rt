//! From when the requests of a run are counted, and which of them are ranked.

ghost use Rattle.std.specs.Prelude.{◌≡◌, IfOk};
ghost use Rattle.cal_came.specs.Counting.{as_given};

use crate::came::{Came, each_own};
use crate::window::Window;
use cal_machine::Listed;
use cal_trace::Arrivals;
use std::alloc::{AllocError, Global};

/// From when the requests of a run are counted, and which of them are ranked.
#[derive(Drop)]
pub struct Counted {
    /// How each request came.
    pub came: Listed<Came>,
    /// Those that came within this are ranked.
    pub window: Window,
}

/// Each request counted from its own turn, and all of them ranked. Fails only when out
/// of memory.
pub fn counted_as_given(alloc: Global, arrivals: &Arrivals) -> Result<Counted, AllocError>
    ensures { IfOk result (λ counted. counted ≡ as_given arrivals.now) }
{
    let came = each_own(alloc, arrivals)?;
    Ok(Counted {
        came: Listed::new(came),
        window: Window::whole(),
    })
}
