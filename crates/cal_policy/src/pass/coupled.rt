//! Actions that are made together.

ghost use Rattle.std.specs.Prelude.{◌≡◌};

use crate::history::action::Action;

/// Up to two actions, both judged in the state before either.
#[derive(Clone, Copy, Debug, PartialEq, Eq)]
pub struct Coupled {
    pub first: Option<Action>,
    pub second: Option<Action>,
}

/// No action.
pub fn neither() -> Coupled
    ensures { result ≡ record { first = None; second = None } }
{
    Coupled {
        first: None,
        second: None,
    }
}
