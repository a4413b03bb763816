//! That what was found is what was meant.

use std::fmt::Debug;
use std::process::Abort;

/// What was found is what was meant. Where it is not, the test ends and shows both.
pub fn assert_same<R: Abort, T: PartialEq + Debug + Drop>(rt: &R, found: T, meant: T) {
    assert_eq!(rt; found, meant);
}
