//! How numbers are written.

use crate::labels::Labels;
use crate::sheet::NumberForm;

/// How numbers are written.
#[derive(Clone, Copy)]
pub struct NumberStyle<'a> {
    /// What tasks and clock ticks are called.
    pub labels: Labels<'a>,
    /// As what they are written.
    pub form: NumberForm,
}
