//! When requests came, as a file.

ghost use Rattle.std.specs.Prelude.{◌≡◌, IfErr, IfOk};
ghost use Rattle.cal_trace.specs.Comings.Text.{comings_text};

use cal_input::RunFault;
use cal_trace::{Comings, write_comings};
use std::alloc::Global;

/// The file of some comings. The fault is `Memory`.
pub fn text_of_comings(alloc: Global, comings: &Comings) -> Result<Vec<u8>, RunFault>
    ensures text { IfOk result (λ text. text.items ≡ comings_text comings.now) }
    ensures kind { IfErr result (λ fault. fault ≡ RunFault.Memory) }
{
    let mut text = Vec::new(alloc);
    match write_comings(comings, &mut text) {
        Ok(()) => Ok(text),
        Err(_) => Err(RunFault::Memory),
    }
}
