//! Threads that show once more what is kept of them, after passes whose actions somebody else chose.

ghost use Rattle.cal_guard.specs.Settled.{PermittedSettledIsNoNews};

use crate::histories::permitted_is_orderly;
use crate::laws::{kept_records_are_true, kept_threads_are_on_core};

/// After a permitted history a settled thread that shows the same once more is no news: the look
/// fits, is judged Whole, and changes nothing that is kept or shown. So one walk over the looks
/// passes it over (`OpenPass::pass_over`).
pub fn permitted_settled_is_no_news()
    ensures { PermittedSettledIsNoNews }
{
    permitted_is_orderly();
    kept_records_are_true();
    kept_threads_are_on_core();
}
