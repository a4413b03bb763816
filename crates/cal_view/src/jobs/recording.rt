//! The history that signals lead to, as a file.

ghost use Rattle.std.specs.Prelude.{◌≡◌, ◌≢◌, IfErr};
ghost use Rattle.cal_engine.specs.Deciding.{decided_run_by};
ghost use Rattle.cal_view.specs.Recording.{Records};

use cal_engine::{Front, decided_history_by, write_after_front};
use cal_input::RunFault;
use cal_policy::Policy;
use std::alloc::Global;
use std::io::Write;

/// Decides each pass of an input of a task table and a signal trace by this policy, and writes them as
/// a history, with this in front of it. The rows of each pass are made in memory as soon as it was decided, and
/// no pass is kept. Nothing is written before the whole input was accepted.
///
/// The faults are those of `cal_engine::decide`, in the same order, but for those of reading.
pub fn record<W: Write>(
    alloc: Global,
    policy: Policy,
    input: &[u8],
    front: Front,
    writer: &mut W,
) -> Result<(), RunFault>
    // The history that the input asks for was written and nothing else, or the fault is the input's
    // first.
    ensures exact { Records result front input.now (decided_run_by policy input.now)
        (W.contents writer.old) (W.contents writer.new) }
    // Nothing is written before the input was accepted.
    ensures untouched { IfErr result (λ fault. fault ≢ RunFault.Write → writer.new ≡ writer.old) }
{
    let history = decided_history_by(alloc, policy, input)?;
    write_after_front(front, input, history.as_slice(), writer)
}
