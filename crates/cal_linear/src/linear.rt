//! The order of a run's steps, as a list of events.

ghost use Rattle.std.specs.Prelude.{◌≡◌, IfOk};
ghost use Rattle.cal_linear.specs.Runs.{AreOfOneRun, AreOfOneRunBy, AreWatched};
ghost use Rattle.cal_linear.specs.Linear.{linear};
ghost use Rattle.cal_linear.specs.Law.{IsLinearised, IsLinearisedBy};

use crate::front::Front;
use crate::law::linear_is_legal_by;
use crate::passes::append_run;
use crate::watches::append_watches;
use cal_kthread::Journal;
use cal_machine::Config;
use cal_policy::{PassEntry, Policy};
use cal_signal::Round;
use cal_world::Event;
use std::alloc::{AllocError, Global};

/// The steps of a run as one list of events: for each pass and each thread in order the thread's
/// journal up to the record that was read and then the Read, or for another look the Skip alone;
/// then the Decide. After the passes comes the rest of each journal, in thread order, and then a
/// Watch for each whole look of the watched rounds, in order. `Took`, `Yielded` and `Published`
/// give a Take, a Yield and a Publish, other entries nothing.
///
/// Where the history is one of this policy, the list is legal by it, and the history, the journals'
/// steps and the whole looks are its projections. (The order is the same by each policy.) Fails only
/// when out of memory.
pub fn linearise_by(
    alloc: Global,
    config: &Config,
    policy: Policy,
    history: &[PassEntry],
    journals: &[Journal],
    watched: &[Round],
) -> Result<Vec<Event>, AllocError>
    requires run { AreOfOneRunBy policy config.now history.now journals.now }
    requires watched { AreWatched config.now journals.now watched.now }
    ensures legal { IfOk result (λ events.
        IsLinearisedBy policy config.now history.now journals.now watched.now events.items) }
    ensures order { IfOk result (λ events.
        events.items ≡ linear history.now journals.now watched.now) }
{
    // Contracts alone go by it.
    let _ = policy;
    config.limits();
    linear_is_legal_by();
    let none = Front {
        place: 0,
        entries: 0,
    };
    let mut fronts = vec![in alloc; none; journals.len()]?;
    let mut events = Vec::new(alloc);
    append_run(alloc, &mut events, journals, fronts.as_mut_slice(), history)?;
    append_watches(&mut events, watched)?;
    Ok(events)
}

/// `linearise_by` of `Policy::Caladan`.
pub fn linearise(
    alloc: Global,
    config: &Config,
    history: &[PassEntry],
    journals: &[Journal],
    watched: &[Round],
) -> Result<Vec<Event>, AllocError>
    requires run { AreOfOneRun config.now history.now journals.now }
    requires watched { AreWatched config.now journals.now watched.now }
    ensures legal { IfOk result (λ events.
        IsLinearised config.now history.now journals.now watched.now events.items) }
    ensures order { IfOk result (λ events.
        events.items ≡ linear history.now journals.now watched.now) }
{
    linearise_by(alloc, config, Policy::Caladan, history, journals, watched)
}
