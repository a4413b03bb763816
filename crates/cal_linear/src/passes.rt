//! The passes of a history, each after the steps that its looks read, and then what is left of each
//! journal.

ghost use Rattle.std.specs.Prelude.{◌≡◌, ◌≤◌, ◌++◌, [], length, IfOk};
ghost use Rattle.cal_machine.specs.declared.numbering.TheConstants.{MOST_THREADS};
ghost use Rattle.cal_policy.specs.History.Lists.{each_of};
ghost use Rattle.cal_linear.specs.Reads.{furthest, after_looks};
ghost use Rattle.cal_linear.specs.Linear.{looks_from, pass_events, rests_from, passes_and_rests};
ghost use Rattle.cal_linear.specs.Fronts.{AreFronts, HaveAtMost, places_in};

use crate::front::{Front, append_look, append_rest};
use cal_kthread::Journal;
use cal_policy::{PassEntry, Seen};
use cal_world::Event;
use std::alloc::{AllocError, Global};

/// Appends the looks of a pass.
fn append_looks(
    events: &mut Vec<Event>,
    journals: &[Journal],
    fronts: &mut [Front],
    looks: &[Seen],
) -> Result<(), AllocError>
    requires threads { length journals.now ≤ MOST_THREADS }
    requires sizes { length fronts.old ≡ length journals.now }
    requires looks { length looks.now ≤ length journals.now }
    requires begun { AreFronts journals.now fronts.old }
    ensures appended { IfOk result (λ done. events.new.items ≡
        events.old.items ++ looks_from journals.now (places_in fronts.old) 0 looks.now) }
    ensures places { IfOk result (λ done. places_in fronts.new ≡
        after_looks (places_in fronts.old) looks.now) }
    ensures listed { IfOk result (λ done. AreFronts journals.now fronts.new) }
{
    for (k, seen) in looks.iter().enumerate() {
        let journal = journals[k].as_slice();
        fronts[k] = append_look(events, k as u8, journal, fronts[k], *seen)?;
    }
    Ok(())
}

/// Appends the passes, each with its looks before it.
fn append_passes(
    alloc: Global,
    events: &mut Vec<Event>,
    journals: &[Journal],
    fronts: &mut [Front],
    history: &[PassEntry],
) -> Result<(), AllocError>
    requires threads { length journals.now ≤ MOST_THREADS }
    requires sizes { length fronts.old ≡ length journals.now }
    requires looks { HaveAtMost (length journals.now) history.now }
    requires begun { AreFronts journals.now fronts.old }
    requires first { places_in fronts.old ≡ furthest [] }
    ensures appended { IfOk result (λ done. events.new.items ≡
        events.old.items ++ each_of (pass_events journals.now) history.now) }
    ensures places { IfOk result (λ done. places_in fronts.new ≡ furthest history.now) }
    ensures listed { IfOk result (λ done. AreFronts journals.now fronts.new) }
{
    for entry in history {
        append_looks(events, journals, fronts, entry.input.seen.as_slice())?;
        let entry = entry.copy(alloc)?;
        events.push(Event::Decide(entry))?;
    }
    Ok(())
}

/// Appends the rest of each journal, in thread order.
fn append_rests(
    events: &mut Vec<Event>,
    journals: &[Journal],
    fronts: &[Front],
) -> Result<(), AllocError>
    requires threads { length journals.now ≤ MOST_THREADS }
    requires sizes { length fronts.now ≡ length journals.now }
    requires begun { AreFronts journals.now fronts.now }
    ensures { IfOk result (λ done. events.new.items ≡
        events.old.items ++ rests_from (places_in fronts.now) 0 journals.now) }
{
    for k in 0..journals.len() {
        let journal = journals[k].as_slice();
        append_rest(events, k as u8, journal, fronts[k])?;
    }
    Ok(())
}

/// Appends the passes and then the rests.
pub(crate) fn append_run(
    alloc: Global,
    events: &mut Vec<Event>,
    journals: &[Journal],
    fronts: &mut [Front],
    history: &[PassEntry],
) -> Result<(), AllocError>
    requires threads { length journals.now ≤ MOST_THREADS }
    requires sizes { length fronts.old ≡ length journals.now }
    requires looks { HaveAtMost (length journals.now) history.now }
    requires begun { AreFronts journals.now fronts.old }
    requires first { places_in fronts.old ≡ furthest [] }
    ensures { IfOk result (λ done. events.new.items ≡
        events.old.items ++ passes_and_rests history.now journals.now) }
{
    append_passes(alloc, events, journals, fronts, history)?;
    append_rests(events, journals, fronts)?;
    Ok(())
}
