//! The Watches of a watcher's rounds.

ghost use Rattle.std.specs.Prelude.{◌≡◌, ◌≤◌, ◌++◌, ◌∷◌, [], ℕ, List};
ghost use Rattle.std.specs.Prelude.{length, Some, slice_get, IfOk};
ghost use Rattle.cal_machine.specs.declared.numbering.TheConstants.{MOST_THREADS};
ghost use Rattle.cal_signal.specs.declared.look.Look.{Look};
ghost use Rattle.cal_linear.specs.Linear.{whole_looks_from, whole_looks_of, watch_events};

use cal_signal::{Look, Round};
use cal_world::Event;
use std::alloc::AllocError;

/// Appends a Watch for a whole look.
fn append_watch(events: &mut Vec<Event>, thread: u8, look: Look) -> Result<(), AllocError>
    ensures { IfOk result (λ done. events.new.items ≡
        events.old.items ++ watch_events (whole_looks_from thread (look ∷ []))) }
{
    if let Look::Whole { number, rec: _ } = look {
        events.push(Event::Watch(thread, number))?;
    }
    Ok(())
}

/// Appends a Watch for each whole look of a round.
fn append_round(events: &mut Vec<Event>, looks: &[Look]) -> Result<(), AllocError>
    requires { length looks.now ≤ MOST_THREADS }
    ensures { IfOk result (λ done. events.new.items ≡
        events.old.items ++ watch_events (whole_looks_from 0 looks.now)) }
{
    for (k, look) in looks.iter().enumerate() {
        append_watch(events, k as u8, *look)?;
    }
    Ok(())
}

/// Appends the Watches of all rounds, in order.
pub(crate) fn append_watches(events: &mut Vec<Event>, watched: &[Round]) -> Result<(), AllocError>
    requires { (r : ℕ) (round : List Look) →
        slice_get watched.now r ≡ Some round → length round ≤ MOST_THREADS }
    ensures { IfOk result (λ done. events.new.items ≡
        events.old.items ++ watch_events (whole_looks_of watched.now)) }
{
    for round in watched {
        append_round(events, round.as_slice())?;
    }
    Ok(())
}
