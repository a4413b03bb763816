//! The kernel threads of a run, with the turns that they are given.

pub mod worker;

ghost use Rattle.std.specs.Prelude.{◌≡◌, ◌+◌, ◌<◌, List, length, IfOk, OnOk};
ghost use Rattle.cal_machine.specs.Table.{Table};
ghost use Rattle.cal_policy.specs.declared.history.entry.PassEntry.{PassEntry};
ghost use Rattle.cal_run.specs.Order.{Made, then_turns};
ghost use Rattle.cal_run.specs.Workers.{FitSomeTable, HaveMade, journals_of, seats_of};

use crate::collector::Collector;
use crate::workers::worker::Worker;
use cal_kthread::laws::turns_add_up;
use cal_trace::Arrivals;

/// Turn `j` of each thread, in thread order; what each adds to its journal goes to the collector.
/// Fails only when out of memory, or where the collector does.
pub(crate) fn turn_each<C: Collector>(
    workers: &mut [Worker],
    arrivals: &Arrivals,
    j: usize,
    collector: &mut C,
) -> Result<(), C::Fault>
    requires fits { FitSomeTable arrivals.now }
    requires given { j < length arrivals.now.turns }
    requires made { HaveMade arrivals.now j workers.old }
    ensures suits { (table : Table) → C.suits collector.old table →
        IfOk result (λ _. C.suits collector.new table) }
    ensures made { IfOk result (λ _. HaveMade arrivals.now (j + 1) workers.new) }
    ensures seats { IfOk result (λ _. seats_of workers.new ≡ seats_of workers.old) }
    ensures collected { (history : List PassEntry) →
        C.holds collector.old history (journals_of workers.old) →
        OnOk result (C.holds collector.new history (journals_of workers.new)) }
    ensures wrote { (first : C) (history : List PassEntry) →
        C.wrote first collector.old history → C.wrote first collector.new history }
    ensures same { (first : C) → C.same first collector.old → C.same first collector.new }
    ensures ordered { (made : List Made) → C.met collector.old made →
        OnOk result (C.met collector.new (then_turns (length workers.old) made)) }
{
    turns_add_up();
    for k in 0..workers.len() {
        let entries = workers[k].turn(arrivals, j)?;
        collector.add_turn(k, &entries)?;
    }
    Ok(())
}
