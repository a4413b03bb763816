//! The rounds of a run on one thread.

pub mod passes;
pub mod watch;

ghost use Rattle.std.specs.Prelude.{◌≡◌, ◌+◌, ◌∷◌, List, length, min, max, nat_lt, IfErr, IfOk, OnOk};
ghost use Rattle.std.specs.Prelude.{if◌then◌else◌};
ghost use Rattle.cal_policy.specs.Policies.{IsLegalBy};
ghost use Rattle.cal_kthread.specs.declared.journal.entry.Entry.{Entry};
ghost use Rattle.cal_machine.specs.Table.{Table};
ghost use Rattle.cal_policy.specs.declared.history.entry.PassEntry.{PassEntry as EntryOfPass};
ghost use Rattle.cal_run.specs.Collecting.{HasStopped};
ghost use Rattle.cal_run.specs.Order.{Made, a_pass, then_round, then_rounds, then_turns};
ghost use Rattle.cal_run.specs.Parts.{AreFirstPasses, AreParts, HasPassed, scheduler_seat_of};
ghost use Rattle.cal_run.specs.Rounds.{AreAfterRounds};
ghost use Rattle.cal_run.specs.Workers.{FitSomeTable, HaveMade, journals_of, seats_of};

use crate::collector::Collector;
use crate::parts::Parts;
use crate::rounds::watch::watch_of_round;
use crate::workers::turn_each;
use crate::workers::worker::Worker;
use cal_sched::BareScheduler;
use cal_trace::Arrivals;

/// All passes, turns and rounds of the watch, one round after the other. What each pass and each
/// turn hands out goes to the collector. Fails only when out of memory, or where the collector does:
/// then what the collector wrote is of some first passes.
pub fn make_rounds<C: Collector>(
    parts: &mut Parts,
    arrivals: &Arrivals,
    collector: &mut C,
) -> Result<(), C::Fault>
    requires suits { C.suits collector.old parts.old.scheduler.table }
    requires fits { FitSomeTable arrivals.now }
    requires opened { AreParts parts.old.scheduler.table arrivals.now 0 0 0 parts.old }
    ensures suits { IfOk result (λ _. C.suits collector.new parts.old.scheduler.table) }
    ensures made { IfOk result (λ _. AreAfterRounds parts.old.scheduler.table arrivals.now
        (max (length arrivals.now.passes) (length arrivals.now.turns)) parts.new) }
    ensures most { IfOk result (λ _. parts.new.watch.most ≡ parts.old.watch.most) }
    ensures policy { IfOk result (λ _. parts.new.scheduler.policy ≡ parts.old.scheduler.policy) }
    ensures collected { C.holds collector.old parts.old.scheduler.history
        (journals_of parts.old.workers.items) →
        OnOk result (C.holds collector.new parts.new.scheduler.history
        (journals_of parts.new.workers.items)) }
    ensures first { IfOk result (λ _. AreFirstPasses parts.old.scheduler.policy
        parts.old.scheduler.table arrivals.now parts.new.scheduler.history) }
    ensures wrote { (first : C) → C.wrote first collector.old parts.old.scheduler.history →
        OnOk result (C.wrote first collector.new parts.new.scheduler.history) }
    ensures stopped { (first : C) → C.wrote first collector.old parts.old.scheduler.history →
        IfErr result (λ _. HasStopped parts.old.scheduler.policy parts.old.scheduler.table
        arrivals.now (C.wrote first collector.new)) }
    ensures same { (first : C) → C.same first collector.old → C.same first collector.new }
    ensures ordered { (made : List Made) → C.met collector.old made →
        OnOk result (C.met collector.new (then_rounds (length arrivals.now.passes)
        (length arrivals.now.turns) (length parts.old.workers.items)
        (max (length arrivals.now.passes) (length arrivals.now.turns)) made)) }
{
    for r in 0..rounds_to_make(arrivals) {
        make_round(parts, arrivals, r, collector)?;
    }
    Ok(())
}

/// Round `r`: first pass `r`, then turn `r` of each thread in thread order, then round `r` of the
/// watch, each if there is one.
fn make_round<C: Collector>(
    parts: &mut Parts,
    arrivals: &Arrivals,
    r: usize,
    collector: &mut C,
) -> Result<(), C::Fault>
    requires suits { C.suits collector.old parts.old.scheduler.table }
    requires fits { FitSomeTable arrivals.now }
    requires before { AreAfterRounds parts.old.scheduler.table arrivals.now r parts.old }
    requires legal { IsLegalBy parts.old.scheduler.policy parts.old.scheduler.table
        parts.old.scheduler.history }
    ensures suits { IfOk result (λ _. C.suits collector.new parts.old.scheduler.table) }
    ensures made { IfOk result (λ _.
        AreAfterRounds parts.old.scheduler.table arrivals.now (r + 1) parts.new) }
    ensures most { IfOk result (λ _. parts.new.watch.most ≡ parts.old.watch.most) }
    ensures policy { IfOk result (λ _. parts.new.scheduler.policy ≡ parts.old.scheduler.policy) }
    ensures collected { C.holds collector.old parts.old.scheduler.history
        (journals_of parts.old.workers.items) →
        OnOk result (C.holds collector.new parts.new.scheduler.history
        (journals_of parts.new.workers.items)) }
    ensures legal { IfOk result (λ _. IsLegalBy parts.new.scheduler.policy
        parts.new.scheduler.table parts.new.scheduler.history) }
    ensures wrote { (first : C) → C.wrote first collector.old parts.old.scheduler.history →
        OnOk result (C.wrote first collector.new parts.new.scheduler.history) }
    ensures stopped { (first : C) → C.wrote first collector.old parts.old.scheduler.history →
        IfErr result (λ _. HasStopped parts.old.scheduler.policy parts.old.scheduler.table
        arrivals.now (C.wrote first collector.new)) }
    ensures same { (first : C) → C.same first collector.old → C.same first collector.new }
    ensures ordered { (made : List Made) → C.met collector.old made →
        OnOk result (C.met collector.new (then_round (length arrivals.now.passes)
        (length arrivals.now.turns) (length parts.old.workers.items) r made)) }
    ensures many { IfOk result (λ _.
        length parts.new.workers.items ≡ length parts.old.workers.items) }
{
    pass_of_round(&mut parts.scheduler, arrivals, r, collector)?;
    turns_of_round(parts.workers.as_mut_slice(), arrivals, r, collector)?;
    watch_of_round(&mut parts.watch);
    Ok(())
}

/// How many rounds a run on these arrivals has.
fn rounds_to_make(arrivals: &Arrivals) -> usize
    ensures { result ≡ max (length arrivals.now.passes) (length arrivals.now.turns) }
{
    let passes = arrivals.passes.as_slice().len();
    let turns = arrivals.turns.as_slice().len();
    passes.max(turns)
}

/// Pass `r`, if there is one.
fn pass_of_round<C: Collector>(
    scheduler: &mut BareScheduler,
    arrivals: &Arrivals,
    r: usize,
    collector: &mut C,
) -> Result<(), C::Fault>
    requires suits { C.suits collector.old scheduler.old.table }
    requires fits { FitSomeTable arrivals.now }
    requires passed { HasPassed arrivals.now (min r (length arrivals.now.passes)) scheduler.old }
    ensures suits { IfOk result (λ _. C.suits collector.new scheduler.old.table) }
    ensures passed { IfOk result (λ _.
        HasPassed arrivals.now (min (r + 1) (length arrivals.now.passes)) scheduler.new) }
    ensures seat { scheduler_seat_of scheduler.new ≡ scheduler_seat_of scheduler.old }
    ensures collected { (journals : List (List Entry)) →
        C.holds collector.old scheduler.old.history journals →
        OnOk result (C.holds collector.new scheduler.new.history journals) }
    ensures legal { IsLegalBy scheduler.old.policy scheduler.old.table scheduler.old.history →
        IsLegalBy scheduler.new.policy scheduler.new.table scheduler.new.history }
    ensures wrote { (first : C) → C.wrote first collector.old scheduler.old.history →
        OnOk result (C.wrote first collector.new scheduler.new.history) }
    ensures stopped { (first : C) → C.wrote first collector.old scheduler.old.history →
        IfErr result (λ _. C.wrote first collector.new scheduler.old.history) }
    ensures same { (first : C) → C.same first collector.old → C.same first collector.new }
    ensures ordered { (made : List Made) → C.met collector.old made →
        OnOk result (C.met collector.new
        (if nat_lt r (length arrivals.now.passes) then a_pass ∷ made else made)) }
{
    if r >= arrivals.passes.as_slice().len() {
        return Ok(());
    }
    collector.make_pass(scheduler, arrivals, r)
}

/// Turn `r` of each thread, in thread order, if there is one.
pub fn turns_of_round<C: Collector>(
    workers: &mut [Worker],
    arrivals: &Arrivals,
    r: usize,
    collector: &mut C,
) -> Result<(), C::Fault>
    requires fits { FitSomeTable arrivals.now }
    requires made { HaveMade arrivals.now (min r (length arrivals.now.turns)) workers.old }
    ensures suits { (table : Table) → C.suits collector.old table →
        IfOk result (λ _. C.suits collector.new table) }
    ensures made { IfOk result (λ _.
        HaveMade arrivals.now (min (r + 1) (length arrivals.now.turns)) workers.new) }
    ensures seats { IfOk result (λ _. seats_of workers.new ≡ seats_of workers.old) }
    ensures collected { (history : List EntryOfPass) →
        C.holds collector.old history (journals_of workers.old) →
        OnOk result (C.holds collector.new history (journals_of workers.new)) }
    ensures wrote { (first : C) (history : List EntryOfPass) →
        C.wrote first collector.old history → C.wrote first collector.new history }
    ensures same { (first : C) → C.same first collector.old → C.same first collector.new }
    ensures ordered { (made : List Made) → C.met collector.old made →
        OnOk result (C.met collector.new (if nat_lt r (length arrivals.now.turns) then
        then_turns (length workers.old) made else made)) }
{
    if r >= arrivals.turns.as_slice().len() {
        return Ok(());
    }
    turn_each(workers, arrivals, r, collector)?;
    Ok(())
}
