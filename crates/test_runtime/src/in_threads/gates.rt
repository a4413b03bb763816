//! Gates at which workers wait for one another, and two that refuse.

use super::{PREEMPTION, PREEMPTION_TABLE, run};
use crate::one_thread::{Did, ONE_THREAD, does, first_passes, grant};
use crate::same::assert_same;
use cal_command::Command;
use cal_kthread::Entry;
use cal_policy::{Action, Cause, Seen};
use cal_run::{Outcome, SimFault};
use cal_threads::Gate;
use std::process::Abort;
use std::sync::atomic::{AtomicU64, Ordering};
use std::test::Fail;
use std::thread;

/// The arrivals of the preemption, with one pass and one turn more.
const LONGER_PREEMPTION: &[u8] = b"caladan-arrivals,1
pass,100,0
pass,200,0
pass,300,0
pass,400,0
pass,500,0
pass,600,0
pass,700,0
pass,800,0
turn,150
turn,250
turn,350
turn,450
turn,550
turn,650
turn,750
request,0,2,3,1,0
request,1,0,1,9,0
request,2,0,2,9,0
end,18
";

/// What a gate waits for, and what it refuses.
#[derive(Clone, Copy)]
enum Rule {
    /// Pass 1 and turn 2 of threads 0 and 1 are made once all three are asked for.
    Meet,
    /// Pass `p`, 1 to 6, is made once turn `p` of each thread is asked for, and turn `j` once pass
    /// `j + 1` is.
    InStep,
    /// Pass 0 is made once turn 1 of thread 0 is asked for, and turn 1 once pass 1 is.
    Crossed,
    /// Turn 1 of thread 0 is refused, each time.
    NoTurn,
    /// It is refused the first time that it is asked for.
    NoTurnOnce,
    /// So is pass 1.
    NoPassOnce,
}

/// A gate of this rule, which notes how many passes, and how many turns of each of three threads,
/// were asked for, and how often it was asked for what it refuses once.
#[derive(Drop)]
struct RuledGate {
    rule: Rule,
    passes: AtomicU64,
    turns: [AtomicU64; 3],
    refused: AtomicU64,
}

impl RuledGate {
    fn new(rule: Rule) -> RuledGate {
        RuledGate {
            rule,
            passes: AtomicU64::new(0),
            turns: [AtomicU64::new(0), AtomicU64::new(0), AtomicU64::new(0)],
            refused: AtomicU64::new(0),
        }
    }

    /// Waits for the request of this pass, and says whether it came.
    fn meets_pass(&self, p: u64) -> bool {
        wait_for(&self.passes, p.saturating_add(1))
    }

    /// The same of this turn of a thread.
    fn meets_turn(&self, k: usize, j: u64) -> bool {
        match self.turns.get(k) {
            Some(turns) => wait_for(turns, j.saturating_add(1)),
            None => true,
        }
    }

    /// Whether it is asked once more for what it refuses once.
    fn is_asked_again(&self) -> bool {
        self.refused.fetch_add(1, Ordering::SeqCst) > 0
    }
}

/// Polls till so many were asked for, and says whether it came to that.
fn wait_for(count: &AtomicU64, least: u64) -> bool {
    for _ in 0..100_000_000_u64 {
        if count.load(Ordering::SeqCst) >= least {
            return true;
        }
        thread::yield_now();
    }
    false
}

impl Gate for RuledGate {
    ghost answers_pass = { λ gate p answer. Unit {0} };

    ghost answers_turn = { λ gate k j answer. Unit {0} };

    fn before_pass(&self, p: u64) -> bool {
        self.passes.store(p.saturating_add(1), Ordering::SeqCst);
        match self.rule {
            Rule::Meet if p == 1 => self.meets_turn(0, 2) && self.meets_turn(1, 2),
            Rule::InStep if p > 0 && p < 7 => {
                self.meets_turn(0, p) && self.meets_turn(1, p) && self.meets_turn(2, p)
            }
            Rule::Crossed if p == 0 => self.meets_turn(0, 1),
            Rule::NoPassOnce if p == 1 => self.is_asked_again(),
            _ => true,
        }
    }

    fn before_turn(&self, k: usize, j: u64) -> bool {
        if let Some(turns) = self.turns.get(k) {
            turns.store(j.saturating_add(1), Ordering::SeqCst);
        }
        match self.rule {
            Rule::Meet if k < 2 && j == 2 => self.meets_pass(1) && self.meets_turn(1 - k, 2),
            Rule::InStep => self.meets_pass(j.saturating_add(1)),
            Rule::Crossed if j == 1 => self.meets_pass(1),
            Rule::NoTurn => k != 0 || j != 1,
            Rule::NoTurnOnce if k == 0 && j == 1 => self.is_asked_again(),
            _ => true,
        }
    }
}

// With `workers_on_one_thread` the first of the three waits in vain.
#[test]
fn three_workers_meet(rt: HostRuntime) -> Result<(), Fail> {
    let gate = RuledGate::new(Rule::Meet);
    let answer = run(&rt, PREEMPTION_TABLE, PREEMPTION, &gate)?;
    assert_same(&rt, answer.map(|_| ()), Ok(()));
    Ok(())
}

/// The best-effort task has both cores, is preempted on the first and has it back.
fn preempted() -> [Did; 7] {
    let core = 0;
    let cause = Cause::Preempt { task: 0 };
    let (free, revoke) = (Action::Free { core }, Action::Revoke { core, cause });
    [
        does(None, None),
        does(grant(0, 1, 3), None),
        does(grant(1, 2, 1), None),
        does(Some(revoke), None),
        does(Some(free), grant(0, 0, 3)),
        does(None, None),
        does(Some(free), grant(0, 1, 1)),
    ]
}

/// The first seven passes do that.
fn assert_preempted<R: Abort + AllocGlobal>(rt: &R, outcome: &Outcome) -> Result<(), Fail> {
    let passes = first_passes(rt.alloc(), outcome.history.as_slice(), 7)?;
    assert_same(rt, passes.as_slice(), preempted().as_slice());
    Ok(())
}

// With `workers_on_one_thread` pass 1 waits in vain. With `always_out_of_memory`, or with always
// Spawn or Gate, there is no outcome.
#[test]
fn passes_and_turns_in_step(rt: HostRuntime) -> Result<(), Fail> {
    let gate = RuledGate::new(Rule::InStep);
    let outcome = run(&rt, PREEMPTION_TABLE, LONGER_PREEMPTION, &gate)??;
    assert_preempted(&rt, &outcome)
}

const ONE_GRANT: &[u8] = b"caladan-arrivals,1
pass,116,0
pass,126,0
turn,105
turn,125
request,0,0,7,1,3
end,5
";

/// The place of the record that pass 0 read of thread 0, and what it did.
fn first_pass(outcome: &Outcome) -> Option<(u64, Option<Action>)> {
    let entry = outcome.history.as_slice().first()?;
    match entry.input.seen.as_slice().first()? {
        Seen::Whole { number, .. } => Some((*number, entry.actions.as_slice().first().copied())),
        _ => None,
    }
}

/// What thread 0 did after its first record, as far as its second.
fn second_turn(outcome: &Outcome) -> Option<Entry> {
    let journal = outcome.journals.as_slice().first()?.as_slice();
    let mut published = false;
    for entry in journal {
        if published {
            return Some(*entry);
        }
        published = matches!(entry, Entry::Published(1, _));
    }
    None
}

// With `threads_share_nothing` pass 0 reads no record. A run on one thread that makes its rounds in
// order reads none either.
#[test]
fn pass_between_two_turns(rt: HostRuntime) -> Result<(), Fail> {
    let gate = RuledGate::new(Rule::Crossed);
    let outcome = run(&rt, ONE_THREAD, ONE_GRANT, &gate)??;
    assert_same(&rt, first_pass(&outcome), Some((1, grant(0, 0, 3))));
    let took = Entry::Took(1, Command::Run(0));
    assert_same(&rt, second_turn(&outcome), Some(took));
    Ok(())
}

#[test]
fn gate_refuses(rt: HostRuntime) -> Result<(), Fail> {
    let gate = RuledGate::new(Rule::NoTurn);
    let answer = run(&rt, PREEMPTION_TABLE, PREEMPTION, &gate)?;
    assert_same(&rt, answer.map(|_| ()), Err(SimFault::Gate));
    Ok(())
}

// With `gate_asked_again` the run goes on.
#[test]
fn gate_is_not_asked_again(rt: HostRuntime) -> Result<(), Fail> {
    for rule in [Rule::NoPassOnce, Rule::NoTurnOnce] {
        let gate = RuledGate::new(rule);
        let answer = run(&rt, PREEMPTION_TABLE, PREEMPTION, &gate)?;
        assert_same(&rt, answer.map(|_| ()), Err(SimFault::Gate));
        assert_same(&rt, gate.refused.load(Ordering::SeqCst), 1);
    }
    Ok(())
}
