//! Arrivals with as many passes to a turn as a plan has.

ghost use Rattle.std.specs.Prelude.{◌≡◌, ◌*◌, ◌<◌, ◌≤◌, ◌++◌, IfErr, IfOk, length, map};
ghost use Rattle.std.specs.Prelude.{slice_index};
ghost use Rattle.cal_machine.specs.Table.{Table};
ghost use Rattle.cal_trace.specs.Arrivals.FitsTable.{FitsTable};
ghost use Rattle.cal_trace.specs.declared.arrivals.GivenPass.{GivenPass as Pass};
ghost use Rattle.cal_paced.specs.Figures.{HaveFigures};
ghost use Rattle.cal_paced.specs.Pace.{StandEvenly, before_first, pass_clock};
ghost use Rattle.cal_paced.specs.Making.{passes_before};
ghost use Rattle.cal_paced.specs.Paced.{ArePaced, IsPaceFault, MayBePaced};

use crate::fault::PaceFault;
use cal_machine::Listed;
use cal_policy::MOST_PASSES;
use cal_trace::{Arrivals, GivenPass};
use std::alloc::{AllocError, Global};

/// These arrivals with so many passes to a turn, which stand evenly between the turn before and it;
/// each has the figure of the file's pass for its turn. Turns and requests stay.
///
/// `Rows` where there is not one pass for each turn, else `Passes` where more than 1,048,576 passes
/// would come of them, which are checked first; `Memory` when out of memory.
pub fn paced_arrivals(alloc: Global, arrivals: Arrivals, pace: u16) -> Result<Arrivals, PaceFault>
    requires pace { 1 ≤ pace }
    ensures paced { IfOk result (λ given. ArePaced pace arrivals given) }
    ensures figures { IfOk result (λ given. HaveFigures pace
        (slice_index (map (λ (pass : Pass). pass.bandwidth) arrivals.passes)) given.passes) }
    ensures many { IfOk result (λ given. length given.passes ≡ pace * length given.turns) }
    ensures fits { IfOk result (λ given.
        (table : Table) → FitsTable table arrivals → FitsTable table given) }
    ensures may { IfOk result (λ _. MayBePaced pace arrivals) }
    ensures fault { IfErr result (IsPaceFault pace arrivals) }
{
    let Arrivals {
        passes,
        turns,
        requests,
    } = arrivals;
    let many = turns.as_slice().len();
    if passes.as_slice().len() != many {
        return Err(PaceFault::Rows);
    }
    if many as u128 * pace as u128 > MOST_PASSES as u128 {
        return Err(PaceFault::Passes);
    }
    let paced = paced_passes(alloc, passes.as_slice(), turns.as_slice(), pace)?;
    Ok(Arrivals {
        passes: Listed::new(paced),
        turns,
        requests,
    })
}

/// The passes before these turns, of which each has a pass of the file.
fn paced_passes(
    alloc: Global,
    passes: &[GivenPass],
    turns: &[u64],
    pace: u16,
) -> Result<Vec<GivenPass>, AllocError>
    requires rows { length passes.now ≡ length turns.now }
    requires pace { 1 ≤ pace }
    ensures clocks { IfOk result (λ paced. StandEvenly pace turns.now paced.items) }
    ensures figures { IfOk result (λ paced. HaveFigures pace
        (slice_index (map (λ (pass : Pass). pass.bandwidth) passes.now)) paced.items) }
{
    let mut paced = Vec::new(alloc);
    let mut before = before_first(turns);
    for j in 0..turns.len() {
        let turn = turns[j];
        put_passes(&mut paced, pace, before, turn, passes[j].bandwidth)?;
        before = turn;
    }
    Ok(paced)
}

/// Adds the passes before one turn.
fn put_passes(
    paced: &mut Vec<GivenPass>,
    pace: u16,
    before: u64,
    turn: u64,
    bandwidth: u64,
) -> Result<(), AllocError>
    ensures { IfOk result (λ _. paced.new.items
        ≡ paced.old.items ++ passes_before pace before turn bandwidth pace) }
{
    for i in 0..pace {
        let now = pass_clock(pace, before, turn, i);
        paced.push(GivenPass { now, bandwidth })?;
    }
    Ok(())
}

/// The clock before the first turn.
fn before_first(turns: &[u64]) -> u64
    ensures { result ≡ before_first turns.now }
{
    match turns {
        [first, second, ..] => first.saturating_sub(second.saturating_sub(*first)),
        _ => 0,
    }
}

/// The clock of pass `i` before a turn. (The product may need more than 64 bits; the clock does not,
/// since no pass is further from its turn than the turn before.)
fn pass_clock(pace: u16, before: u64, turn: u64, i: u16) -> u64
    requires { i < pace }
    ensures { result ≡ pass_clock pace before turn i }
{
    let apart = turn.saturating_sub(before) as u128;
    let parts = (pace - i) as u128;
    let from_turn = apart * parts / (pace as u128 + 1);
    turn - from_turn as u64
}
