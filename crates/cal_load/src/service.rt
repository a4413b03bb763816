//! How many turns requests take, as words say it.

ghost use Rattle.std.specs.Prelude.{IfOk, IfSome};
ghost use Rattle.cal_load.specs.Decimals.{Spells};
ghost use Rattle.cal_load.specs.Said.{SaysPart, SaysService};
ghost use Rattle.cal_load.specs.Services.{IsService, IsWork};

use crate::decimal::{number_of, thousandths_of};
use crate::fault::{LoadFault, Why, refused};
use cal_trace::MOST_WORK;
use rand::RngExt;
use rand_core::Rng;
use std::alloc::Global;

/// All requests, in thousandths of a percent.
pub const WHOLE: u64 = 100_000;

const FLAG: &str = "--service";

/// The share of requests that take so many turns.
#[derive(Clone, Copy, Debug, PartialEq, Eq)]
pub struct ServicePart {
    /// The share, in thousandths of a percent.
    pub share: u64,
    /// How many turns each takes, 1 to `MOST_WORK`.
    pub turns: u64,
}

/// The turns that some requests take, where it is such a number.
fn turns_of(word: &str) -> Option<u64>
    ensures work { IfSome result IsWork }
    ensures spelled { IfSome result (Spells word.now) }
{
    let turns = number_of(word)?;
    if turns >= 1 && turns <= MOST_WORK {
        Some(turns)
    } else {
        None
    }
}

/// A part, as `90%:1`; without a share all requests.
fn part_of(piece: &str) -> Option<ServicePart>
    ensures work { IfSome result (λ part. IsWork part.turns) }
    ensures says { IfSome result (SaysPart piece.now) }
{
    let Some((share, turns)) = piece.split_once(':') else {
        let turns = turns_of(piece)?;
        return Some(ServicePart {
            share: WHOLE,
            turns,
        });
    };
    let share = thousandths_of(share.strip_suffix('%')?)?;
    let turns = turns_of(turns)?;
    Some(ServicePart { share, turns })
}

/// The parts of a word, by commas, as in `90%:1,10%:20`, or one number of turns. The shares make
/// 100%.
pub fn service_of<'a>(alloc: Global, word: &'a str) -> Result<Vec<ServicePart>, LoadFault<'a>>
    ensures whole { IfOk result (λ parts. IsService parts.items) }
    ensures says { IfOk result (λ parts. SaysService word.now parts.items) }
{
    let mut parts = Vec::new(alloc);
    let mut sum = 0u64;
    for piece in word.split(',') {
        let Some(part) = part_of(piece) else {
            return Err(refused(FLAG, word, Why::NotAService));
        };
        sum = sum.saturating_add(part.share);
        parts.push(part)?;
    }
    if sum != WHOLE {
        return Err(refused(FLAG, word, Why::NotAHundred(sum)));
    }
    Ok(parts)
}

/// The turns that all parts take together, each by its share: 100,000 times the mean.
pub(crate) fn turns_by_share(service: &[ServicePart]) -> u64 {
    let mut sum = 0u64;
    for part in service {
        sum = sum.saturating_add(part.share.saturating_mul(part.turns));
    }
    sum
}

/// The turns of the part in which a place among all requests falls, or the nearest that a request
/// may take.
fn turns_at(service: &[ServicePart], place: u64) -> u64
    ensures { IsWork result }
{
    let mut end = 0u64;
    let mut turns = 1u64;
    for part in service {
        if place >= end {
            turns = part.turns;
        }
        end = end.saturating_add(part.share);
    }
    turns.max(1).min(MOST_WORK)
}

/// The turns that the next request takes.
pub(crate) fn next_turns<R: Rng>(rng: &mut R, service: &[ServicePart]) -> u64
    ensures { IsWork result }
{
    turns_at(service, rng.random_range(0..WHOLE))
}
