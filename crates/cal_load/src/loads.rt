//! Loads, as words say them.

ghost use Rattle.std.specs.Prelude.{◌≡◌};
ghost use Rattle.cal_load.specs.Loads.{flag_of, most_of};

use crate::decimal::thousandths_of;
use crate::fault::{LoadFault, Why, refused};
use cal_machine::MOST_LIMIT;
use std::alloc::Global;

/// The greatest load of a limit, in thousandths: ten times what all threads of a task can do.
pub const MOST_LOAD: u64 = 10_000;

/// The greatest load in cores, in thousandths: all that a task may have threads for.
pub const MOST_OFFERED: u64 = 1000 * MOST_LIMIT as u64;

/// The flag before a load of a limit.
pub const LOAD: &str = "--load";

/// The flag before a load in cores.
pub const OFFERED: &str = "--offered";

/// What a load is measured in.
#[derive(Clone, Copy, Debug, PartialEq, Eq)]
pub enum Measure {
    /// All that the threads of a task can do: the turns times the task's limit.
    Limit,
    /// Cores: what one thread can do, whatever the limit is.
    Cores,
}

/// The flag before a load in this measure.
pub fn flag_of(measure: Measure) -> &'static str
    ensures { result.now ≡ flag_of measure }
{
    match measure {
        Measure::Limit => LOAD,
        Measure::Cores => OFFERED,
    }
}

/// The greatest load in this measure, in thousandths.
fn most_of(measure: Measure) -> u64
    ensures { result ≡ most_of measure }
{
    match measure {
        Measure::Limit => MOST_LOAD,
        Measure::Cores => MOST_OFFERED,
    }
}

/// Loads that rise, in thousandths, while they are read.
#[derive(Drop)]
struct Rising<'a> {
    measure: Measure,
    word: &'a str,
    loads: Vec<u64>,
    /// How far apart the loads of `..` are, where it stands before the next one.
    step: Option<u64>,
}

impl<'a> Rising<'a> {
    /// One load, in thousandths.
    fn load_of(&self, piece: &str) -> Result<u64, LoadFault<'a>> {
        match (thousandths_of(piece), self.measure) {
            (Some(load), measure) if load > 0 && load <= most_of(measure) => Ok(load),
            (_, Measure::Limit) => Err(refused(LOAD, self.word, Why::NotALoad)),
            (_, Measure::Cores) => Err(refused(OFFERED, self.word, Why::NotCores(MOST_LIMIT))),
        }
    }

    /// The load before, or 0.
    fn last(&self) -> u64 {
        match self.loads.as_slice().last() {
            Some(load) => *load,
            None => 0,
        }
    }

    /// Takes one load more, and before it those of `..`.
    fn take(&mut self, load: u64) -> Result<(), LoadFault<'a>> {
        if load <= self.last() {
            return Err(refused(flag_of(self.measure), self.word, Why::NotRising));
        }
        if let Some(step) = self.step {
            self.fill(step, load)?;
        }
        self.step = None;
        self.loads.push(load)?;
        Ok(())
    }

    /// Puts the loads between the last one and this.
    fn fill(&mut self, step: u64, end: u64) -> Result<(), LoadFault<'a>> {
        for _ in 0..most_of(self.measure) {
            let next = self.last().saturating_add(step);
            if next >= end {
                break;
            }
            self.loads.push(next)?;
        }
        Ok(())
    }

    /// Takes `..`: the next loads are as far apart as the last two.
    fn go_on(&mut self) -> Result<(), LoadFault<'a>> {
        let loads = self.loads.as_slice();
        if self.step.is_some() || loads.len() < 2 {
            return Err(refused(flag_of(self.measure), self.word, Why::NotRising));
        }
        let before = loads[loads.len() - 2];
        self.step = Some(self.last().saturating_sub(before));
        Ok(())
    }
}

/// The loads of a word, in thousandths, by commas and rising: one or more numbers, and `..` between
/// two and a last one for those between, as far apart as the two, as in `0.1,0.3,..,0.95`.
pub fn loads_of<'a>(
    alloc: Global,
    measure: Measure,
    word: &'a str,
) -> Result<Vec<u64>, LoadFault<'a>> {
    let mut rising = Rising {
        measure,
        word,
        loads: Vec::new(alloc),
        step: None,
    };
    for piece in word.split(',') {
        if piece == ".." {
            rising.go_on()?;
        } else {
            rising.take(rising.load_of(piece)?)?;
        }
    }
    if rising.step.is_some() {
        return Err(refused(flag_of(measure), word, Why::NotRising));
    }
    Ok(rising.loads)
}
