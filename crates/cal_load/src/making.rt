//! The requests that come to the threads of a task.

ghost use Rattle.std.specs.Prelude.{◌≡◌, ◌<◌, ◌+◌, ◌-◌, ◌^◌, codes, length, IfErr, IfOk, OnOk};
ghost use Rattle.cal_load.specs.Comings.{IsComing, IsQueue, taken_in};
ghost use Rattle.cal_load.specs.Refused.{IsRefusedFor};
ghost use Rattle.cal_load.specs.Said.{Names};
ghost use Rattle.cal_load.specs.Services.{IsWork};

use crate::decimal::number_of;
use crate::fault::{LoadFault, Why, refused};
use crate::loads::Measure;
use crate::service::ServicePart;
use std::alloc::{AllocError, Global};

/// How requests come.
#[derive(Clone, Copy, Debug, PartialEq, Eq)]
pub enum Pattern {
    /// By chance, each as likely at any time as at any other.
    Poisson,
    /// As far apart as can be.
    Even,
    /// By chance, so many at once.
    Bursts(u64),
}

/// The way that a word names: `poisson`, `even` or `bursts:N`.
pub fn pattern_of<'a>(word: &'a str) -> Result<Pattern, LoadFault<'a>>
    ensures named { IfOk result (Names word.now) }
    ensures fault { IfErr result
        (IsRefusedFor (codes "--pattern") word.now Why.NotAPattern) }
{
    let pattern = match word.split_once(':') {
        None => match word {
            "poisson" => Some(Pattern::Poisson),
            "even" => Some(Pattern::Even),
            _ => None,
        },
        Some((name, number)) => match number_of(number) {
            Some(number) if name == "bursts" && number >= 2 && number <= 10_000 => {
                Some(Pattern::Bursts(number))
            }
            _ => None,
        },
    };
    match pattern {
        Some(pattern) => Ok(pattern),
        None => Err(refused("--pattern", word, Why::NotAPattern)),
    }
}

/// What comes to a task.
#[derive(Drop)]
pub struct TaskLoad {
    /// The number of the task.
    pub task: usize,
    /// What the load is measured in.
    pub measure: Measure,
    /// The work that is asked for, in thousandths of that.
    pub load: u64,
    /// What requests take.
    pub service: Vec<ServicePart>,
    /// The misses that each turn of a request's work adds.
    pub misses: u32,
    /// How they come.
    pub pattern: Pattern,
}

/// A request that comes to a thread.
#[derive(Clone, Copy, Debug, PartialEq, Eq)]
pub struct Slot {
    /// The turn before which it comes.
    pub turn: u64,
    /// How many turns it takes.
    pub work: u64,
    /// The turn to which it came: that one, or an earlier one.
    pub came_to: u64,
}

/// What comes to a thread, turn by turn.
#[derive(Drop)]
pub struct Queue {
    /// The requests, by their turns.
    pub slots: Vec<Slot>,
    /// The first turn after all of them.
    free: u64,
}

impl Queue {
    /// Takes a request before its turn, or before the first free one after it, and answers which; of
    /// so many turns there may be none.
    fn take(&mut self, slot: Slot, turns: u64) -> Result<Option<u64>, AllocError>
        ensures kept { IsQueue turns self.old → IsWork slot.work →
            OnOk result (IsQueue turns self.new) }
        ensures many { IfOk result (λ taken. length self.new.slots.items ≡
            length self.old.slots.items + taken_in taken) }
    {
        let turn = slot.turn.max(self.free);
        if turn >= turns {
            return Ok(None);
        }
        self.slots.push(Slot {
            turn,
            work: slot.work,
            came_to: slot.came_to,
        })?;
        self.free = turn + 1;
        Ok(Some(turn))
    }
}

/// What comes to the threads of a task, and how it came.
#[derive(Drop)]
pub struct Coming {
    /// What comes to each thread, in their order.
    pub queues: Vec<Queue>,
    /// How many requests came in all.
    pub came: u64,
    /// How many come before a later turn than they came to, which was taken.
    pub later: u64,
    /// How many found no turn any more, and are left out.
    pub left_out: u64,
    /// The turns that all others take.
    pub work: u64,
    /// How many turns each thread makes.
    turns: u64,
}

impl Coming {
    /// Nothing, for so many threads that make so many turns each.
    pub(crate) fn new(alloc: Global, threads: usize, turns: u64) -> Result<Coming, AllocError>
        ensures is { IfOk result IsComing }
        ensures threads { IfOk result (λ coming. length coming.queues.items ≡ threads) }
        ensures turns { IfOk result (λ coming. coming.turns ≡ turns) }
        ensures none { IfOk result (λ coming. coming.came ≡ 0) }
    {
        let mut queues = Vec::new(alloc);
        for _k in 0..threads {
            queues.push(Queue {
                slots: Vec::new(alloc),
                free: 0,
            })?;
        }
        Ok(Coming {
            queues,
            came: 0,
            later: 0,
            left_out: 0,
            work: 0,
            turns,
        })
    }

    /// Gives a request that came to a turn to a thread: before that turn or the first after it that
    /// is free.
    pub(crate) fn give(&mut self, thread: usize, slot: Slot) -> Result<(), AllocError>
        requires is { IsComing self.old }
        requires thread { thread < length self.old.queues.items }
        requires work { IsWork slot.work }
        ensures is { OnOk result (IsComing self.new) }
        ensures threads { length self.new.queues.items ≡ length self.old.queues.items }
        ensures turns { self.new.turns ≡ self.old.turns }
        ensures came { self.old.came < 2 ^ 64 - 1 →
            OnOk result (self.new.came ≡ self.old.came + 1) }
    {
        let taken = self.queues[thread].take(slot, self.turns)?;
        self.came = self.came.saturating_add(1);
        match taken {
            None => {
                self.left_out = self.left_out.saturating_add(1);
            }
            Some(turn) => {
                let is_later = turn > slot.turn;
                self.later = self.later.saturating_add(u64::from(is_later));
                self.work = self.work.saturating_add(slot.work);
            }
        }
        Ok(())
    }
}
