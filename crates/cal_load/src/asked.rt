//! What comes to tasks, as the words of a command line say it.

ghost use Rattle.std.specs.Prelude.{◌≡◌, ℕ, List, IfErr, IfOk, length, slice_get};
ghost use Rattle.cal_load.specs.Known.{AreKnown, text_of};
ghost use Rattle.cal_load.specs.Refused.{IsRefusedFor};

use crate::clocks::Timing;
use crate::decimal::number_of;
use crate::fault::{LoadFault, Why, refused};
use crate::loads::{Measure, OFFERED, flag_of, loads_of};
use crate::making::{TaskLoad, pattern_of};
use crate::service::service_of;
use cal_machine::Config;
use std::alloc::Global;

const TASK: &str = "--task";

const MISSES: &str = "--misses";

/// What words ask for, each word of a task as it was given.
#[derive(Debug, Drop)]
pub struct LoadWords<'a> {
    /// The tasks to which requests come.
    pub tasks: Vec<&'a str>,
    /// The names of the table's tasks, in task order with commas between.
    pub names: Option<&'a str>,
    /// One load for all of them, or one for each. The next four are given in the same way.
    pub loads: Vec<&'a str>,
    /// The loads in cores, in place of these.
    pub offered: Vec<&'a str>,
    /// The turns that requests take.
    pub services: Vec<&'a str>,
    /// How they come.
    pub patterns: Vec<&'a str>,
    /// The misses that each turn of their work adds.
    pub misses: Vec<&'a str>,
    /// How long the run is.
    pub timing: Timing,
    /// The seed.
    pub seed: u64,
}

/// What words ask of a task.
#[derive(Drop)]
struct AskedTask<'a> {
    /// What comes to it, with the first of its loads.
    of_task: TaskLoad,
    /// The word of its loads, where these are several.
    several: Option<&'a str>,
}

/// What words ask of some tasks.
#[derive(Drop)]
struct AskedLoads<'a> {
    /// What comes to each, with the first of its loads.
    tasks: Vec<TaskLoad>,
    /// What the loads are measured in.
    measure: Measure,
    /// The word of several loads, where there is one.
    several: Option<&'a str>,
}

/// The word at a place, or an empty one.
pub fn word_at<'a>(words: &[&'a str], place: usize) -> &'a str
    ensures { result.now ≡ text_of (slice_get words.now place) }
{
    match words.get(place) {
        Some(word) => *word,
        None => "",
    }
}

/// The word that an option has for the task at a place: its only one, or that at this place.
pub(crate) fn word_of<'a>(words: &[&'a str], place: usize) -> &'a str {
    if words.len() == 1 {
        word_at(words, 0)
    } else {
        word_at(words, place)
    }
}

/// The word that an option has for the task at a place: its only one, or, of as many as there are
/// tasks, that at this place.
fn word_for<'a>(
    flag: &'a str,
    words: &[&'a str],
    tasks: usize,
    place: usize,
) -> Result<&'a str, LoadFault<'a>> {
    let times = words.len();
    if times == 1 || times == tasks {
        return Ok(word_of(words, place));
    }
    let last = word_at(words, times.saturating_sub(1));
    Err(refused(flag, last, Why::NotOneEach(times as u64, tasks as u64)))
}

/// The misses of a word.
fn misses_of<'a>(word: &'a str) -> Result<u32, LoadFault<'a>>
    ensures { IfErr result (IsRefusedFor MISSES.now word.now Why.NotMisses) }
{
    match number_of(word).and_then(|misses| u32::try_from(misses).ok()) {
        Some(misses) => Ok(misses),
        None => Err(refused(MISSES, word, Why::NotMisses)),
    }
}

/// The task that a word names: by its number, or by the first of these names that it is.
fn task_named(names: Option<&str>, word: &str) -> Option<usize> {
    if let Some(number) = number_of(word) {
        return usize::try_from(number).ok();
    }
    names?.split(',').position(|name| name == word)
}

/// The task that the word at this place names.
pub fn task_at<'a>(words: &LoadWords<'a>, place: usize) -> Result<usize, LoadFault<'a>>
    ensures fault { IfErr result (IsRefusedFor TASK.now
        (text_of (slice_get words.now.tasks.items place)) (Why.NotNamed words.now.names)) }
{
    let word = word_at(words.tasks.as_slice(), place);
    match task_named(words.names, word) {
        Some(task) => Ok(task),
        None => Err(refused(TASK, word, Why::NotNamed(words.names))),
    }
}

impl<'a> LoadWords<'a> {
    /// What the loads are measured in. The fault is that of the first load in cores, where there are
    /// others too.
    fn measure(&self) -> Result<Measure, LoadFault<'a>> {
        if self.offered.is_empty() {
            return Ok(Measure::Limit);
        }
        if self.loads.is_empty() {
            return Ok(Measure::Cores);
        }
        let word = word_at(self.offered.as_slice(), 0);
        Err(refused(OFFERED, word, Why::LoadToo))
    }

    /// The loads in this measure.
    pub fn loads_in(&self, measure: Measure) -> &[&'a str] {
        match measure {
            Measure::Limit => self.loads.as_slice(),
            Measure::Cores => self.offered.as_slice(),
        }
    }
}

/// What words ask of the task that is named at this place.
fn asked_task<'a>(
    alloc: Global,
    words: &LoadWords<'a>,
    measure: Measure,
    place: usize,
) -> Result<AskedTask<'a>, LoadFault<'a>> {
    let tasks = words.tasks.len();
    let task = task_at(words, place)?;
    let word = word_for(flag_of(measure), words.loads_in(measure), tasks, place)?;
    let service = word_for("--service", words.services.as_slice(), tasks, place)?;
    let pattern = word_for("--pattern", words.patterns.as_slice(), tasks, place)?;
    let misses = word_for(MISSES, words.misses.as_slice(), tasks, place)?;
    let loads = loads_of(alloc, measure, word)?;
    let load = loads.as_slice().get(0).copied().unwrap_or(0);
    let of_task = TaskLoad {
        task,
        measure,
        load,
        service: service_of(alloc, service)?,
        pattern: pattern_of(pattern)?,
        misses: misses_of(misses)?,
    };
    let several = if loads.len() > 1 { Some(word) } else { None };
    Ok(AskedTask { of_task, several })
}

impl<'a> AskedLoads<'a> {
    /// Takes what words ask of one task more: none twice, and several loads of one at most.
    fn take(&mut self, asked: AskedTask<'a>, task: &'a str) -> Result<(), LoadFault<'a>> {
        let AskedTask { of_task, several } = asked;
        if self.tasks.iter().any(|other| other.task == of_task.task) {
            return Err(refused(TASK, task, Why::Twice));
        }
        if let Some(word) = several {
            if self.several.is_some() {
                return Err(refused(flag_of(self.measure), word, Why::Several));
            }
            self.several = several;
        }
        self.tasks.push(of_task)?;
        Ok(())
    }
}

/// What comes to each task that the words name, in their order, each with one load: no task twice.
/// Which tasks the table has is not asked.
pub fn asked_loads<'a>(
    alloc: Global,
    words: &LoadWords<'a>,
) -> Result<Vec<TaskLoad>, LoadFault<'a>> {
    let mut asked = AskedLoads {
        tasks: Vec::new(alloc),
        measure: words.measure()?,
        several: None,
    };
    for place in 0..words.tasks.len() {
        let one = asked_task(alloc, words, asked.measure, place)?;
        asked.take(one, word_at(words.tasks.as_slice(), place))?;
    }
    match asked.several {
        Some(word) => Err(refused(flag_of(asked.measure), word, Why::Several)),
        None => Ok(asked.tasks),
    }
}

/// Whether the table has each of these tasks; the fault is that of the first word that names none.
pub fn are_known<'a>(
    config: &Config,
    loads: &[TaskLoad],
    words: &[&'a str],
) -> Result<(), LoadFault<'a>>
    ensures known { IfOk result (λ _. AreKnown config.now loads.now) }
    ensures unknown { IfErr result (λ _. ¬ AreKnown config.now loads.now) }
    ensures fault { IfErr result (λ fault. (word : List ℕ) ×
        IsRefusedFor TASK.now word (Why.NotATask (length config.now.tasks)) fault) }
{
    let tasks = config.tasks();
    let mut place = 0usize;
    for load in loads {
        if load.task >= tasks {
            return Err(refused(TASK, word_at(words, place), Why::NotATask(tasks as u64)));
        }
        place = place.saturating_add(1);
    }
    Ok(())
}
