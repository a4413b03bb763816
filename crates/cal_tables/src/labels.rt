//! What tasks and clock ticks are called.

use std::alloc::{AllocError, Global};

/// What tasks and clock ticks are called where they are shown.
#[derive(Clone, Copy)]
pub struct Labels<'a> {
    /// The names of the tasks, in task order. A task without one is called by its number.
    pub names: &'a [&'a str],
    /// What a clock tick is, as `ns`; none where that is not said.
    pub tick: Option<&'a str>,
}

impl<'a> Labels<'a> {
    /// Tasks are called by their numbers, and ticks are ticks.
    pub fn plain() -> Labels<'a> {
        Labels {
            names: &[],
            tick: None,
        }
    }

    /// The name of a task, if it has one.
    pub fn name(&self, task: usize) -> Option<&'a str> {
        self.names.get(task).copied()
    }

    /// What one clock tick is called.
    pub fn tick(&self) -> &'a str {
        self.tick.unwrap_or("tick")
    }

    /// The name of some times, with their unit after it where that is said, as `wait [ns]`. Fails
    /// only when out of memory.
    pub fn with_unit(&self, alloc: Global, name: &str) -> Result<String, AllocError> {
        match self.tick {
            Some(tick) => format!(in alloc; "{name} [{tick}]"),
            None => String::from_str(alloc, name),
        }
    }
}

/// How many letters a word has.
pub fn letters(word: &str) -> usize {
    let mut count = 0usize;
    for _ in word.chars() {
        count = count.saturating_add(1);
    }
    count
}
