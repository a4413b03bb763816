//! First come, first served: another policy than this repository's, naive on purpose.

use cal_machine::{Config, MOST_CORES, MOST_THREADS};
use cal_policy::{Action, Cause, Record, Seen};
use std::alloc::{AllocError, Global};

/// The thread whose request waits longest gets the lowest free core; where there is none it takes
/// back core 0. It counts no commands, and knows nothing of rings, guarantees and limits: of its
/// choices nothing is proved, and the guard refuses what they would break.
#[derive(Clone, Copy)]
pub struct FirstCome {
    /// The thread to which it gave each core.
    given: [Option<u8>; MOST_CORES],
}

/// The record of a whole look at the thread.
fn shown(seen: &[Seen], thread: u8) -> Option<Record> {
    match seen.get(thread as usize) {
        Some(Seen::Whole { rec, .. }) => Some(*rec),
        _ => None,
    }
}

impl FirstCome {
    /// The policy as it begins: no core is given to anybody.
    pub fn new() -> FirstCome {
        FirstCome {
            given: [None; MOST_CORES],
        }
    }

    /// Each thread that waits and has no core, with since when, the longest wait first.
    fn waiting(&self, alloc: Global, seen: &[Seen]) -> Result<Vec<(u64, u8)>, AllocError> {
        let mut waiting = Vec::new(alloc);
        for thread in 0..MOST_THREADS as u8 {
            if let Some(rec) = shown(seen, thread) {
                if rec.queued > 0 && !self.given.contains(&Some(thread)) {
                    waiting.push((rec.oldest, thread))?;
                }
            }
        }
        waiting.sort()?;
        Ok(waiting)
    }

    /// Notes an action as if it had been let through.
    pub fn note(&mut self, action: Action) {
        match action {
            Action::Grant { core, thread, .. } if (core as usize) < MOST_CORES => {
                self.given[core as usize] = Some(thread);
            }
            Action::Free { core } if (core as usize) < MOST_CORES => {
                self.given[core as usize] = None;
            }
            _ => {}
        }
    }

    /// Frees each core whose thread shows none.
    fn free(&mut self, alloc: Global, seen: &[Seen]) -> Result<Vec<Action>, AllocError> {
        let mut actions = Vec::new(alloc);
        for core in 0..MOST_CORES as u8 {
            if let Some(thread) = self.given[core as usize] {
                if shown(seen, thread).is_some_and(|rec| rec.running == 0) {
                    self.given[core as usize] = None;
                    actions.push(Action::Free { core })?;
                }
            }
        }
        Ok(actions)
    }

    /// What it would do in a pass on these looks.
    pub fn choose(
        &self,
        alloc: Global,
        config: &Config,
        seen: &[Seen],
    ) -> Result<Vec<Action>, AllocError> {
        let mut after = *self;
        let mut actions = after.free(alloc, seen)?;
        for (_, thread) in after.waiting(alloc, seen)? {
            let free = (0..config.machine().cores()).find(
                |core| after.given[*core as usize].is_none(),
            );
            let action = match free {
                Some(core) => Action::Grant {
                    core,
                    thread,
                    class: 3,
                },
                None => Action::Revoke {
                    core: 0,
                    cause: Cause::Bandwidth,
                },
            };
            after.note(action);
            actions.push(action)?;
        }
        Ok(actions)
    }
}
