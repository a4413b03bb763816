//! The file for when requests came.

use crate::jobs::comings::text_of_comings;
use cal_input::RunFault;
use cal_load::Made;
use cal_machine::Listed;
use cal_trace::{Coming, Comings, LeftOut};
use std::alloc::{AllocError, Global};

/// To which turn each request came that was made, and how many are left out. Fails only when out of
/// memory.
fn comings_of(alloc: Global, made: &Made) -> Result<Comings, AllocError> {
    let mut requests = Vec::new(alloc);
    let arrivals = made.arrivals.requests.as_slice();
    for (arrival, came) in arrivals.iter().zip(made.came.as_slice()) {
        requests.push(Coming {
            arrival: *arrival,
            turn: came.turn,
        })?;
    }
    let mut left_out = Vec::new(alloc);
    for count in made.counts.as_slice() {
        if count.left_out > 0 {
            left_out.push(LeftOut {
                task: count.task as u64,
                count: count.left_out,
            })?;
        }
    }
    Ok(Comings {
        requests: Listed::new(requests),
        left_out: Listed::new(left_out),
    })
}

/// The file of the comings of what was made. The fault is `Memory`.
pub fn came_text(alloc: Global, made: &Made) -> Result<Vec<u8>, RunFault> {
    text_of_comings(alloc, &comings_of(alloc, made)?)
}
