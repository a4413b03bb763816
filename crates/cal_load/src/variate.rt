//! Times between requests that come by chance, in whole numbers, so that every machine makes the
//! same.

use rand_core::Rng;

/// One whole, in the unit of times: 2^-32.
pub const ONE: u64 = 1 << 32;

/// More falls than any run of them has: the chance of another is below 1 in 2^200.
const MOST_FALLS: u32 = 64;

/// More wholes than any variate has: the chance of another is below 1 in 2^90.
const MOST_WHOLES: u64 = 64;

/// The first of some numbers that fall one after the other, where they are odd in number. The
/// number after them is not below the last.
///
/// Of a first number x, below 1, the chance of an odd number is e^-x.
fn first_of_odd_falls<R: Rng>(rng: &mut R) -> Option<u64> {
    let first = rng.next_u32();
    let mut last = first;
    let mut is_odd = true;
    for _ in 0..MOST_FALLS {
        let next = rng.next_u32();
        if next >= last {
            break;
        }
        last = next;
        is_odd = !is_odd;
    }
    if is_odd { Some(u64::from(first)) } else { None }
}

/// An exponential variate of mean one whole, by von Neumann's way of comparing: each run of falls
/// that does not count is a whole more.
pub fn exponential<R: Rng>(rng: &mut R) -> u64 {
    for wholes in 0..MOST_WHOLES {
        if let Some(part) = first_of_odd_falls(rng) {
            return wholes.saturating_mul(ONE).saturating_add(part);
        }
    }
    MOST_WHOLES * ONE
}
