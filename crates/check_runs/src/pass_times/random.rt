//! Chances by a known seed (xorshift), so that each run gives the same loads.

/// A source of chances.
#[derive(Drop)]
pub struct Random {
    seed: u64,
}

impl Random {
    /// The source with the known seed.
    pub fn new() -> Random {
        Random {
            seed: 88_172_645_463_325_252,
        }
    }

    /// A number below the bound, and 0 where the bound is 0.
    pub fn below(&mut self, bound: u64) -> u64 {
        let mut x = self.seed;
        x ^= x << 13_u32;
        x ^= x >> 7_u32;
        x ^= x << 17_u32;
        self.seed = x;
        (x >> 33_u32).checked_rem(bound).unwrap_or(0)
    }

    /// True once in so many times, and never where that is 0.
    pub fn one_in(&mut self, times: u64) -> bool {
        times != 0 && self.below(times) == 0
    }
}
