//! What was judged of a look, as C is told.

ghost use Rattle.std.specs.Prelude.{◌≡◌, ◌<◌, ◌≤◌, ℕ, Some, length, slice_get};
ghost use Rattle.cal_machine.specs.declared.numbering.TheConstants.{MOST_THREADS};
ghost use Rattle.caladan_c.specs.Told.{judgement_of, judgement_at};

use cal_policy::{OpenPass, Seen};

/// What was judged of a look, as a number: 1 kept, 2 busy, 3 ahead, 4 foreign.
pub fn judgement(seen: Seen) -> u8
    ensures { result ≡ judgement_of seen }
{
    match seen {
        Seen::Whole { .. } => 1,
        Seen::Busy { .. } => 2,
        Seen::Ahead { .. } => 3,
        Seen::Foreign { .. } => 4,
    }
}

/// Writes of so many looks that they were kept.
fn tell_kept(count: usize, out: &mut [u8])
    requires { count ≤ length out.old }
    ensures size { length out.new ≡ length out.old }
    ensures told { (k : ℕ) → k < count → slice_get out.new k ≡ Some 1 }
{
    for k in 0..count {
        out[k] = 1;
    }
}

/// Writes what was judged of each look that came in: of those that were passed over that they were
/// kept, and then of those that are noted.
pub fn tell_looks(looks: &OpenPass, out: &mut [u8])
    requires room { looks.now.count ≤ length out.old }
    requires most { looks.now.count ≤ MOST_THREADS }
    ensures { (k : ℕ) → k < looks.entry.now.count →
        slice_get out.new k ≡ Some (judgement_at looks.entry.now k) }
{
    tell_kept(looks.count, out);
    let mut first = 0;
    while let Some(k) = looks.listed.next(first, looks.count) {
        out[k] = judgement(*looks.noted(k));
        first = k + 1;
    }
}
