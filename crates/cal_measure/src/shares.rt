//! Parts of a whole, to three digits.

ghost use Rattle.std.specs.Prelude.{◌≡◌, ◌≤◌, ◌^◌, option_map};
ghost use Rattle.cal_measure.specs.Services.{clocked};
ghost use Rattle.cal_measure.specs.Shares.{thousandths_of};

/// How many thousandths of a whole a part is, to the nearest, half of one upwards, up to the greatest
/// number; of no whole nothing. Exact for each part of a whole of at most 2^100.
pub fn thousandths(part: u128, whole: u128) -> Option<u64>
    ensures { whole ≤ 2 ^ 100 → result ≡ option_map clocked (thousandths_of part whole) }
{
    if whole == 0 {
        return None;
    }
    let (ones, rest) = (part / whole, part % whole);
    let below = rest.saturating_mul(2000).saturating_add(whole) / whole.saturating_mul(2);
    let all = ones.saturating_mul(1000).saturating_add(below);
    Some(all.min(u64::MAX as u128) as u64)
}
