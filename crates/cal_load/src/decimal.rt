//! Numbers with a point, exactly.

ghost use Rattle.std.specs.Prelude.{◌≡◌, ◌≤◌, ◌-◌, ◌^◌, IfSome};
ghost use Rattle.cal_load.specs.Decimals.{IsDecimal, Spells, SpellsPart};

/// The number that some digits are; nothing where another letter stands among them, or none does.
pub(crate) fn number_of(word: &str) -> Option<u64>
    ensures { IfSome result (Spells word.now) }
{
    // `parse` takes a plus too
    if word.starts_with('+') {
        return None;
    }
    word.parse::<u64>().ok()
}

/// How many thousandths so many digits after the point are.
fn part_of(digits: &str) -> Option<u64>
    ensures { IfSome result (SpellsPart 3 digits.now) }
{
    let part = number_of(digits)?;
    match digits.len() {
        1 => part.checked_mul(100),
        2 => part.checked_mul(10),
        3 => Some(part),
        _ => None,
    }
}

/// A number in thousandths: digits, and up to three more after a point.
pub fn thousandths_of(word: &str) -> Option<u64>
    ensures { IfSome result (IsDecimal 3 word.now) }
{
    match word.split_once('.') {
        None => number_of(word)?.checked_mul(1000),
        Some((whole, part)) => {
            let whole = number_of(whole)?.checked_mul(1000)?;
            whole.checked_add(part_of(part)?)
        }
    }
}

/// The power of ten that makes digits after a point billionths, by how many digits there are.
fn power_after(digits: usize) -> Option<u64>
    ensures few { IfSome result (λ _. digits ≤ 9) }
    ensures power { IfSome result (λ power. power ≡ 10 ^ (9 - digits)) }
{
    match digits {
        1 => Some(100_000_000),
        2 => Some(10_000_000),
        3 => Some(1_000_000),
        4 => Some(100_000),
        5 => Some(10_000),
        6 => Some(1_000),
        7 => Some(100),
        8 => Some(10),
        9 => Some(1),
        _ => None,
    }
}

/// How many billionths so many digits after the point are.
fn billionths_after(digits: &str) -> Option<u64>
    ensures { IfSome result (SpellsPart 9 digits.now) }
{
    number_of(digits)?.checked_mul(power_after(digits.len())?)
}

/// A number in billionths: digits, and up to nine more after a point.
pub fn billionths_of(word: &str) -> Option<u128>
    ensures { IfSome result (IsDecimal 9 word.now) }
{
    match word.split_once('.') {
        None => u128::from(number_of(word)?).checked_mul(1_000_000_000),
        Some((whole, part)) => {
            let whole = u128::from(number_of(whole)?).checked_mul(1_000_000_000)?;
            whole.checked_add(u128::from(billionths_after(part)?))
        }
    }
}
