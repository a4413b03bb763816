//! Numbers in plain decimal digits.

ghost use Rattle.std.specs.Prelude.{◌≡◌, ◌≤◌, ◌<◌, ◌+◌, ◌*◌, length, IfSome};
ghost use Rattle.cal_trace.specs.Rows.Number.{spelled_number};

/// The number that a field spells: digits with no zero in front, below 2 to the 64.
pub(crate) fn number(field: &[u8]) -> Option<u64>
    ensures { result ≡ spelled_number field.now }
{
    match field {
        [] | [b'0', _, ..] => None,
        _ if field.len() <= FEW_DIGITS => few_digits(field),
        _ => digits(field),
    }
}

/// So many digits spell a number below 2 to the 64, whatever they are.
const FEW_DIGITS: usize = 19;

/// The number that few digits spell, without looking whether it grows too great.
fn few_digits(field: &[u8]) -> Option<u64>
    requires { length field.now ≤ 19 }
    ensures { result ≡ digits_of 0 field.now }
{
    let mut number = 0;
    for &digit in field {
        number = push_to_small(number, digit)?;
    }
    Some(number)
}

fn push_to_small(number: u64, digit: u8) -> Option<u64>
    requires { number < 1844674407370955161 }
    ensures pushed { result ≡ with_digit number digit }
    ensures grows { IfSome result (λ more. more < number * 10 + 10) }
{
    if !digit.is_ascii_digit() {
        return None;
    }
    Some(number * 10 + (digit - b'0') as u64)
}

ghost use Rattle.cal_trace.specs.Rows.Number.{digits_of};

fn digits(field: &[u8]) -> Option<u64>
    ensures { result ≡ digits_of 0 field.now }
{
    let mut number = 0;
    for &digit in field {
        number = push_digit(number, digit)?;
    }
    Some(number)
}

ghost use Rattle.cal_trace.specs.Rows.Number.{with_digit};

fn push_digit(number: u64, digit: u8) -> Option<u64>
    ensures { result ≡ with_digit number digit }
{
    if !digit.is_ascii_digit() {
        return None;
    }
    number.checked_mul(10)?.checked_add((digit - b'0') as u64)
}
