//! How long times are, in units and in turns, exactly.

ghost use Rattle.std.specs.Prelude.{◌≡◌, ◌<◌, ◌/◌, IfOk, IfSome};
ghost use Rattle.cal_load.specs.Said.{EndsInUnit, IsUnit, SaysLength, SaysScale, SaysTime};
ghost use Rattle.cal_load.specs.Logs.{IsScale, turns_over};

use crate::decimal::billionths_of;
use crate::fault::{LoadFault, Why, refused};

/// The units of a log's numbers.
pub const UNITS: [&str; 4] = ["ns", "us", "ms", "s"];

/// How the numbers of a log become turns.
#[derive(Clone, Copy, Debug, PartialEq, Eq)]
pub struct LogScale {
    /// How many nanoseconds the unit of the numbers has.
    unit: u64,
    /// How long a turn is, in billionths of a nanosecond.
    turn: u128,
}

/// How many nanoseconds a unit has.
fn nanoseconds_in(unit: &str) -> Option<u64>
    ensures { IfSome result (IsUnit unit.now) }
{
    match unit {
        "ns" => Some(1),
        "us" => Some(1_000),
        "ms" => Some(1_000_000),
        "s" => Some(1_000_000_000),
        _ => None,
    }
}

/// A number and its unit, as `10us`.
fn with_unit(word: &str) -> Option<(&str, u64)>
    ensures { IfSome result (λ found. EndsInUnit word.now found.0.now found.1) }
{
    if let Some(number) = word.strip_suffix("ns") {
        Some((number, 1))
    } else if let Some(number) = word.strip_suffix("us") {
        Some((number, 1_000))
    } else if let Some(number) = word.strip_suffix("ms") {
        Some((number, 1_000_000))
    } else {
        Some((word.strip_suffix("s")?, 1_000_000_000))
    }
}

/// The time that a number of a unit is, in billionths of a nanosecond.
fn time_in(number: &str, unit: u64) -> Option<u128>
    ensures { IfSome result (SaysTime unit number.now) }
{
    billionths_of(number)?.checked_mul(u128::from(unit))
}

/// The length that a word names, as `10us`.
fn length_of(word: &str) -> Option<u128>
    ensures { IfSome result (SaysLength word.now) }
{
    let (number, unit) = with_unit(word)?;
    time_in(number, unit)
}

/// How a log in this unit becomes turns of this length, a number and a unit.
pub fn scale_of<'a>(unit: &'a str, turn: &'a str) -> Result<LogScale, LoadFault<'a>>
    ensures scale { IfOk result IsScale }
    ensures says { IfOk result (SaysScale unit.now turn.now) }
{
    let Some(nanoseconds) = nanoseconds_in(unit) else {
        return Err(refused("--unit", unit, Why::NotAUnit));
    };
    match length_of(turn) {
        Some(length) if length > 0 => Ok(LogScale {
            unit: nanoseconds,
            turn: length,
        }),
        _ => Err(refused("--turn", turn, Why::NotALength)),
    }
}

impl LogScale {
    /// The time that a field names, in billionths of a nanosecond.
    pub(crate) fn time_of(self, field: &[u8]) -> Option<u128>
        ensures { IfSome result (SaysTime self.unit field.now) }
    {
        time_in(str::from_utf8(field).ok()?, self.unit)
    }

    /// In which turn a time falls, from 0.
    pub(crate) fn turn_at(self, time: u128) -> u128
        requires { IsScale self }
        ensures { result ≡ time / self.turn }
    {
        time / self.turn
    }

    /// How many turns a time takes: rounded up, and at least one.
    pub(crate) fn turns_over(self, time: u128) -> u128
        requires { IsScale self }
        ensures { result ≡ turns_over self.turn time }
    {
        time.div_ceil(self.turn).max(1)
    }
}
