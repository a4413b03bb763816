//! What a TOML table has at its keys: each function is one check, and fails with that check's
//! fault.

ghost use Rattle.std.specs.Prelude.{◌≡◌, map, true};
ghost use Rattle.toml.specs.View.{view, table_view, items_view};
ghost use Rattle.cal_machine.specs.Outcome.{Gives};
ghost use Rattle.cal_machine.specs.Fields.{value_at, integer_of, string_of, items_of, table_of};
ghost use Rattle.cal_machine.specs.Fields.{number_in, cores_in, kind_in, has_only, is_one_of};

use crate::fault::ConfigFault;
use crate::machine::Machine;
use crate::task::Kind;
use toml::{Table, Value};

/// Whether a table has no other keys than these.
pub fn has_only(table: &Table, keys: &[&str]) -> bool
    ensures { result ≡ has_only (map (λ key. key.now) keys.now) (table_view table.now) }
{
    for key in table.keys() {
        if !is_one_of(key.as_str(), keys) {
            return false;
        }
    }
    true
}

fn is_one_of(key: &str, keys: &[&str]) -> bool
    ensures { result ≡ is_one_of (map (λ key. key.now) keys.now) key.now }
{
    for known in keys {
        if *known == key {
            return true;
        }
    }
    false
}

/// What stands at a key.
pub fn value_at<'a>(table: &'a Table, key: &str) -> Result<&'a Value, ConfigFault>
    ensures { Gives (λ value. view value.now) result (value_at key.now (table_view table.now)) }
{
    match table.get(key) {
        Some(value) => Ok(value),
        None => Err(ConfigFault::MissingKey),
    }
}

/// The integer that a value is.
pub fn integer_of(value: &Value) -> Result<i64, ConfigFault>
    ensures { Gives (λ number. number) result (integer_of (view value.now)) }
{
    value.as_integer().ok_or(ConfigFault::WrongType)
}

/// The text that a value is.
pub fn string_of(value: &Value) -> Result<&str, ConfigFault>
    ensures { Gives (λ text. text.now) result (string_of (view value.now)) }
{
    match value.as_str() {
        Some(text) => Ok(text),
        None => Err(ConfigFault::WrongType),
    }
}

/// The values that an array has.
pub fn items_of(value: &Value) -> Result<&[Value], ConfigFault>
    ensures { Gives (λ items. items_view items.now) result (items_of (view value.now)) }
{
    match value.as_array() {
        Some(items) => Ok(items.as_slice()),
        None => Err(ConfigFault::WrongType),
    }
}

/// The table that a value is.
pub fn table_of(value: &Value) -> Result<&Table, ConfigFault>
    ensures { Gives (λ table. table_view table.now) result (table_of (view value.now)) }
{
    match value.as_table() {
        Some(table) => Ok(table),
        None => Err(ConfigFault::WrongType),
    }
}

/// A number from the least to the most.
pub fn number_in(given: i64, least: u64, most: u64) -> Result<u64, ConfigFault>
    ensures { Gives (λ number. number) result (number_in least most given) }
{
    match u64::try_from(given) {
        Ok(number) if least <= number && number <= most => Ok(number),
        _ => Err(ConfigFault::OutOfRange),
    }
}

/// A small number from the least to the most.
pub fn small_in(given: i64, least: u8, most: u8) -> Result<u8, ConfigFault>
    ensures { Gives (λ number. number) result (number_in least most given) }
{
    match u8::try_from(given) {
        Ok(number) if least <= number && number <= most => Ok(number),
        _ => Err(ConfigFault::OutOfRange),
    }
}

/// A machine of so many cores.
pub fn machine_in(given: i64) -> Result<Machine, ConfigFault>
    ensures { Gives (λ machine. machine) result (cores_in given) }
{
    let Ok(cores) = u8::try_from(given) else {
        return Err(ConfigFault::OutOfRange);
    };
    match Machine::new(cores) {
        Some(machine) => Ok(machine),
        None => Err(ConfigFault::OutOfRange),
    }
}

/// A kind by its word.
pub fn kind_in(text: &str) -> Result<Kind, ConfigFault>
    ensures { Gives (λ kind. kind) result (kind_in text.now) }
{
    if text == "lc" {
        return Ok(Kind::LatencyCritical);
    }
    if text == "be" {
        return Ok(Kind::BestEffort);
    }
    Err(ConfigFault::OutOfRange)
}
