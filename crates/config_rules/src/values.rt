//! What stands at a key of a document.

ghost use Rattle.std.specs.Prelude.{◌≡◌, ◌≤◌, true, false, Some, MatchOption, IfSome, IfOk, IfErr, option_map};
ghost use Rattle.std.specs.Str.{is_utf8};
ghost use Rattle.std.specs.Option.{option_copied};
ghost use Rattle.toml.specs.Data.{get_member};
ghost use Rattle.toml.specs.View.{items_view, table_view, view};
ghost use Rattle.config_rules.specs.Rules.{FailsRule};
ghost use Rattle.config_rules.specs.Values.{document, each_of, integer_between, name_at, name_of, names_at, names_in, number_at, number_in};

use att_base::{DeviceFault, NAME_BYTES};
use listed::{Items, Text};
use std::alloc::{AllocError, Global};
use toml::{Table, Value};

// The text that the bytes are.
fn text_of(bytes: &[u8]) -> Option<&str>
    ensures { MatchOption result (is_utf8 bytes.now ≡ false) (λ text. (is_utf8 bytes.now ≡ true) × (text.now ≡ bytes.now)) }
{
    match std::str::from_utf8(bytes) {
        Ok(text) => Some(text),
        Err(_) => None,
    }
}

/// The document that the bytes are. Rule 1 fails exactly where they are none.
pub fn read_document(alloc: Global, bytes: &[u8]) -> Result<Table, DeviceFault>
    ensures ok { IfOk result (λ table. document bytes.now ≡ Some (table_view table)) }
    ensures refused { IfErr result (FailsRule 1 (document bytes.now)) }
{
    let text = match text_of(bytes) {
        Some(text) => text,
        None => return Err(DeviceFault::Rule(1)),
    };
    match toml::table_from_str(alloc, text) {
        Ok(table) => Ok(table),
        Err(fault) => {
            if fault.is_memory() {
                return Err(DeviceFault::Memory);
            }
            Err(DeviceFault::Rule(1))
        }
    }
}

/// The value at this key; None where there is none.
pub fn value_at<'a>(table: &'a Table, key: &str) -> Option<&'a Value>
    ensures { option_map (λ value. view value.now) result ≡ get_member key.now (table_view table.now) }
{
    table.get(key)
}

// The integer, if it is from low to high.
fn number_in(low: u64, high: u64, integer: i64) -> Option<u64>
    ensures { result ≡ number_in low high integer }
{
    if integer < 0 {
        return None;
    }
    let number = integer.cast_unsigned();
    if low <= number && number <= high {
        return Some(number);
    }
    None
}

/// The value as an integer from `low` to `high`; None where it is none.
#[tactic(auto, unfolding(crate::specs::Values::integer_between))]
pub fn integer_between(value: &Value, low: u64, high: u64) -> Option<u64>
    ensures value { result ≡ integer_between low high (view value.now) }
    ensures high { IfSome result (λ number. number ≤ high) }
{
    match value.as_integer() {
        Some(integer) => number_in(low, high, integer),
        None => None,
    }
}

/// The integer from `low` to `high` at this key; None where there is none.
#[tactic(auto, unfolding(crate::specs::Values::number_at, crate::specs::Values::integer_between))]
pub fn number_at(table: &Table, key: &str, low: u64, high: u64) -> Option<u64>
    ensures value { result ≡ number_at key.now (table_view table.now) low high }
    ensures low { IfSome result (λ number. low ≤ number) }
    ensures high { IfSome result (λ number. number ≤ high) }
{
    match value_at(table, key) {
        Some(value) => integer_between(value, low, high),
        None => None,
    }
}

// The value as a file name.
#[tactic(auto, unfolding(crate::specs::Values::name_of))]
fn name_of(value: &Value) -> Option<&str>
    ensures { option_copied result ≡ name_of (view value.now) }
{
    let text = match value.as_str() {
        Some(text) => text,
        None => return None,
    };
    if text.is_empty() || text.len() > NAME_BYTES {
        return None;
    }
    Some(text)
}

/// The file name at this key, a text of 1 to 255 bytes; None where there is none.
#[tactic(auto, unfolding(crate::specs::Values::name_at))]
pub fn name_at<'a>(table: &'a Table, key: &str) -> Option<&'a str>
    ensures { option_copied result ≡ name_at key.now (table_view table.now) }
{
    match value_at(table, key) {
        Some(value) => name_of(value),
        None => None,
    }
}

// The values, each a file name.
fn names_of(alloc: Global, values: &[Value]) -> Result<Option<Items<Text>>, AllocError>
    ensures { IfOk result (λ names. names ≡ each_of name_of (items_view values.now)) }
{
    let mut names = Items::new(alloc);
    for value in values {
        let Some(name) = name_of(value) else {
            return Ok(None);
        };
        let name = Text::from_str(alloc, name)?;
        names.push(name)?;
    }
    Ok(Some(names))
}

/// The value as an array of `low` to `high` file names; None where it is none.
#[tactic(auto, unfolding(crate::specs::Values::names_in))]
pub fn names_in(
    alloc: Global,
    value: &Value,
    low: usize,
    high: usize,
) -> Result<Option<Items<Text>>, AllocError>
    ensures { IfOk result (λ names. names ≡ names_in low high (view value.now)) }
{
    let Some(array) = value.as_array() else {
        return Ok(None);
    };
    let Some(names) = names_of(alloc, array.as_slice())? else {
        return Ok(None);
    };
    if names.len() < low || names.len() > high {
        return Ok(None);
    }
    Ok(Some(names))
}

/// The array of `low` to `high` file names at this key; None where there is none.
#[tactic(auto, unfolding(crate::specs::Values::names_at))]
pub fn names_at(
    alloc: Global,
    table: &Table,
    key: &str,
    low: usize,
    high: usize,
) -> Result<Option<Items<Text>>, AllocError>
    ensures { IfOk result (λ names. names ≡ names_at key.now (table_view table.now) low high) }
{
    match value_at(table, key) {
        Some(value) => names_in(alloc, value, low, high),
        None => Ok(None),
    }
}
