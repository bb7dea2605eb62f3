//! What the keys of a table say.

ghost use Rattle.std.specs.Prelude.{◌≡◌, ◌≤◌, None, IfOk, option_map};
ghost use Rattle.toml.specs.Data.{get_member, no_items};
ghost use Rattle.toml.specs.View.{view, table_view};
ghost use Rattle.toml_fields.specs.Fields.{flag, list, lent, number, optional, required, section, seen_list};
ghost use Rattle.toml_fields.specs.Fields.{seen_section, text};

use crate::fault::FieldFault;
use toml::{Table, Value};

/// What stands at a key of a table.
fn value_at<'a>(table: &'a Table, key: &str) -> Option<&'a Value>
    ensures { option_map (λ value. view value.now) result ≡ get_member key.now (table_view table.now) }
{
    table.get(key)
}

/// The text of a value; `OtherKind` where it is none.
pub fn text_of(value: &Value) -> Result<&str, FieldFault>
    ensures { lent result ≡ text (view value.now) }
{
    match value.as_str() {
        Some(text) => Ok(text),
        None => Err(FieldFault::OtherKind),
    }
}

/// The whole number of a value; `OtherKind` where it is none, `NotAllowed` where it is not from `low` to `high`.
fn number_of(value: &Value, low: u32, high: u32) -> Result<u32, FieldFault>
    ensures value { result ≡ number low high (view value.now) }
    ensures within { IfOk result (λ number. (low ≤ number) × (number ≤ high)) }
{
    let Some(integer) = value.as_integer() else {
        return Err(FieldFault::OtherKind);
    };
    match u32::try_from(integer) {
        Ok(number) if low <= number && number <= high => Ok(number),
        _ => Err(FieldFault::NotAllowed),
    }
}

/// The text at a key that has to be there: `Missing` where it is not, `OtherKind` where its value is no text.
pub fn text_at<'a>(table: &'a Table, key: &str) -> Result<&'a str, FieldFault>
    ensures { lent result ≡ required text key.now (table_view table.now) }
{
    match value_at(table, key) {
        Some(value) => text_of(value),
        None => Err(FieldFault::Missing),
    }
}

/// The text at a key, or `default` where the key is missing: `OtherKind` where its value is no text.
pub fn text_or<'a>(table: &'a Table, key: &str, default: &'a str) -> Result<&'a str, FieldFault>
    ensures { lent result ≡ optional text default.now key.now (table_view table.now) }
{
    match value_at(table, key) {
        Some(value) => text_of(value),
        None => Ok(default),
    }
}

/// The whole number at a key that has to be there: `Missing` where it is not, `OtherKind` where its value is no whole
/// number, `NotAllowed` where the number is not from `low` to `high`.
pub fn number_at(table: &Table, key: &str, low: u32, high: u32) -> Result<u32, FieldFault>
    ensures value { result ≡ required (number low high) key.now (table_view table.now) }
    ensures within { IfOk result (λ number. (low ≤ number) × (number ≤ high)) }
{
    match value_at(table, key) {
        Some(value) => number_of(value, low, high),
        None => Err(FieldFault::Missing),
    }
}

/// The whole number at a key, or `default` where the key is missing: `OtherKind` where its value is no whole number,
/// `NotAllowed` where the number is not from `low` to `high`.
pub fn number_or(
    table: &Table,
    key: &str,
    low: u32,
    high: u32,
    default: u32,
) -> Result<u32, FieldFault>
    ensures value { result ≡ optional (number low high) default key.now (table_view table.now) }
    ensures within { low ≤ default → default ≤ high → IfOk result (λ number. (low ≤ number) × (number ≤ high)) }
{
    match value_at(table, key) {
        Some(value) => number_of(value, low, high),
        None => Ok(default),
    }
}

/// The truth value at a key, or `default` where the key is missing: `OtherKind` where its value is none.
pub fn flag_or(table: &Table, key: &str, default: bool) -> Result<bool, FieldFault>
    ensures { result ≡ optional flag default key.now (table_view table.now) }
{
    let Some(value) = value_at(table, key) else {
        return Ok(default);
    };
    match value.as_bool() {
        Some(flag) => Ok(flag),
        None => Err(FieldFault::OtherKind),
    }
}

/// The values of the list at a key, none where the key is missing: `OtherKind` where its value is no list.
pub fn list_or_empty<'a>(table: &'a Table, key: &str) -> Result<&'a [Value], FieldFault>
    ensures { seen_list result ≡ optional list no_items key.now (table_view table.now) }
{
    let Some(value) = value_at(table, key) else {
        return Ok(&[]);
    };
    match value.as_array() {
        Some(values) => Ok(values),
        None => Err(FieldFault::OtherKind),
    }
}

/// The table at a key, `None` where the key is missing: `OtherKind` where its value is no table.
pub fn table_or_none<'a>(table: &'a Table, key: &str) -> Result<Option<&'a Table>, FieldFault>
    ensures { seen_section result ≡ optional section None key.now (table_view table.now) }
{
    let Some(value) = value_at(table, key) else {
        return Ok(None);
    };
    match value.as_table() {
        Some(table) => Ok(Some(table)),
        None => Err(FieldFault::OtherKind),
    }
}
