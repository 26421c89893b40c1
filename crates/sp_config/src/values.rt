// The value at a key of a table, and whether it is what the key's row wants.
ghost use Rattle.std.specs.Prelude.{◌≡◌, ◌<◌, ◌^◌, option_map};
ghost use Rattle.toml.specs.Data.{get_member};
ghost use Rattle.toml.specs.View.{items_view, table_view, view};
ghost use Rattle.sp_config.specs.Values.{are_tables, fits, items_at, nothing_said, number_at, number_or, text_at};

use crate::digits::are_digits;
use crate::keys::{Ranges, Shape};
use sp_base::max_nodes;
use toml::{Table, Value};

/// The value at a key.
pub fn value_at<'a>(table: &'a Table, key: &str) -> Option<&'a Value>
    ensures { option_map (λ v. view v.now) result ≡ get_member key.now (table_view table.now) }
{
    table.get(key)
}

/// The integer at a key, 0 where there is none.
pub fn number_at(table: &Table, key: &str) -> u64
    ensures { result ≡ number_at key.now (table_view table.now) }
{
    let Some(value) = value_at(table, key) else {
        return 0;
    };
    match value.as_integer() {
        Some(number) if number >= 0 => number as u64,
        _ => 0,
    }
}

pub fn byte_at(table: &Table, key: &str) -> u8
    requires { number_at key.now (table_view table.now) < 2 ^ 8 }
    ensures { result ≡ number_at key.now (table_view table.now) }
{
    number_at(table, key) as u8
}

pub fn short_at(table: &Table, key: &str) -> u16
    requires { number_at key.now (table_view table.now) < 2 ^ 16 }
    ensures { result ≡ number_at key.now (table_view table.now) }
{
    number_at(table, key) as u16
}

pub fn word_at(table: &Table, key: &str) -> u32
    requires { number_at key.now (table_view table.now) < 2 ^ 32 }
    ensures { result ≡ number_at key.now (table_view table.now) }
{
    number_at(table, key) as u32
}

/// The integer at a key, or this one where the key is absent.
pub fn short_or(absent: u16, table: &Table, key: &str) -> u16
    requires { number_at key.now (table_view table.now) < 2 ^ 16 }
    ensures { result ≡ number_or absent (get_member key.now (table_view table.now)) }
{
    match value_at(table, key) {
        Some(_) => short_at(table, key),
        None => absent,
    }
}

/// The text at a key, empty where there is none.
pub fn text_at<'a>(table: &'a Table, key: &str) -> &'a str
    ensures { result.now ≡ text_at key.now (table_view table.now) }
{
    let Some(value) = value_at(table, key) else {
        return "";
    };
    match value.as_str() {
        Some(text) => text,
        None => "",
    }
}

/// The values of the array at a key, none where there is no array.
pub fn array_at<'a>(table: &'a Table, key: &str) -> &'a [Value]
    ensures { items_view result.now ≡ items_at key.now (table_view table.now) }
{
    let Some(value) = value_at(table, key) else {
        return &[];
    };
    match value.as_array() {
        Some(values) => values.as_slice(),
        None => &[],
    }
}

/// Whether a value is of this shape, where the rest of the text says this of its ranges.
pub fn fits(ranges: Ranges, shape: Shape, value: &Value) -> bool
    ensures { result ≡ fits ranges shape (view value.now) }
{
    match shape {
        Shape::Number(low, high) => is_number(low, high, value),
        Shape::Height => is_number(5, 5, value) || is_number(10, 10, value),
        Shape::Index => is_number(0, ranges.index, value),
        Shape::Id => is_number(1, u64::from(max_nodes(ranges.format)), value),
        Shape::Digits(bytes) => has_digits(bytes, value),
        Shape::AnyDigits => is_digits(value),
        Shape::Tables => is_tables(value),
    }
}

/// Whether a value is an integer between these two.
fn is_number(low: u64, high: u64, value: &Value) -> bool
    ensures { result ≡ fits nothing_said (Shape.Number low high) (view value.now) }
{
    match value.as_integer() {
        Some(number) => number >= 0 && low <= number as u64 && number as u64 <= high,
        None => false,
    }
}

/// Whether a value is the digits of so many bytes.
fn has_digits(bytes: usize, value: &Value) -> bool
    ensures { result ≡ fits nothing_said (Shape.Digits bytes) (view value.now) }
{
    match value.as_str() {
        Some(text) => are_digits(text) && text.len() / 2 == bytes,
        None => false,
    }
}

/// Whether a value is the digits of any bytes.
fn is_digits(value: &Value) -> bool
    ensures { result ≡ fits nothing_said Shape.AnyDigits (view value.now) }
{
    match value.as_str() {
        Some(text) => are_digits(text),
        None => false,
    }
}

/// Whether a value is an array of tables.
fn is_tables(value: &Value) -> bool
    ensures { result ≡ fits nothing_said Shape.Tables (view value.now) }
{
    match value.as_array() {
        Some(values) => are_tables(values),
        None => false,
    }
}

/// Whether all of the values are tables.
fn are_tables(values: &[Value]) -> bool
    ensures { result ≡ are_tables (items_view values.now) }
{
    'values: for value in values {
        if !value.is_table() {
            return false;
        }
    }
    true
}
