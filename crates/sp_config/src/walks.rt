// The first key at fault: three walks over the rows of keys, at the top first, and then table by table.
ghost use Rattle.std.specs.Prelude.{◌≡◌, ◌++◌, map, option_map};
ghost use Rattle.toml.specs.View.{table_view};
ghost use Rattle.sp_config.specs.Keys.{keys_of, row_of};
ghost use Rattle.sp_config.specs.Values.{tables_at};
ghost use Rattle.sp_config.specs.Walks.{first_among, first_in, first_wrong, is_key, missing_in, out_of_range_in, unknown_in};

use crate::keys::{Form, Key, Ranges, keys_of};
use crate::values::{array_at, fits, value_at};
use toml::Table;

/// What may be wrong with a key.
#[derive(Clone, Copy)]
pub enum Wrong {
    /// No table of this kind has it.
    Unknown,
    /// It must be there, and isn't.
    Missing,
    /// Its value is of another type, or out of its range, where the rest of the text says this of its ranges.
    Range(Ranges),
}

/// The first key that is wrong in this way: at the top, then table by table.
pub fn first_wrong(wrong: Wrong, form: Form, table: &Table) -> Option<&str>
    ensures { option_map (λ key. key.now) result ≡ first_wrong wrong form (table_view table.now) }
{
    if let Some(key) = first_in(wrong, form, table) {
        return Some(key);
    }
    match form {
        Form::Config => first_among(wrong, Form::Peer, table, "peer"),
        Form::Draft => match first_among(wrong, Form::Node, table, "node") {
            Some(key) => Some(key),
            None => first_among(wrong, Form::Edge, table, "edge"),
        },
        _ => None,
    }
}

/// The first key that is wrong in the tables of the array at a key.
fn first_among<'a>(wrong: Wrong, form: Form, table: &'a Table, key: &str) -> Option<&'a str>
    ensures { option_map (λ key. key.now) result ≡ first_among wrong (keys_of form) (tables_at key.now (table_view table.now)) }
{
    'values: for value in array_at(table, key) {
        if let Some(inside) = value.as_table() {
            if let Some(found) = first_in(wrong, form, inside) {
                return Some(found);
            }
        }
    }
    None
}

/// The first key that is wrong in this table alone.
fn first_in(wrong: Wrong, form: Form, table: &Table) -> Option<&str>
    ensures { option_map (λ key. key.now) result ≡ first_in wrong (keys_of form) (table_view table.now) }
{
    let (first, rest) = keys_of(form);
    match wrong {
        Wrong::Unknown => unknown_in(first, rest, table),
        Wrong::Missing => match missing_in(first, table) {
            Some(key) => Some(key),
            None => missing_in(rest, table),
        },
        Wrong::Range(ranges) => match out_of_range_in(ranges, first, table) {
            Some(key) => Some(key),
            None => out_of_range_in(ranges, rest, table),
        },
    }
}

/// The least key by its bytes that isn't in these rows.
fn unknown_in<'a>(first: &[Key], rest: &[Key], table: &'a Table) -> Option<&'a str>
    ensures { option_map (λ key. key.now) result ≡ unknown_in (map row_of first.now ++ map row_of rest.now) (table_view table.now) }
{
    'keys: for (key, _value) in table.iter() {
        let name = key.as_str();
        if !is_key(first, name) && !is_key(rest, name) {
            return Some(name);
        }
    }
    None
}

fn is_key(rows: &[Key], name: &str) -> bool
    ensures { result ≡ is_key (map row_of rows.now) name.now }
{
    'rows: for row in rows {
        if row.name() == name {
            return true;
        }
    }
    false
}

/// The first row whose key must be there and isn't.
fn missing_in(rows: &[Key], table: &Table) -> Option<&'static str>
    ensures { option_map (λ key. key.now) result ≡ missing_in (map row_of rows.now) (table_view table.now) }
{
    'rows: for row in rows {
        if let Key::Must(name, _) = *row {
            if value_at(table, name).is_none() {
                return Some(name);
            }
        }
    }
    None
}

/// The first row whose key is there, with a value that isn't of its shape.
fn out_of_range_in(ranges: Ranges, rows: &[Key], table: &Table) -> Option<&'static str>
    ensures { option_map (λ key. key.now) result ≡ out_of_range_in ranges (map row_of rows.now) (table_view table.now) }
{
    'rows: for row in rows {
        if let Some(value) = value_at(table, row.name()) {
            if !fits(ranges, row.shape(), value) {
                return Some(row.name());
            }
        }
    }
    None
}
