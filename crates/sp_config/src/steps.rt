// The steps in which both texts are read: the table of a text, and the refusal of its first key that is wrong in some way.
ghost use Rattle.std.specs.Prelude.{◌≡◌};
ghost use Rattle.toml.specs.View.{table_view};
ghost use Rattle.sp_config.specs.Readings.{GivesInMemory, refusal_of, refused_by, refused_keys, table_of, total};

use crate::ConfigRefused;
use crate::keys::Form;
use crate::walks::{Wrong, first_wrong};
use sp_base::Bytes;
use sp_topology::LmsHeight;
use std::alloc::Global;
use toml::Table;

/// The table of a text.
pub fn table_of(alloc: Global, text: &str) -> Result<Table, ConfigRefused>
    ensures { GivesInMemory table_view result (table_of text.now) }
{
    match toml::table_from_str(alloc, text) {
        Ok(table) => Ok(table),
        Err(error) if error.is_memory() => Err(ConfigRefused::Memory),
        Err(_) => Err(ConfigRefused::Toml),
    }
}

/// Refuses the first key that is wrong in this way.
pub fn refuse(alloc: Global, wrong: Wrong, form: Form, table: &Table) -> Result<(), ConfigRefused>
    ensures { GivesInMemory (λ none. none) result (refused_by wrong form (table_view table.now)) }
{
    match first_wrong(wrong, form, table) {
        Some(key) => Err(refusal_of(wrong, Bytes::copy(alloc, key.as_bytes())?)),
        None => Ok(()),
    }
}

/// Refuses the first unknown key, and then the first missing one.
pub fn refuse_keys(alloc: Global, form: Form, table: &Table) -> Result<(), ConfigRefused>
    ensures { GivesInMemory (λ none. none) result (refused_keys form (table_view table.now)) }
{
    refuse(alloc, Wrong::Unknown, form, table)?;
    refuse(alloc, Wrong::Missing, form, table)
}

fn refusal_of(wrong: Wrong, key: Bytes) -> ConfigRefused
    ensures { result ≡ refusal_of wrong key }
{
    match wrong {
        Wrong::Unknown => ConfigRefused::Unknown(key),
        Wrong::Missing => ConfigRefused::Missing(key),
        Wrong::Range(_) => ConfigRefused::Range(key),
    }
}

/// How many messages a key of two levels of this height signs.
pub fn total(height: LmsHeight) -> u64
    ensures { result ≡ total height }
{
    match height {
        LmsHeight::Five => 1 << 10,
        LmsHeight::Ten => 1 << 20,
    }
}
