//! Reading a settings file.

ghost use Rattle.std.specs.Prelude.{◌≡◌};
ghost use Rattle.map_method.specs.Defaults.{default_choices};
ghost use Rattle.map_settings.specs.Tables.{entries};
ghost use Rattle.toml.specs.View.{table_view};
ghost use Rattle.map_settings.specs.Faults.{Names, Reads, ReadsTable};
ghost use Rattle.map_settings.specs.Outcome.{set_outcome, table_outcome, entries_outcome};

use crate::entries::change;
use crate::fault::{EntryFault, SettingsFault, SettingsWhy};
use map_base::Text;
use map_method::{Defaults, MapSettings};
use std::alloc::Global;
use toml::Table;

/// The settings that a file with these bytes makes over those of a command: those that its keys say, and the command's for
/// missing keys, whatever the key `method` names.
pub fn settings_over(
    alloc: Global,
    bytes: &[u8],
    defaults: Defaults,
) -> Result<MapSettings, SettingsFault>
    ensures { Reads result (set_outcome (default_choices defaults) bytes.now) }
{
    let base = MapSettings::standard(alloc, defaults)?;
    set_settings(alloc, bytes, base)
}

/// The settings that a text in TOML makes of these: its keys take the place of theirs. It is judged and refused as a
/// file of settings is.
pub fn set_settings(
    alloc: Global,
    bytes: &[u8],
    base: MapSettings,
) -> Result<MapSettings, SettingsFault>
    ensures { Reads result (set_outcome base bytes.now) }
{
    let table = table_of(alloc, bytes)?;
    settings_of(alloc, &table, base)
}

/// The table that a document in TOML is.
fn table_of(alloc: Global, bytes: &[u8]) -> Result<Table, SettingsFault>
    ensures { ReadsTable result (table_outcome bytes.now) }
{
    let text = match str::from_utf8(bytes) {
        Ok(text) => text,
        Err(_) => return Err(SettingsFault::Bad(SettingsWhy::NotToml)),
    };
    match toml::table_from_str(alloc, text) {
        Ok(table) => Ok(table),
        Err(fault) if fault.is_memory() => Err(SettingsFault::NoMemory),
        Err(_) => Err(SettingsFault::Bad(SettingsWhy::NotToml)),
    }
}

/// The settings that the entries of a table make of these.
fn settings_of(
    alloc: Global,
    table: &Table,
    base: MapSettings,
) -> Result<MapSettings, SettingsFault>
    ensures { Reads result (entries_outcome base (entries (table_view table.now))) }
{
    let mut settings = base;
    for (key, value) in table.iter() {
        match change(alloc, &mut settings, key.as_str(), value) {
            Ok(()) => {}
            Err(EntryFault::NoMemory) => return Err(SettingsFault::NoMemory),
            Err(EntryFault::Bad) => return Err(bad_key(alloc, key.as_str())),
        }
    }
    Ok(settings)
}

/// The refusal of a file for this key.
fn bad_key(alloc: Global, key: &str) -> SettingsFault
    ensures { Names result key.now }
{
    match Text::of(alloc, key) {
        Ok(key) => SettingsFault::Bad(SettingsWhy::Key(key)),
        Err(_) => SettingsFault::NoMemory,
    }
}
