//! Settings that are refused: a file of them, or a value of `--set`.

use crate::files::missing;
use crate::near_word::question;
use command_paths::Options;
use file_lookup::{Refused, Source, refused_text};
use map_base::{NoMemory, Text};
use map_settings::SettingsWhy;
use message_texts::{SETTING_KEYS, SettingKey, list_of, plain, quoted};
use std::alloc::Global;
use std::rt::Files;

/// How many keys are named at most.
const TOLD: usize = 20;

/// The lines for settings that are refused for this reason.
pub(crate) fn bad_settings<R: Files + AllocGlobal>(
    rt: &R,
    options: &Options<'_>,
    why: &SettingsWhy,
) -> Result<String, NoMemory> {
    match why {
        SettingsWhy::Missing => missing(rt, options.settings.unwrap_or("")),
        _ => match refused_text(rt, options)? {
            Some(text) => in_text(rt.alloc(), &text, why),
            None => Ok(String::new(rt.alloc())),
        },
    }
}

/// The lines for a text of settings that is refused for this reason.
fn in_text(alloc: Global, text: &Refused<'_>, why: &SettingsWhy) -> Result<String, NoMemory> {
    let shown = name_of(alloc, text.source)?;
    let name = shown.as_str();
    let bytes = text.bytes.as_slice();
    match why {
        SettingsWhy::Missing => Ok(String::new(alloc)),
        SettingsWhy::NotToml => not_toml(alloc, name, bytes, form_of(text.source)),
        SettingsWhy::Key(key) => bad_key(alloc, name, bytes, key.as_str()),
    }
}

/// What a text of settings is called.
fn name_of(alloc: Global, source: Source<'_>) -> Result<String, NoMemory> {
    match source {
        Source::File(path) => quoted(alloc, path.as_bytes()),
        Source::Set(set) => {
            let shown = quoted(alloc, set.as_bytes())?;
            Ok(format!(in alloc; "--set {shown}")?)
        }
    }
}

/// How a text of settings is written.
fn form_of(source: Source<'_>) -> &'static str {
    match source {
        Source::File(_) => "a line is as: near = 500",
        Source::Set(_) => {
            "a number is set as by --set near=500, a word as by --set 'spread=\"auto\"', with both pairs of \
             quotes"
        }
    }
}

/// A text is no TOML: what its reader says.
fn not_toml(alloc: Global, name: &str, bytes: &[u8], form: &str) -> Result<String, NoMemory> {
    let Ok(toml) = str::from_utf8(bytes) else {
        return Ok(format!(in alloc; "octimap: {name} is not UTF-8\n")?);
    };
    match toml::table_from_str(alloc, toml) {
        Ok(_) => Ok(String::new(alloc)),
        Err(error) => {
            let message = error.message();
            Ok(format!(in alloc; "octimap: {name} is not TOML: {message}; {form}\n")?)
        }
    }
}

/// A key is unknown, or has a value that it doesn't take.
fn bad_key(alloc: Global, text: &str, bytes: &[u8], key: &str) -> Result<String, NoMemory> {
    match SettingKey::named(key) {
        Some(known) => bad_value(alloc, text, bytes, known),
        None => unknown_key(alloc, text, key),
    }
}

/// A key has a value that it doesn't take: the value, and what is due.
fn bad_value(alloc: Global, text: &str, bytes: &[u8], key: SettingKey) -> Result<String, NoMemory> {
    let name = key.name();
    let due = key.due();
    let value = value_of(alloc, bytes, name)?;
    Ok(format!(in alloc; "octimap: {text}: {name} = {value}, but {name} has to be {due}\n")?)
}

/// The value of a key as TOML writes it; empty where it has none.
pub(crate) fn value_of(alloc: Global, bytes: &[u8], name: &str) -> Result<String, NoMemory> {
    let Ok(text) = str::from_utf8(bytes) else {
        return Ok(String::new(alloc));
    };
    let Ok(table) = toml::table_from_str(alloc, text) else {
        return Ok(String::new(alloc));
    };
    match table.get(name) {
        Some(value) => {
            let value = format!(in alloc; "{value}")?;
            plain(alloc, value.as_bytes())
        }
        None => Ok(String::new(alloc)),
    }
}

/// A key that is not known: which one may be meant, and all that there are.
fn unknown_key(alloc: Global, text: &str, key: &str) -> Result<String, NoMemory> {
    let bad = quoted(alloc, key.as_bytes())?;
    let names = key_names(alloc)?;
    let near = question(alloc, key.as_bytes(), names.as_slice())?;
    let list = list_of(alloc, names.as_slice(), TOLD)?;
    Ok(format!(in alloc; "octimap: {text}: there is no key {bad}{near}; the keys are {list}\n")?)
}

/// The names of all keys.
fn key_names(alloc: Global) -> Result<Vec<Text>, NoMemory> {
    let mut names = Vec::new(alloc);
    for key in SETTING_KEYS {
        names.push(Text::of(alloc, key.name())?)?;
    }
    Ok(names)
}
