//! Which keys a user set, and to what.

use crate::bad_settings::value_of;
use command_paths::{Options, next_set};
use command_words::Command;
use file_lookup::bytes_at;
use map_base::NoMemory;
use map_method::Defaults;
use std::alloc::Global;
use std::rt::Files;

/// Whether the user set a key, in the file of settings or by `--set`.
pub(crate) fn is_set<R: Files + AllocGlobal>(
    rt: &R,
    options: &Options<'_>,
    key: &str,
) -> Result<bool, NoMemory> {
    let value = set_value(rt, options, key)?;
    Ok(!value.is_empty())
}

/// Whether settings hold like those of `map` where the user sets none: by the key `method`, or else by the command.
pub(crate) fn is_map<R: Files + AllocGlobal>(
    rt: &R,
    options: &Options<'_>,
) -> Result<bool, NoMemory> {
    let method = set_value(rt, options, "method")?;
    if method.is_empty() {
        return Ok(options.defaults == Defaults::Map);
    }
    Ok(method.as_str() == "\"map\"")
}

/// Whether the command is `make`, and `map` in its place would do as `map` does: no key says otherwise.
pub(crate) fn is_plain_make<R: Files + AllocGlobal>(
    rt: &R,
    command: &Command<'_>,
    options: &Options<'_>,
) -> Result<bool, NoMemory> {
    match command {
        Command::Make { .. } => {
            let is_chosen = is_set(rt, options, "method")?;
            Ok(options.defaults == Defaults::Make && !is_chosen)
        }
        _ => Ok(false),
    }
}

/// What the user set a key to, as TOML writes it: by the last `--set` that has the key, or else in the file of
/// settings. Empty where the key is not set.
pub(crate) fn set_value<R: Files + AllocGlobal>(
    rt: &R,
    options: &Options<'_>,
    key: &str,
) -> Result<String, NoMemory> {
    let alloc = rt.alloc();
    let mut last = "";
    let mut rest = options.words;
    'sets: while let Some((set, behind)) = next_set(rest) {
        last = later_with(alloc, last, set, key)?;
        rest = behind;
    }
    if last.is_empty() {
        return in_file(rt, options, key);
    }
    value_of(alloc, last.as_bytes(), key)
}

/// The later of two texts of settings where it has the key, or else the earlier one.
fn later_with<'a>(
    alloc: Global,
    earlier: &'a str,
    later: &'a str,
    key: &str,
) -> Result<&'a str, NoMemory> {
    let value = value_of(alloc, later.as_bytes(), key)?;
    if value.is_empty() {
        Ok(earlier)
    } else {
        Ok(later)
    }
}

/// What the file of settings sets a key to; empty where there is none, or the key is not set in it.
fn in_file<R: Files + AllocGlobal>(
    rt: &R,
    options: &Options<'_>,
    key: &str,
) -> Result<String, NoMemory> {
    let alloc = rt.alloc();
    let Some(path) = options.settings else {
        return Ok(String::new(alloc));
    };
    match bytes_at(rt, path)? {
        Some(bytes) => value_of(alloc, bytes.as_slice(), key),
        None => Ok(String::new(alloc)),
    }
}
