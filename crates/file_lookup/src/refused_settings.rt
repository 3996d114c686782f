//! The text of settings that is refused: a file of them, or a value of `--set`.

use crate::paths::bytes_at;
use command_paths::{Options, next_set};
use map_base::NoMemory;
use map_method::Defaults;
use map_settings::{SettingsFault, settings_over};
use std::alloc::Global;
use std::rt::Files;

/// Where a text of settings stands.
#[derive(Clone, Copy)]
pub enum Source<'a> {
    /// In the file at this path.
    File(&'a str),
    /// In the words of the command, as this value of `--set`.
    Set(&'a str),
}

/// A text of settings that is refused.
#[derive(Drop)]
pub struct Refused<'a> {
    /// Where it stands.
    pub source: Source<'a>,
    /// What it says.
    pub bytes: Vec<u8>,
}

/// The first text of settings that is refused: the file, or a value of `--set`.
pub fn refused_text<'a, R: Files + AllocGlobal>(
    rt: &R,
    options: &Options<'a>,
) -> Result<Option<Refused<'a>>, NoMemory> {
    let alloc = rt.alloc();
    let Some(path) = options.settings else {
        return refused_set(alloc, options);
    };
    let Some(bytes) = bytes_at(rt, path)? else {
        return Ok(None);
    };
    if !is_refused(alloc, bytes.as_slice(), options.defaults)? {
        return refused_set(alloc, options);
    }
    let source = Source::File(path);
    Ok(Some(Refused { source, bytes }))
}

/// The first value of `--set` that is refused.
fn refused_set<'a>(alloc: Global, options: &Options<'a>) -> Result<Option<Refused<'a>>, NoMemory> {
    let mut rest = options.words;
    'sets: while let Some((set, behind)) = next_set(rest) {
        if is_refused(alloc, set.as_bytes(), options.defaults)? {
            return Ok(Some(refused_as(alloc, set)?));
        }
        rest = behind;
    }
    Ok(None)
}

/// This value of `--set`.
fn refused_as<'a>(alloc: Global, set: &'a str) -> Result<Refused<'a>, NoMemory> {
    Ok(Refused {
        source: Source::Set(set),
        bytes: set.as_bytes().to_vec(alloc)?,
    })
}

/// Whether a text of settings is refused.
fn is_refused(alloc: Global, bytes: &[u8], defaults: Defaults) -> Result<bool, NoMemory> {
    match settings_over(alloc, bytes, defaults) {
        Ok(_) => Ok(false),
        Err(SettingsFault::Bad(_)) => Ok(true),
        Err(SettingsFault::NoMemory) => Err(NoMemory),
    }
}
