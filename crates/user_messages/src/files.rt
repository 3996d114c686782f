//! Files that are not there, can't be read, or can't be written.

use command_words::Command;
use disk_files::WriteError;
use file_lookup::{is_folder, read_fault};
use map_base::NoMemory;
use message_texts::quoted;
use std::alloc::Global;
use std::rt::Files;

/// A file that is needed is not there.
pub(crate) fn missing<R: Files + AllocGlobal>(rt: &R, path: &str) -> Result<String, NoMemory> {
    let alloc = rt.alloc();
    let shown = quoted(alloc, path.as_bytes())?;
    if path.is_empty() {
        return Ok(format!(in alloc; "octimap: a path is an empty word\n")?);
    }
    Ok(format!(in alloc; "octimap: there is no file {shown}\n")?)
}

/// A file can't be read.
pub(crate) fn unread<R: Files + AllocGlobal>(rt: &R, path: &str) -> Result<String, NoMemory> {
    let alloc = rt.alloc();
    let shown = quoted(alloc, path.as_bytes())?;
    if is_folder(rt, path) {
        return Ok(format!(in alloc; "octimap: {shown} is a folder, and a file is due there\n")?);
    }
    match read_fault(rt, path) {
        Some(error) => Ok(format!(in alloc; "octimap: {shown} can't be read: {error}\n")?),
        None => Ok(format!(in alloc; "octimap: {shown} couldn't be read to its end\n")?),
    }
}

/// An output of a command can't be written. `fault` is what the system said, if it said a word.
pub(crate) fn unwritten(
    alloc: Global,
    command: &Command<'_>,
    fault: Option<WriteError<'_>>,
) -> Result<String, NoMemory> {
    let Some(fault) = fault else {
        return Ok(format!(in alloc; "octimap: not all of the output was taken\n")?);
    };
    let error = fault.error;
    match fault.path {
        Some(path) if path.is_empty() => {
            Ok(format!(in alloc; "octimap: an output is an empty word\n")?)
        }
        Some(path) => {
            let shown = quoted(alloc, path.as_bytes())?;
            Ok(format!(in alloc; "octimap: {shown} can't be written: {error}\n")?)
        }
        None => {
            let output = nameless(command);
            Ok(format!(in alloc; "octimap: {output} can't be written: {error}\n")?)
        }
    }
}

/// What an output whose path isn't known is called: standard output, or a file that couldn't be put in its place.
fn nameless(command: &Command<'_>) -> &'static str {
    match command {
        Command::Stations { .. }
        | Command::Graph { .. }
        | Command::Check { .. }
        | Command::Trial { .. } => "standard output",
        _ => "an output",
    }
}
