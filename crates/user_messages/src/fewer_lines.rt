//! How fewer lines are drawn.

use crate::set_keys::is_set;
use command_paths::Options;
use command_words::Command;
use map_base::NoMemory;
use std::rt::Files;

/// How fewer lines are drawn, of a file with a line graph or of a feed.
pub(crate) fn fewer_lines<R: Files + AllocGlobal>(
    rt: &R,
    command: &Command<'_>,
    options: &Options<'_>,
) -> Result<&'static str, NoMemory> {
    if is_import(command) {
        return Ok("leave lines out of the file");
    }
    if is_set(rt, options, "types")? {
        Ok("fewer types in the key types, or edits with hide")
    } else {
        Ok("the key types, or edits with hide")
    }
}

/// Whether the command makes a map of a file with a line graph.
pub(crate) fn is_import(command: &Command<'_>) -> bool {
    match command {
        Command::Import { .. } => true,
        _ => false,
    }
}
