//! Names that a poster doesn't print, or prints small over its lines.

use file_lookup::{PosterNames, poster_names};
use map_base::NoMemory;
use message_texts::list_of;
use std::alloc::Global;
use std::rt::Files;

/// How many names are told.
const TOLD: usize = 5;

/// The lines for the names of the poster at a path.
pub(crate) fn poster_lines<R: Files + AllocGlobal>(
    rt: &R,
    poster: &str,
) -> Result<String, NoMemory> {
    match poster_names(rt, poster)? {
        Some(names) => of_names(rt.alloc(), &names),
        None => Ok(String::new(rt.alloc())),
    }
}

/// The lines for names of a poster that are left out, and for those that lie over lines.
fn of_names(alloc: Global, names: &PosterNames) -> Result<String, NoMemory> {
    let mut text = String::new(alloc);
    let left_out = names.left_out.len();
    if left_out > 0 {
        let list = list_of(alloc, names.left_out.as_slice(), TOLD)?;
        let line = format!(in alloc;
            "octimap: names without a place on the poster: {left_out}: {list}; shorter names (edits with rename) or fewer \
            lines have more room, and its page shows them all\n"
        )?;
        text.push_str(line.as_str())?;
    }
    let over_lines = names.over_lines;
    if over_lines > 0 {
        let printed = names.printed;
        let line = format!(in alloc;
            "octimap: names that are small and lie over lines: {over_lines} of {printed}\n"
        )?;
        text.push_str(line.as_str())?;
    }
    Ok(text)
}
