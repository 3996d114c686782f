//! The routes that a map could show, and doesn't, and the stations that have no name.

use crate::chosen_settings::settings_of;
use crate::map_text::map_text;
use crate::paths::bytes_at;
use crate::table_ids::ids_at;
use command_inputs::Inputs;
use gtfs_fields::whole;
use map_base::{NoMemory, Text};
use std::alloc::Global;
use std::rt::Files;

/// What isn't on a map, though its table has it.
#[derive(Drop)]
pub struct NotShown {
    /// The ids of the routes of a type that is drawn that have no way on the map, and that no edit hides.
    pub routes: Vec<Text>,
    /// How many stations of the map have no name.
    pub nameless: usize,
}

/// What isn't on the map of a command that was written to a path; none where the map or the settings can't be read
/// again, or are no plain files.
#[inline(never)]
pub fn not_shown<R: Files + AllocGlobal>(
    rt: &R,
    inputs: &Inputs<'_>,
    picture: &str,
) -> Result<Option<NotShown>, NoMemory> {
    let Some(bytes) = bytes_at(rt, picture)? else {
        return Ok(None);
    };
    let Ok(text) = str::from_utf8(bytes.as_slice()) else {
        return Ok(None);
    };
    let shown = map_text(rt.alloc(), text)?;
    let Some(ids) = drawn_routes(rt, inputs)? else {
        return Ok(None);
    };
    let hidden = hidden_lines(rt, inputs)?;
    let routes = without(rt.alloc(), ids, shown.lines.as_slice(), hidden.as_slice())?;
    Ok(Some(NotShown {
        routes,
        nameless: shown.nameless,
    }))
}

/// The ids of the routes of a type that is drawn, in their order: the lines of the feed's tables.
fn drawn_routes<R: Files + AllocGlobal>(
    rt: &R,
    inputs: &Inputs<'_>,
) -> Result<Option<Vec<Text>>, NoMemory> {
    let alloc = rt.alloc();
    let Some(chosen) = settings_of(rt, inputs)? else {
        return Ok(None);
    };
    let feed = inputs.feed;
    let path = format!(in alloc; "{feed}/routes.txt")?;
    let kinds = ids_at(rt, path.as_str(), "route_type")?;
    let ids = ids_at(rt, path.as_str(), "route_id")?;
    let types = chosen.settings.types.as_slice();
    let mut drawn = Vec::new(alloc);
    for (place, id) in ids.iter().enumerate() {
        if is_of_type(kinds.get(place), types) {
            drawn.push(Text::of(alloc, id.as_str())?)?;
        }
    }
    Ok(Some(drawn))
}

/// Whether a type of a route, as it is written, is one of these.
fn is_of_type(kind: Option<&Text>, types: &[u32]) -> bool {
    match kind {
        Some(kind) => match whole(kind.as_str().as_bytes()) {
            Some(number) => types.contains(&number),
            None => false,
        },
        None => false,
    }
}

/// The ids of the lines that the file of edits hides somewhere.
fn hidden_lines<R: Files + AllocGlobal>(
    rt: &R,
    inputs: &Inputs<'_>,
) -> Result<Vec<Text>, NoMemory> {
    let alloc = rt.alloc();
    let mut hidden = Vec::new(alloc);
    let Some(path) = inputs.options.edits else {
        return Ok(hidden);
    };
    let Some(bytes) = bytes_at(rt, path)? else {
        return Ok(hidden);
    };
    if let Ok(text) = str::from_utf8(bytes.as_slice()) {
        for line in text.lines() {
            if let Some(id) = line.strip_prefix("hide\t") {
                hidden.push(Text::of(alloc, id)?)?;
            }
        }
    }
    Ok(hidden)
}

/// The ids but those of lines that are shown, by number, and those that are hidden.
fn without(
    alloc: Global,
    ids: Vec<Text>,
    shown: &[u32],
    hidden: &[Text],
) -> Result<Vec<Text>, NoMemory> {
    let mut routes = Vec::new(alloc);
    let mut number = 0u32;
    for id in ids {
        let is_hidden = hidden.iter().any(|other| other.as_str() == id.as_str());
        if !is_hidden && !shown.contains(&number) {
            routes.push(id)?;
        }
        number = number.saturating_add(1);
    }
    Ok(routes)
}
