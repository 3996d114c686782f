//! The types of the routes of a feed, drawn or not.

use crate::chosen_settings::settings_of;
use crate::paths::is_plain;
use crate::table_ids::ids_at;
use command_inputs::Inputs;
use gtfs_fields::whole;
use map_base::NoMemory;
use std::rt::Files;

/// The types of the routes of a feed.
#[derive(Drop)]
pub struct RouteTypes {
    /// Those that are drawn, each once and rising.
    pub drawn: Vec<u32>,
    /// Those that the settings leave out, one for each such route, rising.
    pub left_out: Vec<u32>,
}

/// The types of the routes of a command's feed; none where the table or the settings can't be read again, or are no
/// plain files.
#[inline(never)]
pub fn route_types<R: Files + AllocGlobal>(
    rt: &R,
    inputs: &Inputs<'_>,
) -> Result<Option<RouteTypes>, NoMemory> {
    let alloc = rt.alloc();
    let feed = inputs.feed;
    let path = format!(in alloc; "{feed}/routes.txt")?;
    if !is_plain(rt, path.as_str()) {
        return Ok(None);
    }
    let Some(chosen) = settings_of(rt, inputs)? else {
        return Ok(None);
    };
    let types = chosen.settings.types.as_slice();
    let mut drawn = Vec::new(alloc);
    let mut left_out = Vec::new(alloc);
    for kind in ids_at(rt, path.as_str(), "route_type")? {
        if let Some(number) = whole(kind.as_str().as_bytes()) {
            if types.contains(&number) {
                drawn.push(number)?;
            } else {
                left_out.push(number)?;
            }
        }
    }
    left_out.sort()?;
    Ok(Some(RouteTypes {
        drawn: each_once(drawn)?,
        left_out,
    }))
}

/// These numbers, each once and rising.
pub fn each_once(mut numbers: Vec<u32>) -> Result<Vec<u32>, NoMemory> {
    numbers.sort()?;
    numbers.dedup();
    Ok(numbers)
}
