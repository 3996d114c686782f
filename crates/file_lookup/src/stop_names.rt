//! Stations of a feed that have no name.

use crate::paths::is_plain;
use disk_files::DiskFiles;
use map_base::{NoMemory, Text};
use std::rt::Files;
use stop_table::read_stations;

/// The ids of a feed's stations without a name, drawn or not; none of them where the table can't be read again, or is
/// no plain file.
#[inline(never)]
pub fn nameless_stations<R: Files + AllocGlobal>(
    rt: &R,
    feed: &str,
) -> Result<Vec<Text>, NoMemory> {
    let alloc = rt.alloc();
    let mut nameless = Vec::new(alloc);
    let path = format!(in alloc; "{feed}/stops.txt")?;
    if !is_plain(rt, path.as_str()) {
        return Ok(nameless);
    }
    let mut files = DiskFiles::new(rt);
    let Ok(stations) = read_stations(alloc, &mut files, feed) else {
        return Ok(nameless);
    };
    for station in stations.iter() {
        if station.name.as_str().is_empty() {
            nameless.push(Text::of(alloc, station.id.as_str())?)?;
        }
    }
    Ok(nameless)
}
