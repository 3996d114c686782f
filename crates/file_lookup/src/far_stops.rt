//! Stations of a feed that lie far from all others.

use crate::paths::is_plain;
use disk_files::DiskFiles;
use map_base::{NoMemory, Point};
use message_texts::far_stations;
use std::rt::Files;
use stop_table::read_stations;

/// Whether stations of a feed, drawn or not, lie far from all others. A degree counts as 111 kilometres either way.
pub fn has_far_stations<R: Files + AllocGlobal>(rt: &R, feed: &str) -> Result<bool, NoMemory> {
    let alloc = rt.alloc();
    let path = format!(in alloc; "{feed}/stops.txt")?;
    if !is_plain(rt, path.as_str()) {
        return Ok(false);
    }
    let mut files = DiskFiles::new(rt);
    let Ok(stations) = read_stations(alloc, &mut files, feed) else {
        return Ok(false);
    };
    let mut places = Vec::new(alloc);
    for station in stations.iter() {
        places.push(Point {
            x: station.lon,
            y: station.lat,
        })?;
    }
    let far = far_stations(alloc, places.as_slice())?;
    Ok(!far.is_empty())
}
