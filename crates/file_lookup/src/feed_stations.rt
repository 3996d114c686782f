//! The stations of a feed that its lines use, and where they lie.

use crate::feed_tables::tables_of;
use command_inputs::Inputs;
use map_base::{NoMemory, Point};
use message_texts::far_stations;
use std::alloc::Global;
use std::rt::Files;
use transit_feed::{Line, Pattern, Station, Tables};

/// The stations of a feed that lines use that are not hidden.
#[derive(Drop)]
pub struct FeedStations {
    /// All stations of the feed.
    pub all: Vec<Station>,
    /// The places in this list of those that are used, rising.
    used: Vec<usize>,
}

/// The stations of a command's feed; none where its files can't be read again, or are no plain ones.
#[inline(never)]
pub fn stations_of<R: Files + AllocGlobal>(
    rt: &R,
    inputs: &Inputs<'_>,
) -> Result<Option<FeedStations>, NoMemory> {
    match tables_of(rt, inputs)? {
        Some(loaded) => Ok(Some(FeedStations::of(rt.alloc(), loaded.tables)?)),
        None => Ok(None),
    }
}

impl FeedStations {
    /// The stations of these tables.
    pub(crate) fn of(alloc: Global, tables: Tables) -> Result<FeedStations, NoMemory> {
        let Tables {
            stations,
            lines,
            patterns,
            ..
        } = tables;
        let used = used_places(alloc, stations.len(), lines.as_slice(), patterns.as_slice())?;
        Ok(FeedStations {
            all: stations,
            used,
        })
    }

    /// The stations that lie far from all others, in their order. A degree counts as 111 kilometres either way.
    pub fn far(&self, alloc: Global) -> Result<Vec<&Station>, NoMemory> {
        let mut points = Vec::new(alloc);
        let mut used = Vec::new(alloc);
        for place in &self.used {
            if let Some(station) = self.all.get(*place) {
                points.push(point_of(station))?;
                used.push(station)?;
            }
        }
        let mut far = Vec::new(alloc);
        for place in far_stations(alloc, points.as_slice())? {
            if let Some(station) = used.get(place) {
                far.push(*station)?;
            }
        }
        Ok(far)
    }

    /// The two stations that lie farthest apart from west to east, or from south to north, by whichever they lie
    /// farther apart; none where no station is used.
    pub fn farthest(&self) -> Option<(&Station, &Station)> {
        let first = self.used_at(0)?;
        let mut ends = Ends {
            west: first,
            east: first,
            south: first,
            north: first,
        };
        for place in &self.used {
            if let Some(station) = self.all.get(*place) {
                ends = widened(ends, station);
            }
        }
        if ends.east.lon.abs_diff(ends.west.lon) >= ends.north.lat.abs_diff(ends.south.lat) {
            Some((ends.west, ends.east))
        } else {
            Some((ends.south, ends.north))
        }
    }

    /// The station that is used and stands at this place among those that are.
    fn used_at(&self, place: usize) -> Option<&Station> {
        let place = self.used.get(place)?;
        self.all.get(*place)
    }
}

/// The places of the stations, of so many, that lines use that are not hidden.
fn used_places(
    alloc: Global,
    stations: usize,
    lines: &[Line],
    patterns: &[Pattern],
) -> Result<Vec<usize>, NoMemory> {
    let mut is_used = Vec::new(alloc);
    for _ in 0..stations {
        is_used.push(false)?;
    }
    for pattern in patterns {
        if is_shown(lines, pattern) {
            for stop in pattern.stops.as_slice() {
                if let Some(mark) = is_used.get_mut(stop.0 as usize) {
                    *mark = true;
                }
            }
        }
    }
    let mut used = Vec::new(alloc);
    for (place, mark) in is_used.iter().enumerate() {
        if *mark {
            used.push(place)?;
        }
    }
    Ok(used)
}

/// Whether a pattern is of a line that is not hidden.
fn is_shown(lines: &[Line], pattern: &Pattern) -> bool {
    match lines.get(pattern.line.0 as usize) {
        Some(line) => !line.hidden,
        None => false,
    }
}

/// Where a station lies, in microdegrees.
fn point_of(station: &Station) -> Point {
    Point {
        x: station.lon,
        y: station.lat,
    }
}

/// The stations farthest west, east, south and north.
#[derive(Clone, Copy)]
struct Ends<'a> {
    west: &'a Station,
    east: &'a Station,
    south: &'a Station,
    north: &'a Station,
}

/// The same with one more station looked at.
fn widened<'a>(ends: Ends<'a>, station: &'a Station) -> Ends<'a> {
    Ends {
        west: if station.lon < ends.west.lon {
            station
        } else {
            ends.west
        },
        east: if station.lon > ends.east.lon {
            station
        } else {
            ends.east
        },
        south: if station.lat < ends.south.lat {
            station
        } else {
            ends.south
        },
        north: if station.lat > ends.north.lat {
            station
        } else {
            ends.north
        },
    }
}
