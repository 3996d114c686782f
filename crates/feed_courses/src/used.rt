//! The used stations of a feed.

ghost use Rattle.std.specs.Prelude.{◌≡◌, ◌<◌, ◌≤◌, ◌^◌, IfOk, All, length, map};
ghost use Rattle.fixed_plane.specs.Plane.{IsInPlane};
ghost use Rattle.map_base.specs.declared.ids.StationId.{StationId};
ghost use Rattle.feed_courses.specs.Fit.{AreDistinct};
ghost use Rattle.feed_courses.specs.Shown.{used_stations};
ghost use Rattle.shape_track.specs.Samples.{point_at};
ghost use Rattle.feed_courses.specs.Outcome.{station_numbered};
ghost use Rattle.feed_courses.specs.Tables.{AreUsed, IsPlaceTable, place_in};

use crate::apart::moved_apart;
use crate::plane::station_points;
use map_base::{NoMemory, Point, StationId};
use std::alloc::Global;
use transit_feed::Tables;

/// The used stations of a feed.
#[derive(Drop)]
pub(crate) struct Used {
    /// Their numbers, rising.
    pub(crate) numbers: Vec<u32>,
    /// The point of each of them.
    pub(crate) points: Vec<Point>,
    /// For each station of the feed its place among them, or 0.
    pub(crate) places: Vec<u32>,
}

/// The used stations, by their numbers.
pub(crate) fn used_of(alloc: Global, tables: &Tables, numbers: Vec<u32>) -> Result<Used, NoMemory>
    requires numbers { numbers.items ≡ used_stations tables.now }
    requires few { length numbers.items ≤ 10000 }
    ensures used { IfOk result (λ used. AreUsed tables.now used) }
    ensures distinct { IfOk result (λ used. AreDistinct used.points.items) }
    ensures in_plane { IfOk result (λ used. All IsInPlane used.points.items) }
{
    let points = station_points(alloc, &tables.stations, &numbers)?;
    let points = moved_apart(alloc, &points)?;
    let places = place_table(alloc, tables.stations.len(), &numbers)?;
    Ok(Used {
        numbers,
        points,
        places,
    })
}

/// For each station below `count` its place among the used ones, or 0 where it is none of them.
fn place_table(alloc: Global, count: usize, numbers: &[u32]) -> Result<Vec<u32>, NoMemory>
    requires in_range { All (λ n. n < count) numbers.now }
    requires few { length numbers.now < 2 ^ 32 }
    ensures { IfOk result (λ table. IsPlaceTable count numbers.now table.items) }
{
    let mut table = vec![in alloc; 0_u32; count]?;
    for place in (0..numbers.len()).rev() {
        table[numbers[place] as usize] = place as u32;
    }
    Ok(table)
}

/// The places of stations by a table.
pub(crate) fn stop_places(
    alloc: Global,
    table: &[u32],
    stops: &[StationId],
) -> Result<Vec<u32>, NoMemory>
    requires in_range { All (λ (s : StationId). s.0 < length table.now) stops.now }
    ensures { IfOk result (λ places. places.items ≡ map (place_in table.now) stops.now) }
{
    let mut places = Vec::new(alloc);
    for stop in stops {
        places.push(table[stop.0 as usize])?;
    }
    Ok(places)
}

/// The points at these places.
pub(crate) fn points_at(
    alloc: Global,
    points: &[Point],
    places: &[u32],
) -> Result<Vec<Point>, NoMemory>
    requires in_range { All (λ place. place < length points.now) places.now }
    requires in_plane { All IsInPlane points.now }
    ensures points { IfOk result (λ found. found.items ≡ map (point_at points.now) places.now) }
    ensures in_plane { IfOk result (λ found. All IsInPlane found.items) }
{
    let mut found = Vec::new(alloc);
    for place in places {
        found.push(points[*place as usize])?;
    }
    Ok(found)
}

/// The stations of these numbers.
pub(crate) fn station_ids(alloc: Global, numbers: &[u32]) -> Result<Vec<StationId>, NoMemory>
    ensures { IfOk result (λ stations. stations.items ≡ map station_numbered numbers.now) }
{
    let mut stations = Vec::new(alloc);
    for number in numbers {
        stations.push(StationId(*number))?;
    }
    Ok(stations)
}
