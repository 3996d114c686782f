//! Where stations and shapes lie on the plane.

ghost use Rattle.std.specs.Prelude.{◌≡◌, ◌<◌, ◌≤◌, IfOk, All, length, map, unsigned_abs, ℤ};
ghost use Rattle.fixed_plane.specs.Plane.{IsInPlane, projected};
ghost use Rattle.transit_feed.specs.Feeds.{ArePlace, IsPlaced, IsShape};
ghost use Rattle.feed_courses.specs.Places.{feed_band, projected_station};
ghost use Rattle.feed_courses.specs.Runs.{IsOnEarth};

use fixed_plane::{band_of, project};
use map_base::{NoMemory, Point};
use std::alloc::Global;
use transit_feed::{Shape, Station};

/// The band of a feed: that of its first station.
pub(crate) fn feed_band(stations: &[Station]) -> usize
    requires placed { All IsPlaced stations.now }
    ensures value { result ≡ feed_band stations.now }
    ensures in_table { result ≤ 18 }
{
    match stations.first() {
        None => 0,
        Some(station) => band_of(station.lat),
    }
}

/// The point of a place in microdegrees.
fn point_of(lat: i64, lon: i64, band: usize) -> Point
    requires place { ArePlace lat lon }
    requires in_table { band ≤ 18 }
    ensures value { result ≡ projected lat lon band }
    ensures in_plane { IsInPlane result }
    ensures on_earth { IsOnEarth result }
{
    project(lat, lon, band)
}

/// The points of the stations of these numbers.
pub(crate) fn station_points(
    alloc: Global,
    stations: &[Station],
    numbers: &[u32],
) -> Result<Vec<Point>, NoMemory>
    requires placed { All IsPlaced stations.now }
    requires in_range { All (λ n. n < length stations.now) numbers.now }
    ensures points { IfOk result (λ points. points.items ≡ map (projected_station stations.now) numbers.now) }
    ensures on_earth { IfOk result (λ points. All IsOnEarth points.items) }
{
    let band = feed_band(stations);
    let mut points = Vec::new(alloc);
    for number in numbers {
        points.push(station_point(stations, band, *number))?;
    }
    Ok(points)
}

/// The point of the station of a number.
fn station_point(stations: &[Station], band: usize, number: u32) -> Point
    requires placed { All IsPlaced stations.now }
    requires in_range { number < length stations.now }
    requires band { band ≡ feed_band stations.now }
    requires in_table { band ≤ 18 }
    ensures value { result ≡ projected_station stations.now number }
    ensures on_earth { IsOnEarth result }
{
    let station = &stations[number as usize];
    point_of(station.lat, station.lon, band)
}

/// The points of a shape.
pub(crate) fn shape_points(
    alloc: Global,
    shape: &Shape,
    band: usize,
) -> Result<Vec<Point>, NoMemory>
    requires shape { IsShape shape.now }
    requires in_table { band ≤ 18 }
    ensures points { IfOk result (λ points. points.items ≡ map (λ (p : ℤ × ℤ). projected p.0 p.1 band) shape.now.points) }
    ensures in_plane { IfOk result (λ points. All IsInPlane points.items) }
{
    let mut points = Vec::new(alloc);
    for place in shape.points.as_slice() {
        points.push(point_of_place(place, band))?;
    }
    Ok(points)
}

/// The point of a latitude and a longitude in microdegrees.
fn point_of_place(place: &(i64, i64), band: usize) -> Point
    requires place { ArePlace place.now.0 place.now.1 }
    requires in_table { band ≤ 18 }
    ensures value { result ≡ projected place.now.0 place.now.1 band }
    ensures in_plane { IsInPlane result }
{
    point_of(place.0, place.1, band)
}
