//! Stations that lie far from all others, as one at 0, 0 whose place is not known.

use map_base::{NoMemory, Point};
use std::alloc::Global;

/// A network of fewer stations has none that is far from the others.
const FEW: usize = 4;

/// No station is far that is nearer to the middle than this: 100 kilometres, in decimetres.
const NEVER_FAR: u64 = 1_000_000;

/// The places in the list of stations that lie far from all others: more than ten times as far from the middle as three
/// quarters of all stations, and more than 100 kilometres. The middle is that of the stations' coordinates, each sorted
/// by itself.
pub fn far_stations(alloc: Global, stations: &[Point]) -> Result<Vec<usize>, NoMemory> {
    if stations.len() < FEW {
        return Ok(Vec::new(alloc));
    }
    let middle = Point {
        x: middle_x(alloc, stations)?,
        y: middle_y(alloc, stations)?,
    };
    let usual = usual_span(alloc, stations, middle)?;
    farther_than(
        alloc,
        stations,
        middle,
        usual.saturating_mul(10).max(NEVER_FAR),
    )
}

/// The places of the stations whose coordinates differ by more than `most` decimetres from those of the middle, one or
/// both.
fn farther_than(
    alloc: Global,
    stations: &[Point],
    middle: Point,
    most: u64,
) -> Result<Vec<usize>, NoMemory> {
    let mut far = Vec::new(alloc);
    for (place, station) in stations.iter().enumerate() {
        if span(*station, middle) > most {
            far.push(place)?;
        }
    }
    Ok(far)
}

/// By how many decimetres the coordinates of two points differ, of the two the greater number.
fn span(one: Point, other: Point) -> u64 {
    one.x.abs_diff(other.x).max(one.y.abs_diff(other.y))
}

/// The middle x of the stations.
fn middle_x(alloc: Global, stations: &[Point]) -> Result<i64, NoMemory> {
    let mut all = Vec::new(alloc);
    for station in stations {
        all.push(station.x)?;
    }
    middle_of(all)
}

/// The middle y of the stations.
fn middle_y(alloc: Global, stations: &[Point]) -> Result<i64, NoMemory> {
    let mut all = Vec::new(alloc);
    for station in stations {
        all.push(station.y)?;
    }
    middle_of(all)
}

/// The middle one of numbers, sorted; 0 where there are none.
fn middle_of(mut numbers: Vec<i64>) -> Result<i64, NoMemory> {
    numbers.sort()?;
    Ok(numbers.get(numbers.len() / 2).copied().unwrap_or(0))
}

/// How far from the middle three quarters of all stations are at most.
fn usual_span(alloc: Global, stations: &[Point], middle: Point) -> Result<u64, NoMemory> {
    let mut spans = Vec::new(alloc);
    for station in stations {
        spans.push(span(*station, middle))?;
    }
    spans.sort()?;
    Ok(spans.get(stations.len() / 4 * 3).copied().unwrap_or(0))
}
