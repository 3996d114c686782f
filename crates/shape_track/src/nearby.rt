//! The snap of stations that are near to samples.

ghost use Rattle.std.specs.Prelude.{◌≡◌, ◌+◌, ◌-◌, ◌^◌, ◌<◌, ◌≤◌, ◌∷◌, [], IfOk, IfSome, All, length};
ghost use Rattle.fixed_plane.specs.Plane.{IsInPlane};
ghost use Rattle.shape_track.specs.Snaps.{IsSnap};
ghost use Rattle.shape_track.specs.BestPlaces.{AreLed, AreRowsOf, AreWithin, IsRow};

use crate::best_places::{BestPlace, Reach, apart, best_places_of, place_from};
use map_base::{NoMemory, Point, Sequence};
use std::alloc::Global;

/// The greatest sum of squares that is looked for, in square decimetres.
const MOST_COST: u64 = 1 << 62;

/// The snap of stations on samples, where it costs so little that only samples near to the stations come into
/// question. It is looked for up to four limits of its cost, from the square of the distance of two samples on.
pub(crate) fn near_snap(
    alloc: Global,
    samples: &[Point],
    stations: &[Point],
) -> Result<Option<Vec<u32>>, NoMemory>
    requires some { 0 < length samples.now }
    requires short { length samples.now < 2 ^ 32 }
    requires samples_in_plane { All IsInPlane samples.now }
    requires stations_in_plane { All IsInPlane stations.now }
    ensures { IfOk result (λ made. IfSome made (λ places. IsSnap samples.now stations.now places.items)) }
{
    let gap = widest_gap(samples);
    for factor in [1, 32, 1024, 32_768] {
        let reach = reach_for(gap, factor);
        let places = snap_within(alloc, samples, stations, reach)?;
        if places.is_some() {
            return Ok(places);
        }
    }
    Ok(None)
}

/// How far a sample is from the next along an axis, at most, and at least 1.
fn widest_gap(samples: &[Point]) -> u64
    requires in_plane { All IsInPlane samples.now }
    ensures some { 0 < result }
    ensures within { AreWithin result samples.now }
    ensures bound { result ≤ 600000000 }
{
    let mut gap = 1;
    for place in 1..samples.len() {
        gap = apart(samples[place - 1], samples[place]).max(gap);
    }
    gap
}

/// How far is looked, where samples are so far apart, for a snap that costs so many times the square of that.
fn reach_for(gap: u64, factor: u64) -> Reach
    requires some { 0 < gap }
    requires bound { gap ≤ 600000000 }
    ensures { result.gap ≡ gap }
{
    let limit = (gap * gap).saturating_mul(factor).min(MOST_COST);
    Reach {
        limit,
        radius: limit.isqrt(),
        gap,
    }
}

/// The snap, where it costs no more than a limit and few samples come into question.
fn snap_within(
    alloc: Global,
    samples: &[Point],
    stations: &[Point],
    reach: Reach,
) -> Result<Option<Vec<u32>>, NoMemory>
    requires some { 0 < length samples.now }
    requires short { length samples.now < 2 ^ 32 }
    requires samples_in_plane { All IsInPlane samples.now }
    requires stations_in_plane { All IsInPlane stations.now }
    requires gaps { AreWithin reach.gap samples.now }
    ensures { IfOk result (λ made. IfSome made (λ places. IsSnap samples.now stations.now places.items)) }
{
    let Some(rows) = rows_within(alloc, samples, stations, reach)? else {
        return Ok(None);
    };
    places_along(alloc, samples, stations, reach.limit, &rows)
}

/// The best places of each station, from the last one to the first, after those of no station.
fn rows_within(
    alloc: Global,
    samples: &[Point],
    stations: &[Point],
    reach: Reach,
) -> Result<Option<Vec<Sequence<BestPlace>>>, NoMemory>
    requires some { 0 < length samples.now }
    requires samples_in_plane { All IsInPlane samples.now }
    requires stations_in_plane { All IsInPlane stations.now }
    requires gaps { AreWithin reach.gap samples.now }
    ensures count { IfOk result (λ made. IfSome made (λ rows. length rows.items ≡ length stations.now + 1)) }
    ensures rows { IfOk result (λ made. IfSome made (λ rows. AreRowsOf samples.now stations.now reach.limit rows.items)) }
{
    let mut rows = Vec::with_capacity(alloc, stations.len() + 1)?;
    rows.push(last_place(alloc, samples.len())?)?;
    for later in 0..stations.len() {
        let station = stations[stations.len() - 1 - later];
        let row = best_places_of(alloc, samples, station, rows[later].as_slice(), reach)?;
        let Some(row) = row else {
            return Ok(None);
        };
        if row.is_empty() {
            return Ok(None);
        }
        rows.push(Sequence::of(row))?;
    }
    Ok(Some(rows))
}

/// The best places of no station: the last one, which costs nothing.
fn last_place(alloc: Global, count: usize) -> Result<Sequence<BestPlace>, NoMemory>
    requires { 0 < count }
    ensures { IfOk result (λ row. row ≡ record { place = count - 1; cost = 0 } ∷ []) }
{
    let mut row = Vec::new(alloc);
    row.push(BestPlace {
        place: count - 1,
        cost: 0,
    })?;
    Ok(Sequence::of(row))
}

/// The places to which rows point, each from that of the station before on.
fn places_along(
    alloc: Global,
    samples: &[Point],
    stations: &[Point],
    limit: u64,
    rows: &[Sequence<BestPlace>],
) -> Result<Option<Vec<u32>>, NoMemory>
    requires some { 0 < length samples.now }
    requires short { length samples.now < 2 ^ 32 }
    requires count { length rows.now ≡ length stations.now + 1 }
    requires rows { AreRowsOf samples.now stations.now limit rows.now }
    ensures { IfOk result (λ made. IfSome made (λ places. IsSnap samples.now stations.now places.items)) }
{
    let mut places = Vec::with_capacity(alloc, stations.len())?;
    let mut floor = 0;
    for index in 0..stations.len() {
        let row = rows[stations.len() - index].as_slice();
        let Some(place) = place_from(row, floor) else {
            return Ok(None);
        };
        floor = place;
        places.push(place as u32)?;
    }
    Ok(Some(places))
}
