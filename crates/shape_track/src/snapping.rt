//! The snap of stations on samples.

ghost use Rattle.std.specs.Prelude.{◌≡◌, ℕ, ◌+◌, ◌-◌, ◌^◌, ◌<◌, ◌≤◌, IfOk, length, vec_len, All, true, slice_get, slice_index, drop, List};
ghost use Rattle.fixed_plane.specs.Plane.{IsInPlane};
ghost use Rattle.shape_track.specs.Snaps.{IsOneSnap, IsSnap};
ghost use Rattle.shape_track.specs.Choices.{snap_of};
ghost use Rattle.map_base.specs.declared.point.Point.{Point};
ghost use Rattle.shape_track.specs.Sweeps.{LeadsTo, taken_at};
ghost use Rattle.shape_track.specs.Rows.{AreRows};

use crate::nearby::near_snap;
use crate::sweep::swept;
use bit_flags::Flags;
use map_base::{NoMemory, Point};
use std::alloc::Global;

/// The snap of stations on samples: for each station the place of a sample, none before that of the station
/// before it, so that no other such places have a lesser sum of the squared distances from each station to
/// its sample; and of those with that sum the first in the order of dictionaries.
///
/// Where some stations are far from all samples, it takes time, and a bit, for each station and sample.
pub fn snap(alloc: Global, samples: &[Point], stations: &[Point]) -> Result<Vec<u32>, NoMemory>
    requires some { 0 < length samples.now }
    requires short { length samples.now < 2 ^ 32 }
    requires samples_in_plane { All IsInPlane samples.now }
    requires stations_in_plane { All IsInPlane stations.now }
    ensures snap { IfOk result (λ places. IsSnap samples.now stations.now places.items) }
    ensures chosen { IfOk result (λ places. places.items ≡ snap_of samples.now stations.now) }
{
    if let Some(places) = near_snap(alloc, samples, stations)? {
        return Ok(places);
    }
    far_snap(alloc, samples, stations)
}

/// The snap, by a look at each sample for each station.
fn far_snap(alloc: Global, samples: &[Point], stations: &[Point]) -> Result<Vec<u32>, NoMemory>
    requires some { 0 < length samples.now }
    requires short { length samples.now < 2 ^ 32 }
    requires samples_in_plane { All IsInPlane samples.now }
    requires stations_in_plane { All IsInPlane stations.now }
    ensures { IfOk result (λ places. IsSnap samples.now stations.now places.items) }
{
    let rows = rows_of(alloc, samples, stations)?;
    let mut places = Vec::new(alloc);
    let mut floor = 0;
    for index in 0..stations.len() {
        floor = first_taken(&rows[stations.len() - 1 - index], floor);
        places.push(floor as u32)?;
    }
    Ok(places)
}

/// A law: there is one snap, so what `snap` gives is determined by the samples and the stations alone.
pub fn snap_is_one()
    ensures { (samples stations : List Point) (places others : List ℕ) → IsOneSnap samples stations places others }
{}

/// For each station, from the last one to the first, the row that says at which places it is best placed.
fn rows_of(alloc: Global, samples: &[Point], stations: &[Point]) -> Result<Vec<Flags>, NoMemory>
    requires some { 0 < length samples.now }
    requires samples_in_plane { All IsInPlane samples.now }
    requires stations_in_plane { All IsInPlane stations.now }
    ensures count { IfOk result (λ rows. length rows.items ≡ length stations.now) }
    ensures rows { IfOk result (λ rows. AreRows samples.now stations.now rows.items) }
{
    let mut rows = Vec::new(alloc);
    let mut costs = vec![in alloc; 0u128; samples.len()]?;
    for later in 0..stations.len() {
        let station = stations[stations.len() - 1 - later];
        rows.push(swept(alloc, samples, station, later, &mut costs)?)?;
    }
    Ok(rows)
}

/// The first place from a floor on that a row takes.
fn first_taken(row: &Flags, floor: usize) -> usize
    requires short { length row.now < 2 ^ 32 }
    requires floor { floor < length row.now }
    requires last { taken_at row.now (length row.now - 1) ≡ true }
    ensures place { result < length row.now }
    ensures leads { LeadsTo row.now floor result }
{
    let mut place = floor;
    while !row.is_raised(place) {
        place += 1;
    }
    place
}
