//! The hops of a pattern, from each station to the next.

ghost use Rattle.std.specs.Prelude.{◌≡◌, ◌+◌, ◌<◌, ◌≤◌, IfOk, IfErr, length, map, All};
ghost use Rattle.fixed_plane.specs.Plane.{IsInPlane};
ghost use Rattle.shape_track.specs.Faults.{HasCause};
ghost use Rattle.shape_track.specs.Snaps.{ArePlacesFrom};
ghost use Rattle.shape_track.specs.Hops.{AreJoined, hop_points, hops_of, total_of};

use crate::samples::counted_samples;
use map_base::{LimitFault, NoMemory, Point};
use std::alloc::Global;

/// The hops of a pattern, one for each station but the last: the samples of the list of the station, the
/// samples of the course from its place to that of the next station, and that station. There is a limit
/// where the hops have more than `most` samples in all, and no more than `most` are made.
pub fn track(
    alloc: Global,
    samples: &[Point],
    stations: &[Point],
    places: &[u32],
    near: u32,
    most: u64,
) -> Result<Vec<Vec<Point>>, LimitFault>
    requires samples_in_plane { All IsInPlane samples.now }
    requires stations_in_plane { All IsInPlane stations.now }
    requires placed { ArePlacesFrom 0 (length samples.now) stations.now places.now }
    requires near_low { 20 ≤ near }
    ensures hops { IfOk result (λ hops. map (λ hop. hop.items) hops.items ≡ hops_of near samples.now stations.now places.now) }
    ensures within { IfOk result (λ _. total_of (hops_of near samples.now stations.now places.now) ≤ most) }
    ensures cause { IfErr result (λ fault. HasCause most (total_of (hops_of near samples.now stations.now places.now)) fault) }

    // Each hop begins and ends with its two stations, each of its samples is close to the next, and all are in
    // the plane.
    ensures joined { IfOk result (λ hops. AreJoined near stations.now (map (λ hop. hop.items) hops.items)) }
    ensures in_plane { IfOk result (λ hops. All (λ hop. All IsInPlane hop.items) hops.items) }
{
    let mut hops = Vec::new(alloc);
    let mut count = 0;
    for index in 1..stations.len() {
        let (from, to) = (places[index - 1] as usize, places[index] as usize);
        let course = hop_course(
            alloc,
            samples,
            stations[index - 1],
            from,
            stations[index],
            to,
        )?;
        let sampler = counted_samples(alloc, &course, near, count, most)?;
        count = sampler.count;
        hops.push(sampler.kept)?;
    }
    Ok(hops)
}

/// The points of a hop, before they are sampled.
fn hop_course(
    alloc: Global,
    samples: &[Point],
    station: Point,
    place: usize,
    next_station: Point,
    next_place: usize,
) -> Result<Vec<Point>, NoMemory>
    requires samples_in_plane { All IsInPlane samples.now }
    requires station_in_plane { IsInPlane station }
    requires next_in_plane { IsInPlane next_station }
    requires order { place ≤ next_place }
    requires in_range { next_place < length samples.now }
    ensures points { IfOk result (λ course. course.items ≡ hop_points samples.now station place next_station next_place) }
    ensures in_plane { IfOk result (λ course. All IsInPlane course.items) }
{
    let mut course = Vec::with_capacity(alloc, next_place - place + 3)?;
    course.push(station)?;
    course.extend_from_slice(&samples[place..next_place + 1])?;
    course.push(next_station)?;
    Ok(course)
}
