//! The hops of stations along a course.

ghost use Rattle.std.specs.Prelude.{◌≡◌, ◌+◌, ◌<◌, ◌≤◌, IfOk, IfErr, All, length, map, vec_len};
ghost use Rattle.map_base.specs.declared.limit.LimitKind.TheVariants.{Samples};
ghost use Rattle.fixed_plane.specs.Plane.{IsInPlane};
ghost use Rattle.shape_track.specs.Samples.{Joins, first_of, last_of, samples_of};
ghost use Rattle.shape_track.specs.Snaps.{ArePlacesFrom};
ghost use Rattle.shape_track.specs.Hops.{AreJoined, hops_of, total_of};
ghost use Rattle.feed_courses.specs.Outcome.{hops_along};
ghost use Rattle.feed_courses.specs.Faults.{IsAbove};

use crate::counts::as_fault_of_all_courses;
use map_base::{LimitFault, NoMemory, Point, Sequence};
use shape_track::{sample, snap, track};
use std::alloc::Global;

/// Samples of each hop.
pub(crate) type Hops = Sequence<Sequence<Point>>;

/// The hops of stations along the samples of a course, and how many samples are left of `left` when those of the
/// course and of the hops are counted.
pub(crate) fn hops_along(
    alloc: Global,
    course: &[Point],
    stations: &[Point],
    near: u32,
    left: u64,
) -> Result<(Hops, u64), LimitFault>
    requires some { 0 < length course.now }
    requires course_in_plane { All IsInPlane course.now }
    requires stations_in_plane { All IsInPlane stations.now }
    requires near_low { 20 ≤ near }
    requires few { left ≤ 4000000 }
    ensures hops { IfOk result (λ made. made.0 ≡ hops_along near (samples_of near course.now) stations.now) }
    ensures left { IfOk result (λ made. made.1 + (length (samples_of near course.now) + total_of made.0) ≡ left) }
    ensures joined { IfOk result (λ made. AreJoined near stations.now made.0) }
    ensures in_plane { IfOk result (λ made. All (λ hop. All IsInPlane hop) made.0) }
    ensures cause { IfErr result (λ fault. IsAbove Samples left (length (samples_of near course.now) + total_of (hops_along near (samples_of near course.now) stations.now)) fault) }
{
    let samples = course_samples(alloc, course, near, left)?;
    let left = left - samples.len() as u64;
    let places = snap(alloc, &samples, stations)?;
    let hops = course_hops(alloc, &samples, stations, &places, near, left)?;
    let hops = sequences(alloc, hops)?;
    let count = total(hops.as_slice());
    Ok((hops, left - count))
}

/// The samples of a course. A limit is that of the samples of all courses.
fn course_samples(
    alloc: Global,
    course: &[Point],
    near: u32,
    left: u64,
) -> Result<Vec<Point>, LimitFault>
    requires some { 0 < length course.now }
    requires in_plane { All IsInPlane course.now }
    requires near_low { 20 ≤ near }
    ensures samples { IfOk result (λ samples. samples.items ≡ samples_of near course.now) }
    ensures within { IfOk result (λ samples. vec_len samples ≤ left) }
    ensures joins { IfOk result (λ samples. Joins near (first_of course.now) (last_of course.now) samples.items) }
    ensures in_plane { IfOk result (λ samples. All IsInPlane samples.items) }
    ensures cause { IfErr result (λ fault. IsAbove Samples left (length (samples_of near course.now)) fault) }
{
    match sample(alloc, course, near, left) {
        Ok(samples) => Ok(samples),
        Err(fault) => Err(as_fault_of_all_courses(fault)),
    }
}

/// The samples of each hop. A limit is that of the samples of all courses.
fn course_hops(
    alloc: Global,
    samples: &[Point],
    stations: &[Point],
    places: &[u32],
    near: u32,
    left: u64,
) -> Result<Vec<Vec<Point>>, LimitFault>
    requires samples_in_plane { All IsInPlane samples.now }
    requires stations_in_plane { All IsInPlane stations.now }
    requires placed { ArePlacesFrom 0 (length samples.now) stations.now places.now }
    requires near_low { 20 ≤ near }
    ensures hops { IfOk result (λ hops. map (λ hop. hop.items) hops.items ≡ hops_of near samples.now stations.now places.now) }
    ensures within { IfOk result (λ _. total_of (hops_of near samples.now stations.now places.now) ≤ left) }
    ensures joined { IfOk result (λ hops. AreJoined near stations.now (map (λ hop. hop.items) hops.items)) }
    ensures in_plane { IfOk result (λ hops. All (λ hop. All IsInPlane hop.items) hops.items) }
    ensures cause { IfErr result (λ fault. IsAbove Samples left (total_of (hops_of near samples.now stations.now places.now)) fault) }
{
    match track(alloc, samples, stations, places, near, left) {
        Ok(hops) => Ok(hops),
        Err(fault) => Err(as_fault_of_all_courses(fault)),
    }
}

/// Hops as sequences, from lists of their points.
fn sequences(alloc: Global, lists: Vec<Vec<Point>>) -> Result<Hops, NoMemory>
    ensures { IfOk result (λ hops. hops ≡ map (λ list. list.items) lists.items) }
{
    let mut hops = Vec::with_capacity(alloc, lists.len())?;
    for list in lists {
        hops.push(Sequence::of(list))?;
    }
    Ok(Sequence::of(hops))
}

/// How many samples hops have in all.
fn total(hops: &[Sequence<Point>]) -> u64
    requires few { total_of hops.now ≤ 4000000 }
    ensures { result ≡ total_of hops.now }
{
    let mut count = 0;
    for hop in hops {
        count += hop.as_slice().len() as u64;
    }
    count
}
