//! The samples of a list of points.

ghost use Rattle.std.specs.Prelude.{◌≡◌, ◌+◌, ◌<◌, ◌≤◌, [], IfOk, IfErr, length, vec_len, All, Some, None};
ghost use Rattle.fixed_plane.specs.Plane.{IsInPlane};
ghost use Rattle.shape_track.specs.Faults.{HasCause};
ghost use Rattle.shape_track.specs.Samples.{Joins, first_of, last_of, samples_of};

use crate::sampler::Sampler;
use map_base::{LimitFault, Point};
use std::alloc::Global;

/// The samples of a list of points: each straight piece is cut into the least number of parts of at most
/// half of `near`, and the samples are where the parts begin, rounded downwards, and then the last point. A
/// sample that equals the one before it is left out. There is a limit where there are more than `most`
/// samples, and no more than `most` are made.
pub fn sample(
    alloc: Global,
    points: &[Point],
    near: u32,
    most: u64,
) -> Result<Vec<Point>, LimitFault>
    requires some { 0 < length points.now }
    requires in_plane { All IsInPlane points.now }
    requires near_low { 20 ≤ near }
    ensures samples { IfOk result (λ samples. samples.items ≡ samples_of near points.now) }
    ensures within { IfOk result (λ samples. vec_len samples ≤ most) }
    ensures cause { IfErr result (λ fault. HasCause most (length (samples_of near points.now)) fault) }

    // They begin and end where the points do, each is close to the next, and they are in the plane.
    ensures joins { IfOk result (λ samples. Joins near (first_of points.now) (last_of points.now) samples.items) }
    ensures in_plane { IfOk result (λ samples. All IsInPlane samples.items) }
{
    let sampler = counted_samples(alloc, points, near, 0, most)?;
    Ok(sampler.kept)
}

/// The samples of a list of points, where `count` samples were counted elsewhere.
pub(crate) fn counted_samples(
    alloc: Global,
    points: &[Point],
    near: u32,
    count: u64,
    most: u64,
) -> Result<Sampler, LimitFault>
    requires some { 0 < length points.now }
    requires in_plane { All IsInPlane points.now }
    requires near_low { 20 ≤ near }
    requires counted { count ≤ most }
    ensures samples { IfOk result (λ sampler. sampler.kept.items ≡ samples_of near points.now) }
    ensures count { IfOk result (λ sampler. sampler.count ≡ count + length (samples_of near points.now)) }
    ensures within { IfOk result (λ sampler. sampler.count ≤ most) }
    ensures cause { IfErr result (λ fault. HasCause most (count + length (samples_of near points.now)) fault) }
{
    let mut sampler = Sampler::new(alloc, points.len(), count, most)?;
    for index in 1..points.len() {
        sampler.keep_piece(points[index - 1], points[index], near)?;
    }
    sampler.keep(points[points.len() - 1])?;
    Ok(sampler)
}
