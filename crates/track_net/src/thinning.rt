//! Samples that become net points.

ghost use Rattle.std.specs.Prelude.{◌≡◌, ℕ, ◌<◌, ◌≤◌, OnOk, IfOk, IfErr, IfSome, All, Contains, length, vec_len};
ghost use Rattle.fixed_plane.specs.Plane.{IsInPlane};
ghost use Rattle.track_net.specs.Nets.{net_points, with_sample};
ghost use Rattle.track_net.specs.Cells.{AreKept};
ghost use Rattle.track_net.specs.Faults.{HasCause};

use crate::cells::cell_at;
use crate::point_cells::{Kept, keep, kept_of, near_in_cells};
use map_base::{Limit, LimitFault, LimitKind, Point};
use std::alloc::Global;

/// The greatest allowed number of net points.
const MOST_POINTS: usize = 100_000;

/// The net points: the stations, and then each sample that has no earlier net point nearer than `near`.
pub(crate) fn thinned(
    alloc: Global,
    stations: &[Point],
    samples: &[Point],
    near: u32,
) -> Result<Vec<Point>, LimitFault>
    requires stations_in_plane { All IsInPlane stations.now }
    requires samples_in_plane { All IsInPlane samples.now }
    requires some { 0 < near }
    ensures points { IfOk result (λ points. points.items ≡ net_points near stations.now samples.now) }
    ensures in_plane { IfOk result (λ points. All IsInPlane points.items) }
    ensures few { IfOk result (λ points. vec_len points ≤ 100000) }
    ensures cause { IfErr result (λ fault. HasCause (length (net_points near stations.now samples.now)) fault) }
{
    if stations.len() > MOST_POINTS {
        return Err(too_many());
    }
    let mut points = stations.to_vec(alloc)?;
    let mut cells = kept_of(alloc, stations, near)?;
    let mut last = None;
    for sample in samples {
        last = Some(add_sample(alloc, &mut points, &mut cells, last, *sample, near)?);
    }
    Ok(points)
}

/// Adds a sample to the net points, unless one of them is nearer than `near`, and answers the one that is near to it
/// then. The cells are those of the points; `last` is the one that was near to the sample before, which is often near
/// to this one too.
fn add_sample(
    alloc: Global,
    points: &mut Vec<Point>,
    cells: &mut Kept,
    last: Option<Point>,
    sample: Point,
    near: u32,
) -> Result<Point, LimitFault>
    requires points_in_plane { All IsInPlane points.old.items }
    requires sample_in_plane { IsInPlane sample }
    requires few { vec_len points.old ≤ 100000 }
    requires some { 0 < near }
    requires theirs { AreKept near points.old.items cells.old }
    requires last { IfSome last (Contains points.old.items) }
    ensures last { IfOk result (Contains points.new.items) }
    ensures points { OnOk result (points.new.items ≡ with_sample near points.old.items sample) }
    ensures in_plane { OnOk result (All IsInPlane points.new.items) }
    ensures few { OnOk result (vec_len points.new ≤ 100000) }
    ensures theirs { OnOk result (AreKept near points.new.items cells.new) }
    ensures cause { IfErr result (λ fault. HasCause (length (with_sample near points.old.items sample)) fault) }
{
    if let Some(point) = near_in_cells(cells, points, near, last, sample, near) {
        return Ok(point);
    }
    if points.len() >= MOST_POINTS {
        return Err(too_many());
    }
    keep(alloc, cells, cell_at(sample, near), sample)?;
    points.push(sample)?;
    Ok(sample)
}

/// What is reported of more net points than the greatest allowed number.
fn too_many() -> LimitFault
    ensures { (count : ℕ) → 100000 < count → HasCause count result }
{
    LimitFault::Limit(Limit {
        what: LimitKind::NetPoints,
        found: 100_001,
        most: 100_000,
    })
}
