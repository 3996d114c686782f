//! Edges between near points.

ghost use Rattle.std.specs.Prelude.{◌≡◌, ◌*◌, ◌<◌, ◌≤◌, IfOk, All, filter, length, map};
ghost use Rattle.fixed_plane.specs.Plane.{IsInPlane};
ghost use Rattle.track_net.specs.Nearness.{point_at};
ghost use Rattle.track_net.specs.Nets.{all_edges, edges_at, is_in_disk, parts_them};
ghost use Rattle.track_net.specs.Searching.{IsOneOf, is_undivided};

use crate::buckets::Buckets;
use crate::nearest::nearest_on_each_side;
use fixed_plane::dist2;
use map_base::{NoMemory, Point};
use std::alloc::Global;

/// For each point the numbers of those with which it has an edge, rising.
pub(crate) fn edges_over(
    alloc: Global,
    points: &[Point],
    near: u32,
) -> Result<Vec<Vec<u32>>, NoMemory>
    requires in_plane { All IsInPlane points.now }
    requires few { length points.now ≤ 100000 }
    requires some { 0 < near }
    requires near_high { near ≤ 20000 }
    ensures { IfOk result (λ edges. map (λ row. row.items) edges.items ≡ all_edges near points.now) }
{
    let buckets = Buckets::of(alloc, points, 3 * near)?;
    let mut candidates = Vec::new(alloc);
    let mut edges = Vec::with_capacity(alloc, points.len())?;
    for i in 0..points.len() {
        let row = edges_from(alloc, points, &buckets, i as u32, near, &mut candidates)?;
        edges.push(row)?;
    }
    Ok(edges)
}

/// The numbers of the points with which point `i` has an edge, rising. The buckets are those of the points. What parts
/// two near points is near to both, so that only near points are looked at; `candidates` is where they are kept.
fn edges_from(
    alloc: Global,
    points: &[Point],
    buckets: &Buckets,
    i: u32,
    near: u32,
    candidates: &mut Vec<u32>,
) -> Result<Vec<u32>, NoMemory>
    requires in_plane { All IsInPlane points.now }
    requires theirs { buckets.now ≡ record { points = points.now; size = 3 * near } }
    requires few { length points.now ≤ 100000 }
    requires in_range { i < length points.now }
    requires near_high { near ≤ 20000 }
    ensures { IfOk result (λ row. row.items ≡ edges_at near points.now i) }
{
    buckets.find_near(points[i as usize], 3 * near, candidates)?;
    let mut row = undivided(alloc, points, candidates, i)?;
    row.sort_unstable();
    row.dedup();
    Ok(row)
}

/// The candidates that no candidate parts from point `i`, in their order. Those nearest to it on all sides part it from
/// most others, and are asked first.
fn undivided(
    alloc: Global,
    points: &[Point],
    candidates: &[u32],
    i: u32,
) -> Result<Vec<u32>, NoMemory>
    requires in_plane { All IsInPlane points.now }
    requires i_in_range { i < length points.now }
    requires in_range { All (λ k. k < length points.now) candidates.now }
    ensures { IfOk result (λ row. row.items ≡ filter (is_undivided points.now candidates.now i) candidates.now) }
{
    let nearest = nearest_on_each_side(points, candidates, i);
    let mut row = Vec::new(alloc);
    for j in candidates {
        if are_undivided_by_both(points, &nearest, candidates, i, *j) {
            row.push(*j)?;
        }
    }
    Ok(row)
}

/// Whether `i` and `j` are two points that no candidate parts, where some of the candidates are asked first.
fn are_undivided_by_both(
    points: &[Point],
    first: &[u32],
    candidates: &[u32],
    i: u32,
    j: u32,
) -> bool
    requires in_plane { All IsInPlane points.now }
    requires i_in_range { i < length points.now }
    requires j_in_range { j < length points.now }
    requires first { All (IsOneOf candidates.now i) first.now }
    requires in_range { All (λ k. k < length points.now) candidates.now }
    ensures { result ≡ is_undivided points.now candidates.now i j }
{
    if !are_undivided(points, first, i, j) {
        return false;
    }
    are_undivided(points, candidates, i, j)
}

/// Whether `i` and `j` are two points that no candidate parts.
fn are_undivided(points: &[Point], candidates: &[u32], i: u32, j: u32) -> bool
    requires in_plane { All IsInPlane points.now }
    requires i_in_range { i < length points.now }
    requires j_in_range { j < length points.now }
    requires candidates_in_range { All (λ k. k < length points.now) candidates.now }
    ensures { result ≡ is_undivided points.now candidates.now i j }
{
    if i == j {
        return false;
    }
    for k in candidates {
        if parts(points, i, j, *k) {
            return false;
        }
    }
    true
}

/// Whether `k` is a third point beside `i` and `j`, and lies in the disk over them.
fn parts(points: &[Point], i: u32, j: u32, k: u32) -> bool
    requires in_plane { All IsInPlane points.now }
    requires i_in_range { i < length points.now }
    requires j_in_range { j < length points.now }
    requires k_in_range { k < length points.now }
    ensures { result ≡ parts_them points.now i j k }
{
    if k == i {
        return false;
    }
    if k == j {
        return false;
    }
    lies_in_disk(points[i as usize], points[j as usize], points[k as usize])
}

/// Whether `p` lies in the disk over `a` and `b`, its rim included.
fn lies_in_disk(a: Point, b: Point, p: Point) -> bool
    requires a_in_plane { IsInPlane a }
    requires b_in_plane { IsInPlane b }
    requires p_in_plane { IsInPlane p }
    ensures { result ≡ is_in_disk a b p }
{
    dist2(a, p) + dist2(p, b) <= dist2(a, b)
}
