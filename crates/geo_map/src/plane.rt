//! Drawings in the plane.

ghost use Rattle.std.specs.Prelude.{◌≡◌, ◌++◌, ◌≤◌, Some, slice_get, option_map, unsigned_abs, map, All, OnOk};
ghost use Rattle.geo_lines.specs.Shifts.{width_of};
ghost use Rattle.geo_lines.specs.Courses.{path_end, path_start, shifted_path, IsCourse, IsNearPlane};
ghost use Rattle.geo_map.specs.GeoMap.{course_at, drawn, place_at, IsNearMiddle};

use geo_lines::{path_end, path_start, shift_path};
use graph_core::LineGraph;
use line_offsets::Corner;
use map_base::{NoMemory, NodeId, Point, Sequence};
use std::alloc::Global;
use svg_writer::Drawn;

/// A line graph with the course of each of its segments.
#[derive(Drop)]
pub struct PlaneDrawing<'a> {
    /// What memory comes from.
    pub alloc: Global,
    /// The line graph.
    pub graph: &'a LineGraph,
    /// The course of each segment, from its lower to its upper end.
    pub lines: &'a [Sequence<Point>],
}

impl Drawn for PlaneDrawing<'_> {
    ghost use Rattle.geo_map.specs.GeoMap.{plane_courses, IsNearMiddle};

    ghost courses = { λ d. plane_courses d.graph.now d.lines.now };

    ghost Reaches = { λ d k. IsNearMiddle d.lines.now k };

    fn put_line(&self, path: &mut Vec<Corner>, s: u32, k: i32) -> Result<(), NoMemory> {
        put_line(self.alloc, path, self.lines, s, k)
    }

    fn start(&self, s: u32, k: i32) -> Corner {
        start_at(self.lines, s, k)
    }

    fn end(&self, s: u32, k: i32) -> Corner {
        end_at(self.lines, s, k)
    }

    fn centre(&self, n: NodeId) -> Corner {
        centre_of(self.graph, n)
    }
}

/// Puts the corners of a line that stands k places beside the course of a segment into `path`, in place of what it held.
#[tactic(auto, using(crate::proofs::Reaching::course_there))]
fn put_line(
    alloc: Global,
    path: &mut Vec<Corner>,
    lines: &[Sequence<Point>],
    s: u32,
    k: i32,
) -> Result<(), NoMemory>
    requires { IsNearMiddle lines.now k }
    ensures { OnOk result (path.new.items ≡ map drawn (shifted_path k (course_at lines.now s))) }
{
    path.clear();
    match course_of(lines, s) {
        Some(course) => push_line(alloc, path, course.as_slice(), k),
        None => Ok(()),
    }
}

/// Where a line that stands k places beside the course of a segment starts.
#[tactic(auto, using(crate::proofs::Reaching::course_there))]
fn start_at(lines: &[Sequence<Point>], s: u32, k: i32) -> Corner
    requires { IsNearMiddle lines.now k }
    ensures { result ≡ drawn (path_start (width_of k) (course_at lines.now s)) }
{
    match course_of(lines, s) {
        Some(course) => drawn(path_start(course.as_slice(), k)),
        None => Corner { x: 0, y: 0 },
    }
}

/// Where it ends.
#[tactic(auto, using(crate::proofs::Reaching::course_there))]
fn end_at(lines: &[Sequence<Point>], s: u32, k: i32) -> Corner
    requires { IsNearMiddle lines.now k }
    ensures { result ≡ drawn (path_end (width_of k) (course_at lines.now s)) }
{
    match course_of(lines, s) {
        Some(course) => drawn(path_end(course.as_slice(), k)),
        None => Corner { x: 0, y: 0 },
    }
}

/// The course of a segment, where there is one.
fn course_of<'a>(lines: &'a [Sequence<Point>], s: u32) -> Option<&'a Sequence<Point>>
    ensures { slice_get lines.now s ≡ option_map (λ c. c.now) result }
{
    lines.get(s as usize)
}

/// Appends the corners of a line that stands k places beside a course.
fn push_line(
    alloc: Global,
    path: &mut Vec<Corner>,
    course: &[Point],
    k: i32,
) -> Result<(), NoMemory>
    requires course { IsCourse course.now }
    requires places { unsigned_abs k ≤ 10000 }
    ensures { OnOk result (path.new.items ≡ path.old.items ++ map drawn (shifted_path k course.now)) }
{
    let line = shift_path(alloc, course, k)?;
    push_drawn(path, line.as_slice())?;
    Ok(())
}

/// Appends points of the plane as they are drawn.
fn push_drawn(path: &mut Vec<Corner>, points: &[Point]) -> Result<(), NoMemory>
    requires { All IsNearPlane points.now }
    ensures { OnOk result (path.new.items ≡ path.old.items ++ map drawn points.now) }
{
    for point in points {
        path.push(drawn(*point))?;
    }
    Ok(())
}

/// A point of the plane as it is drawn: north is above.
pub(crate) fn drawn(p: Point) -> Corner
    requires { IsNearPlane p }
    ensures { result ≡ drawn p }
{
    Corner { x: p.x, y: 0 - p.y }
}

/// Where a node is drawn.
fn centre_of(graph: &LineGraph, n: NodeId) -> Corner
    ensures value { result ≡ drawn (place_at graph.now.places n.0) }
    ensures across { unsigned_abs result.x ≤ 1099511627776 }
    ensures down { unsigned_abs result.y ≤ 1099511627776 }
{
    drawn(place_of(graph, n))
}

/// Where a node lies.
fn place_of(graph: &LineGraph, n: NodeId) -> Point
    ensures value { result ≡ place_at graph.now.places n.0 }
    ensures near { IsNearPlane result }
{
    if n.0 < graph.nodes() {
        graph.place(n)
    } else {
        Point { x: 0, y: 0 }
    }
}
