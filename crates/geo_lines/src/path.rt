//! The path of a line beside a course.

ghost use Rattle.std.specs.Prelude.{◌≡◌, ◌++◌, ◌+◌, ◌<◌, ◌≤◌, length, unsigned_abs, All, IfOk, OnOk};
ghost use Rattle.fixed_plane.specs.Plane.{IsInPlane};
ghost use Rattle.track_net.specs.Nearness.{point_at};
ghost use Rattle.geo_lines.specs.Shifts.{corners_at, shift_of, width_of, IsWithin};
ghost use Rattle.geo_lines.specs.Courses.{path_end, path_start, shifted_path, IsCourse, IsNearPlane};

use crate::pieces::{meeting_of, meets_near, moved, onward_of, shift_of, width_of};
use crate::shift::Shift;
use map_base::{NoMemory, Point};
use std::alloc::Global;

/// The path of the line that stands k places to the right of a course, 30 units for each place. The course has two points
/// at least, each of the plane and apart from the next. The path begins and ends beside the ends of the course. At each
/// point between, it turns where the shifted pieces meet, or, at a turn that is sharper than 120 degrees, goes from the end
/// of the one to the beginning of the other.
pub fn shift_path(alloc: Global, points: &[Point], k: i32) -> Result<Vec<Point>, NoMemory>
    requires course { IsCourse points.now }
    requires places { unsigned_abs k ≤ 10000 }
    ensures path { IfOk result (λ path. path.items ≡ shifted_path k points.now) }
    ensures near { IfOk result (λ path. All IsNearPlane path.items) }
{
    let mut path = Vec::new(alloc);
    put_path(&mut path, points, k)?;
    Ok(path)
}

/// Puts the path of the line k places to the right of a course into `path`, in place of what it held.
pub fn put_path(path: &mut Vec<Point>, points: &[Point], k: i32) -> Result<(), NoMemory>
    requires course { IsCourse points.now }
    requires places { unsigned_abs k ≤ 10000 }
    ensures { OnOk result (path.new.items ≡ shifted_path k points.now) }
{
    let width = width_of(k);
    path.clear();
    let mut before = piece_at(points, 0, width);
    path.push(moved(points[0], before))?;
    for i in 0..points.len() - 2 {
        let behind = piece_at(points, i + 1, width);
        push_corners(path, points[i + 1], width, before, behind)?;
        before = behind;
    }
    path.push(moved(points[points.len() - 1], before))?;
    Ok(())
}

/// Where this path begins: its first corner.
pub fn path_start(points: &[Point], k: i32) -> Point
    requires course { IsCourse points.now }
    requires places { unsigned_abs k ≤ 10000 }
    ensures corner { result ≡ path_start (width_of k) points.now }
    ensures near { IsNearPlane result }
{
    moved(points[0], piece_at(points, 0, width_of(k)))
}

/// Where it ends: its last corner.
pub fn path_end(points: &[Point], k: i32) -> Point
    requires course { IsCourse points.now }
    requires places { unsigned_abs k ≤ 10000 }
    ensures corner { result ≡ path_end (width_of k) points.now }
    ensures near { IsNearPlane result }
{
    let last = points.len() - 1;
    moved(points[last], piece_at(points, last - 1, width_of(k)))
}

/// How the piece of a course is shifted that begins at point i.
fn piece_at(points: &[Point], i: usize, width: i64) -> Shift
    requires piece { i + 1 < length points.now }
    requires course { IsCourse points.now }
    requires width { unsigned_abs width ≤ 300000 }
    ensures value { result ≡ shift_of width (point_at points.now i) (point_at points.now (i + 1)) }
    ensures beside { IsWithin (unsigned_abs width) result }
{
    shift_of(width, points[i], points[i + 1])
}

/// Appends the corners at a point between two pieces with these shifts.
fn push_corners(
    path: &mut Vec<Point>,
    p: Point,
    width: i64,
    before: Shift,
    behind: Shift,
) -> Result<(), NoMemory>
    requires p { IsInPlane p }
    requires width { unsigned_abs width ≤ 300000 }
    requires before { IsWithin (unsigned_abs width) before }
    requires behind { IsWithin (unsigned_abs width) behind }
    ensures { OnOk result (path.new.items ≡ path.old.items ++ corners_at width p before behind) }
{
    if width == 0 {
        path.push(p)?;
        return Ok(());
    }
    let onward = onward_of(width, before, behind);
    if meets_near(width, onward) {
        path.push(moved(p, meeting_of(width, before, behind, onward)))?;
        return Ok(());
    }
    path.push(moved(p, before))?;
    path.push(moved(p, behind))?;
    Ok(())
}
