//! Points that are near to others.

ghost use Rattle.std.specs.Prelude.{◌≡◌, All};
ghost use Rattle.fixed_plane.specs.Plane.{IsInPlane};
ghost use Rattle.track_net.specs.Nearness.{FindsNear, is_nearer};

use fixed_plane::dist2;
use map_base::Point;

/// Whether two points are nearer to one another than `distance`, in decimetres.
pub(crate) fn are_near(a: Point, b: Point, distance: u32) -> bool
    requires a_in_plane { IsInPlane a }
    requires b_in_plane { IsInPlane b }
    ensures { result ≡ is_nearer distance a b }
{
    dist2(a, b) < u64::from(distance) * u64::from(distance)
}

/// A point of a list that is nearer to `at` than `distance`, in decimetres, if there is one.
pub(crate) fn near_point(points: &[Point], at: Point, distance: u32) -> Option<Point>
    requires points_in_plane { All IsInPlane points.now }
    requires at_in_plane { IsInPlane at }
    ensures { FindsNear distance points.now at result }
{
    for point in points {
        if are_near(*point, at, distance) {
            return Some(*point);
        }
    }
    None
}
