//! The nearest of some points on each side of another.

ghost use Rattle.std.specs.Prelude.{◌≡◌, ◌<◌, ◌⊎◌, All, length, slice_set};
ghost use Rattle.fixed_plane.specs.Plane.{IsInPlane};
ghost use Rattle.track_net.specs.Searching.{IsOneOf};

use fixed_plane::dist2;
use map_base::Point;

/// The number of a point on each side of another that is the nearest so far.
#[derive(Drop)]
struct Nearest {
    numbers: [u32; 8],
    squares: [u64; 8],
}

impl Nearest {
    /// Puts a point on a side in the place of the one that is known there, if it is nearer.
    fn look(&mut self, side: usize, number: u32, square: u64)
        requires { side < 8 }
        ensures { (self.new.numbers ≡ self.old.numbers) ⊎ (self.new.numbers ≡ slice_set self.old.numbers side number) }
    {
        if square < self.squares[side] {
            self.numbers[side] = number;
            self.squares[side] = square;
        }
    }
}

/// For each side of point `i` the candidate on it that is nearest to the point, or `i` where there is none.
pub(crate) fn nearest_on_each_side(points: &[Point], candidates: &[u32], i: u32) -> [u32; 8]
    requires in_plane { All IsInPlane points.now }
    requires i_in_range { i < length points.now }
    requires in_range { All (λ k. k < length points.now) candidates.now }
    ensures { All (IsOneOf candidates.now i) result }
{
    let here = points[i as usize];
    let mut nearest = Nearest {
        numbers: [i; 8],
        squares: [u64::MAX; 8],
    };
    for k in candidates {
        let there = points[*k as usize];
        if *k != i {
            nearest.look(side_of(here, there), *k, dist2(here, there));
        }
    }
    nearest.numbers
}

/// In which eighth of the directions from one point another lies.
fn side_of(here: Point, there: Point) -> usize
    requires here_in_plane { IsInPlane here }
    requires there_in_plane { IsInPlane there }
    ensures { result < 8 }
{
    let (x, y) = (there.x - here.x, there.y - here.y);
    let east = if x > 0 { 4 } else { 0 };
    let north = if y > 0 { 2 } else { 0 };
    let steep = if x.abs() < y.abs() { 1 } else { 0 };
    east + north + steep
}
