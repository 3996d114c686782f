//! Corridors, which tell whether a point lies in them.

ghost use Rattle.std.specs.Prelude.{◌≡◌, ◌*◌, ◌≤◌, ◌&&◌, IfOk, All};
ghost use Rattle.fixed_plane.specs.Plane.{IsInPlane};
ghost use Rattle.track_net.specs.Nearness.{FindsNear};
ghost use Rattle.net_paths.specs.Corridors.{is_in_corridor};

use map_base::{NoMemory, Point};
use std::alloc::Global;
use std::marker::Model;
use track_net::PointCells;

/// A point, and where it lies in a corridor a sample to which it is near.
#[derive(Clone, Copy)]
pub(crate) struct Place {
    pub(crate) point: Point,
    pub(crate) sample: Option<Point>,
}

/// A corridor, seen as its samples and `near`, in decimetres: the points that are nearer than four times `near` to
/// some sample.
#[derive(Drop)]
pub(crate) struct Corridor {
    near: u32,
    samples: PointCells,
}

impl Model for Corridor {
    ghost use Rattle.net_paths.specs.Corridors.{CorridorParts, IsWide};

    ghost Value = { CorridorParts };

    ghost view = { λ c. record { near = c.near; samples = c.samples.points } };

    ghost invariant = { λ c. IsWide c.near c.samples };
}

impl Corridor {
    /// The corridor along some samples. Its cells are a decimetre wider than it reaches, so that they have a size
    /// also where `near` is 0.
    pub(crate) fn along(alloc: Global, samples: &[Point], near: u32) -> Result<Corridor, NoMemory>
        requires in_plane { All IsInPlane samples.now }
        requires near_high { near ≤ 20000 }
        ensures { IfOk result (λ corridor. corridor ≡ record { near = near; samples = samples.now }) }
    {
        let samples = PointCells::of(alloc, samples, 4 * near + 1)?;
        Ok(Corridor { near, samples })
    }

    /// A point, with a sample to which it is near, if it lies in the corridor.
    pub(crate) fn place_of(&self, point: Point) -> Place
        requires in_plane { IsInPlane point }
        ensures point { result.point ≡ point }
        ensures sample { FindsNear (4 * self.now.near) self.now.samples point result.sample }
    {
        Place {
            point,
            sample: self.samples.near_point(None, point, 4 * self.near),
        }
    }

    /// Whether both of two points lie in the corridor. The sample to which the one is near is often near to the other
    /// too.
    pub(crate) fn holds_both(&self, here: Place, there: Point) -> bool
        requires in_plane { IsInPlane there }
        requires sample { FindsNear (4 * self.now.near) self.now.samples here.point here.sample }
        ensures { result ≡ (is_in_corridor self.now.near self.now.samples here.point && is_in_corridor self.now.near self.now.samples there) }
    {
        if here.sample.is_none() {
            return false;
        }
        let found = self.samples.near_point(here.sample, there, 4 * self.near);
        found.is_some()
    }
}
