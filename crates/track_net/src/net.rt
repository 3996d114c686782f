//! A net, and its readers.

ghost use Rattle.std.specs.Prelude.{◌≡◌, ◌<◌, ◌↔◌, length, IsTrue};
ghost use Rattle.fixed_plane.specs.Plane.{IsInPlane};

use map_base::Point;
use std::marker::Model;

/// Points with edges between near ones, seen as the list of its points, in order, and for each the rising
/// numbers of the points with which it has an edge. Its type keeps that it is the net over its points: two of
/// them have an edge where they are nearer than three times `near` and no third lies in the disk over them.
#[derive(Debug, Drop)]
pub struct Net {
    pub(crate) points: Vec<Point>,
    pub(crate) edges: Vec<Vec<u32>>,
}

impl Model for Net {
    ghost use Rattle.std.specs.Prelude.{map};
    ghost use Rattle.track_net.specs.Nets.{NetParts};

    ghost Value = { NetParts };

    ghost use Rattle.track_net.specs.Nets.{IsNet};

    ghost view = { λ n. record { points = n.points.items; edges = map (λ row. row.items) n.edges.items } };

    ghost invariant = { λ n. IsNet (record { points = n.points.items; edges = map (λ row. row.items) n.edges.items }) };
}

impl Net {
    ghost use Rattle.track_net.specs.Nearness.{point_at};
    ghost use Rattle.track_net.specs.Nets.{IsNet, edges_of_point};

    /// How many points there are.
    pub fn len(&self) -> usize
        ensures count { result ≡ length self.now.points }
        ensures kept { IsNet self.now }
    {
        self.points.len()
    }

    /// Whether there is no point.
    pub fn is_empty(&self) -> bool
        ensures { IsTrue result ↔ (length self.now.points ≡ 0) }
    {
        self.points.is_empty()
    }

    /// The points, in order.
    pub fn points(&self) -> &[Point]
        ensures points { result.now ≡ self.now.points }
        ensures kept { IsNet self.now }
    {
        self.points.as_slice()
    }

    /// The point of a number.
    pub fn point(&self, i: u32) -> Point
        requires { i < length self.now.points }
        ensures value { result ≡ point_at self.now.points i }
        ensures in_plane { IsInPlane result }
    {
        self.points[i as usize]
    }

    /// The numbers of the points with which one has an edge, rising.
    pub fn edges_of(&self, i: u32) -> &[u32]
        requires { i < length self.now.points }
        ensures { result.now ≡ edges_of_point self.now i }
    {
        self.edges[i as usize].as_slice()
    }
}
