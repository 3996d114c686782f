//! Points that are moved apart.

ghost use Rattle.std.specs.Prelude.{◌≡◌, ◌≤◌, ℕ, [], false, Some, IfOk, OnOk, All, length};
ghost use Rattle.fixed_plane.specs.Plane.{IsInPlane};
ghost use Rattle.feed_courses.specs.Fit.{AreDistinct};
ghost use Rattle.feed_courses.specs.Places.{is_taken, moved_apart, right_of};
ghost use Rattle.feed_courses.specs.Runs.{IsOnEarth};

use map_base::{NoMemory, Point};
use std::alloc::Global;
use std::collections::HashMap;
use std::marker::Model;

/// Points that are taken, seen as their list, no two of them alike.
#[derive(Drop)]
pub(crate) struct Apart {
    points: Vec<Point>,
    /// For each taken point one to the right of it, up to which all points are taken.
    past: HashMap<Point, Point>,
}

impl Model for Apart {
    ghost use Rattle.std.specs.Prelude.{List};
    ghost use Rattle.map_base.specs.declared.point.Point.{Point as P};
    ghost use Rattle.feed_courses.specs.Runs.{AreKept};

    ghost Value = { List P };

    ghost view = { λ a. a.points.items };

    ghost invariant = { λ a. AreKept a.points.items a.past };
}

impl Apart {
    ghost use Rattle.feed_courses.specs.Places.{with_point};
    ghost use Rattle.feed_courses.specs.Runs.{IsRun, LeadsPast};

    /// No point is taken.
    fn new(alloc: Global) -> Apart
        ensures { result ≡ [] }
    {
        Apart {
            points: Vec::new(alloc),
            past: HashMap::new(alloc),
        }
    }

    /// One more point, moved to the first free one from it on to the right.
    fn with(mut self, point: Point) -> Result<Apart, NoMemory>
        requires few { length self ≤ 10000 }
        requires on_earth { IsOnEarth point }
        ensures { IfOk result (λ apart. apart ≡ with_point self point) }
    {
        let free = self.first_free(point)?;
        let next = right_of(free);
        self.past.insert(free, next)?;
        self.points.push(free)?;
        Ok(self)
    }

    /// The first free point from one on to the right. What is known past each taken point on the way is led on to
    /// what is known past that, so that later ways are shorter.
    fn first_free(&mut self, point: Point) -> Result<Point, NoMemory>
        ensures same { OnOk result (self.new ≡ self.old) }
        ensures free { IfOk result (λ free. is_taken self.old free ≡ false) }
        ensures run { IfOk result (λ free. (steps : ℕ) × IsRun self.old point free steps) }
    {
        let mut free = point;
        while let Some(next) = self.past(free) {
            self.lead_on(free, next)?;
            free = next;
        }
        Ok(free)
    }

    /// Where more is known past what is known past a point, the point is led on to it.
    fn lead_on(&mut self, point: Point, next: Point) -> Result<(), NoMemory>
        requires leads { LeadsPast self.old point (Some next) }
        ensures same { OnOk result (self.new ≡ self.old) }
    {
        if let Some(after) = self.past(next) {
            self.past.insert(point, after)?;
        }
        Ok(())
    }

    /// A point to the right of a taken one, up to which all points are taken.
    fn past(&self, point: Point) -> Option<Point>
        ensures { LeadsPast self.now point result }
    {
        self.past.get(&point).copied()
    }

    /// The taken points.
    fn into_points(self) -> Vec<Point>
        ensures points { result.items ≡ self }
        ensures distinct { AreDistinct self }
        ensures in_plane { All IsInPlane self }
    {
        self.points
    }
}

/// The point one unit to the right.
fn right_of(point: Point) -> Point
    requires { IsInPlane point }
    ensures { result ≡ right_of point }
{
    Point {
        x: point.x + 1,
        y: point.y,
    }
}

/// Points, each moved to the first free one to the right where an earlier one has its own.
pub(crate) fn moved_apart(alloc: Global, points: &[Point]) -> Result<Vec<Point>, NoMemory>
    requires few { length points.now ≤ 10000 }
    requires on_earth { All IsOnEarth points.now }
    ensures points { IfOk result (λ apart. apart.items ≡ moved_apart points.now) }
    ensures distinct { IfOk result (λ apart. AreDistinct apart.items) }
    ensures in_plane { IfOk result (λ apart. All IsInPlane apart.items) }
{
    let mut apart = Apart::new(alloc);
    for point in points {
        apart = apart.with(*point)?;
    }
    Ok(apart.into_points())
}
