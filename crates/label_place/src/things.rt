//! What names keep clear of.

ghost use Rattle.std.specs.Prelude.{◌≡◌, ◌≤◌, unsigned_abs};
ghost use Rattle.svg_writer.specs.Elements.{AreBounds};
ghost use Rattle.label_place.specs.Grids.{meets, span, reach, IsBox, IsStroke, IsThing};

use crate::boxes::{greatest, least, share_point, wider};
use crate::strokes::{Stroke, holds_some, stroke_end};
use line_offsets::Corner;
use octi_grid::Dir;
use svg_writer::Bounds;

/// What a name keeps clear of.
#[derive(Clone, Copy, Debug)]
pub(crate) enum Thing {
    /// The square of a marker, or the box of a name.
    Area(Bounds),
    /// A step of a walk.
    Line(Stroke),
}

/// Whether the box of a name meets a thing.
pub(crate) fn meets(bounds: Bounds, thing: Thing) -> bool
    requires bounds { IsBox bounds }
    requires thing { IsThing thing }
    ensures { result ≡ meets bounds thing }
{
    match thing {
        Thing::Area(area) => share_point(bounds, area),
        Thing::Line(stroke) => holds_some(wider(stroke.margin, bounds), stroke.start, stroke.dir),
    }
}

/// The box with which a box shares a point where it meets a thing.
pub(crate) fn reach(thing: Thing) -> Bounds
    requires { IsThing thing }
    ensures value { result ≡ reach thing }
    ensures small { AreBounds result }
{
    match thing {
        Thing::Area(area) => area,
        Thing::Line(stroke) => wider(stroke.margin, span(stroke.start, stroke.dir)),
    }
}

/// The box of the points of a step.
fn span(start: Corner, dir: Dir) -> Bounds
    requires x { unsigned_abs start.x ≤ 3000000 }
    requires y { unsigned_abs start.y ≤ 3000000 }
    ensures value { result ≡ span start dir }
    ensures small { IsBox result }
{
    let end = stroke_end(start, dir);
    Bounds {
        left: least(start.x, end.x),
        right: greatest(start.x, end.x),
        top: least(start.y, end.y),
        bottom: greatest(start.y, end.y),
    }
}
