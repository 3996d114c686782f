//! Boxes of what is drawn, rims included.

ghost use Rattle.std.specs.Prelude.{◌≡◌, ◌≤◌, int_le, unsigned_abs};
ghost use Rattle.std.specs.Int.{int_min, int_max};
ghost use Rattle.svg_writer.specs.Elements.{AreBounds};
ghost use Rattle.label_place.specs.Boxes.{share_point, wider, hull, square};
ghost use Rattle.label_place.specs.Grids.{IsBox};

use line_offsets::Corner;
use svg_writer::Bounds;

/// Whether two boxes share a point.
pub(crate) fn share_point(a: Bounds, b: Bounds) -> bool
    requires a { IsBox a }
    requires b { IsBox b }
    ensures { result ≡ share_point a b }
{
    overlap(a.left, b.left, a.right, b.right) && overlap(a.top, b.top, a.bottom, b.bottom)
}

/// Whether neither of two numbers is above one of two others.
pub(crate) fn overlap(low: i64, other_low: i64, high: i64, other_high: i64) -> bool
    ensures { result ≡ int_le (int_max low other_low) (int_min high other_high) }
{
    low.max(other_low) <= high.min(other_high)
}

/// The lesser of two numbers.
pub(crate) fn least(a: i64, b: i64) -> i64
    requires a { unsigned_abs a ≤ 4398046511104 }
    requires b { unsigned_abs b ≤ 4398046511104 }
    ensures value { result ≡ int_min a b }
    ensures small { unsigned_abs result ≤ 4398046511104 }
{
    a.min(b)
}

/// The greater of two numbers.
pub(crate) fn greatest(a: i64, b: i64) -> i64
    requires a { unsigned_abs a ≤ 4398046511104 }
    requires b { unsigned_abs b ≤ 4398046511104 }
    ensures value { result ≡ int_max a b }
    ensures small { unsigned_abs result ≤ 4398046511104 }
{
    a.max(b)
}

/// A box, wider by so much on each side.
pub(crate) fn wider(by: u32, b: Bounds) -> Bounds
    requires small { IsBox b }
    requires by { by ≤ 700000000 }
    ensures value { result ≡ wider by b }
    ensures small { AreBounds result }
{
    let by = i64::from(by);
    Bounds {
        left: b.left - by,
        right: b.right + by,
        top: b.top - by,
        bottom: b.bottom + by,
    }
}

/// The least box that holds two boxes.
pub(crate) fn hull(a: Bounds, b: Bounds) -> Bounds
    requires a { AreBounds a }
    requires b { AreBounds b }
    ensures value { result ≡ hull a b }
    ensures small { AreBounds result }
{
    Bounds {
        left: least(a.left, b.left),
        right: greatest(a.right, b.right),
        top: least(a.top, b.top),
        bottom: greatest(a.bottom, b.bottom),
    }
}

/// The square round a point.
pub(crate) fn square(centre: Corner, radius: u32) -> Bounds
    requires x { unsigned_abs centre.x ≤ 214748364800 }
    requires y { unsigned_abs centre.y ≤ 214748364800 }
    ensures value { result ≡ square centre radius }
    ensures small { IsBox result }
{
    let radius = i64::from(radius);
    Bounds {
        left: centre.x - radius,
        right: centre.x + radius,
        top: centre.y - radius,
        bottom: centre.y + radius,
    }
}
