//! The places of a name round its marker.

ghost use Rattle.std.specs.Prelude.{◌≡◌, ◌≤◌, ◌+ℤ◌, ◌-ℤ◌, pos, unsigned_abs};
ghost use Rattle.label_place.specs.Places.{text_at, text_x, text_y, box_from, box_at};
ghost use Rattle.label_place.specs.Signs.{IsSign};
ghost use Rattle.label_place.specs.Grids.{IsBox};

use line_offsets::Corner;
use svg_writer::Bounds;

/// A place of a name beside its marker.
#[derive(Clone, Copy, Debug, PartialEq, Eq)]
pub enum Place {
    /// Right of the marker and above it.
    NE,
    /// Right of it and below.
    SE,
    /// Left of it and above.
    NW,
    /// Left of it and below.
    SW,
    /// Right of it.
    E,
    /// Left of it.
    W,
    /// Above it.
    N,
    /// Below it.
    S,
}

/// A marker as it is drawn, and how many characters its name has.
#[derive(Clone, Copy, Debug)]
pub(crate) struct Sign {
    pub centre: Corner,
    pub radius: u32,
    pub letters: u32,
}

/// Where a name begins at a place.
pub(crate) fn text_at(sign: Sign, place: Place) -> Corner
    requires { IsSign sign }
    ensures value { result ≡ text_at sign place }
    ensures x { unsigned_abs result.x ≤ 300000000000 }
    ensures y { unsigned_abs result.y ≤ 300000000000 }
{
    Corner {
        x: text_x(sign, place),
        y: text_y(sign, place),
    }
}

/// Where it begins across.
fn text_x(sign: Sign, place: Place) -> i64
    requires { IsSign sign }
    ensures value { result ≡ text_x sign place }
    ensures small { unsigned_abs result ≤ 300000000000 }
{
    let gap = i64::from(sign.radius) + 4;
    let width = 12 * i64::from(sign.letters);
    match place {
        Place::NE | Place::SE | Place::E => sign.centre.x + gap,
        Place::NW | Place::SW | Place::W => sign.centre.x - gap - width,
        Place::N | Place::S => sign.centre.x - 6 * i64::from(sign.letters),
    }
}

/// Where its base line lies.
fn text_y(sign: Sign, place: Place) -> i64
    requires { IsSign sign }
    ensures value { result ≡ text_y sign place }
    ensures small { unsigned_abs result ≤ 300000000000 }
{
    let gap = i64::from(sign.radius) + 4;
    match place {
        Place::NE | Place::NW => sign.centre.y - gap,
        Place::SE | Place::SW | Place::S => sign.centre.y + (gap + 20),
        Place::E | Place::W => sign.centre.y + 8,
        Place::N => sign.centre.y - (gap + 4),
    }
}

/// The box of a name at a place.
pub(crate) fn box_at(sign: Sign, place: Place) -> Bounds
    requires { IsSign sign }
    ensures value { result ≡ box_at sign place }
    ensures small { IsBox result }
{
    box_from(text_at(sign, place), 12 * i64::from(sign.letters))
}

/// The box of a name of this width that begins at a point.
fn box_from(at: Corner, width: i64) -> Bounds
    requires x { unsigned_abs at.x ≤ 300000000000 }
    requires y { unsigned_abs at.y ≤ 300000000000 }
    requires width { unsigned_abs width ≤ 60000000000 }
    ensures value { result ≡ record { left = at.x; right = at.x +ℤ width; top = at.y -ℤ pos 20; bottom = at.y +ℤ pos 4 } }
    ensures small { IsBox result }
{
    Bounds {
        left: at.x,
        right: at.x + width,
        top: at.y - 20,
        bottom: at.y + 4,
    }
}
