//! The frame of a poster: that of the grid points of its walks and of its names.

ghost use Rattle.std.specs.Prelude.{◌≡◌, ◌≤◌, ◌-ℤ◌, int_le, pos, unsigned_abs, fold};
ghost use Rattle.eight_sides.specs.Frames.{frame_of, shape_corners, widened};
ghost use Rattle.poster_plan.specs.Pitches.{frame_with, is_small, walked_corners};
ghost use Rattle.poster_layout.specs.Extents.{first_corner, first_frame, piece_ends, IsNearCorner, IsNearFrame};
ghost use Rattle.name_places.specs.Near.{IsNearBy, IsNearShape};

use eight_sides::{Frame, Interval, Shape, frame_at, widened};
use line_offsets::{Corner, drawn_at};
use name_places::printed_shape;
use poster_plan::{Piece, Plan, Printed};

/// The least frame of all grid points of walks, that of the origin where there is none, and of these names.
pub fn frame_with(pitch: u32, plan: &Plan, printed: &[Printed]) -> Frame
    requires { pitch ≤ 200 }
    ensures value { result ≡ frame_with pitch plan.now printed.now }
    ensures near { IsNearFrame result }
{
    let mut frame = walked_frame(pitch, plan.pieces.as_slice());
    for name in printed {
        frame = with_shape(frame, printed_shape(pitch, plan, *name));
    }
    frame
}

/// The least frame of all grid points of walks, that of the origin where there is none.
fn walked_frame(pitch: u32, pieces: &[Piece]) -> Frame
    requires { pitch ≤ 200 }
    ensures value { result ≡ frame_of (walked_corners pitch pieces.now) }
    ensures near { IsNearFrame result }
{
    let mut frame = first_frame(pitch, pieces);
    for piece in pieces {
        frame = with_piece(frame, pitch, *piece);
    }
    frame
}

/// The frame of the start of the first of these pieces, that of the origin where there is none.
fn first_frame(pitch: u32, pieces: &[Piece]) -> Frame
    requires { pitch ≤ 200 }
    ensures value { result ≡ first_frame pitch pieces.now }
    ensures near { IsNearFrame result }
{
    frame_at(first_corner(pitch, pieces))
}

/// The start of the first of these pieces, the origin where there is none.
fn first_corner(pitch: u32, pieces: &[Piece]) -> Corner
    requires { pitch ≤ 200 }
    ensures value { result ≡ first_corner pitch pieces.now }
    ensures near { IsNearCorner result }
{
    match pieces {
        [] => Corner { x: 0, y: 0 },
        [first, ..] => drawn_at(pitch, first.start),
    }
}

/// A frame, widened to hold the ends of a piece.
fn with_piece(frame: Frame, pitch: u32, piece: Piece) -> Frame
    requires pitch { pitch ≤ 200 }
    requires frame { IsNearFrame frame }
    ensures value { result ≡ fold widened frame (piece_ends pitch piece) }
    ensures near { IsNearFrame result }
{
    let start = drawn_at(pitch, piece.start);
    let end = drawn_at(pitch, piece.end);
    let begun = with_corner(frame, start);
    with_corner(begun, end)
}

/// A frame, widened to hold a shape.
fn with_shape(frame: Frame, s: Shape) -> Frame
    requires frame { IsNearFrame frame }
    requires shape { IsNearShape s }
    ensures value { result ≡ fold widened frame (shape_corners s) }
    ensures near { IsNearFrame result }
{
    let least = least_of(s);
    let greatest = greatest_of(s);
    let begun = with_corner(frame, least);
    with_corner(begun, greatest)
}

/// The least x and y of a shape.
fn least_of(s: Shape) -> Corner
    requires { IsNearShape s }
    ensures value { result ≡ record { x = s.across.least; y = s.down.least } }
    ensures near { IsNearCorner result }
{
    Corner {
        x: s.across.least,
        y: s.down.least,
    }
}

/// The greatest x and y of a shape.
fn greatest_of(s: Shape) -> Corner
    requires { IsNearShape s }
    ensures value { result ≡ record { x = s.across.greatest; y = s.down.greatest } }
    ensures near { IsNearCorner result }
{
    Corner {
        x: s.across.greatest,
        y: s.down.greatest,
    }
}

/// A frame, widened to hold a point.
fn with_corner(frame: Frame, c: Corner) -> Frame
    requires frame { IsNearFrame frame }
    requires corner { IsNearCorner c }
    ensures value { result ≡ widened frame c }
    ensures near { IsNearFrame result }
{
    widened(frame, c)
}

/// Whether 4200 units are enough for the longer side.
pub(crate) fn is_small(f: Frame) -> bool
    requires { IsNearFrame f }
    ensures { result ≡ is_small f }
{
    if !is_short(f.across) {
        return false;
    }
    is_short(f.down)
}

/// Whether an interval is no longer than 4200 units.
fn is_short(i: Interval) -> bool
    requires { IsNearBy i }
    ensures { result ≡ int_le (i.greatest -ℤ i.least) (pos 4200) }
{
    length_of(i) <= 4200
}

/// How long an interval is.
pub(crate) fn length_of(i: Interval) -> i64
    requires { IsNearBy i }
    ensures value { result ≡ i.greatest -ℤ i.least }
    ensures small { unsigned_abs result ≤ 1099511627776 }
{
    i.greatest - i.least
}
