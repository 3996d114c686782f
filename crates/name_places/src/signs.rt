//! Stations and printed names as they are drawn.

ghost use Rattle.std.specs.Prelude.{◌≡◌, ◌≤◌};
ghost use Rattle.eight_sides.specs.Shapes.{IsNear, IsShortShape};
ghost use Rattle.name_places.specs.Near.{IsNearShape};
ghost use Rattle.poster_plan.specs.Signs.{ground_at, mark_at, piece_at, sign_of};
ghost use Rattle.poster_plan.specs.Placing.{mark_numbered, printed_shape};

use crate::places::place_shape;
use eight_sides::{Shape, mark_shape, piece_shape};
use line_offsets::drawn_at;
use map_base::NodeId;
use octi_grid::GridPoint;
use poster_plan::{Mark, Piece, Plan, Printed, Sign, TextWidth};

/// A station as it is drawn at a pitch.
pub fn sign_of(pitch: u32, mark: Mark) -> Sign
    requires { pitch ≤ 200 }
    ensures value { result ≡ sign_of pitch mark }
    ensures near { IsNear result.centre }
    ensures few { result.tenths ≤ 17179869184 }
{
    Sign {
        centre: drawn_at(pitch, mark.at),
        radius: mark.radius,
        tenths: mark.name.unwrap_or(TextWidth::none()).number(),
    }
}

/// The mark of a number in a plan.
pub fn mark_numbered(plan: &Plan, i: u32) -> Mark
    ensures { result ≡ mark_numbered plan.now.marks i }
{
    match plan.marks.as_slice().get(i as usize) {
        Some(mark) => *mark,
        None => Mark {
            node: NodeId(0),
            at: GridPoint { x: 0, y: 0 },
            radius: 0,
            name: None,
            level: false,
        },
    }
}

/// What a printed name takes up at a pitch.
pub fn printed_shape(pitch: u32, plan: &Plan, name: Printed) -> Shape
    requires { pitch ≤ 200 }
    ensures value { result ≡ printed_shape pitch plan.now name }
    ensures near { IsNearShape result }
{
    let sign = sign_of(pitch, mark_numbered(plan, name.mark));
    place_shape(sign, name.step, name.place)
}

/// What a station takes up.
pub fn mark_at(pitch: u32, mark: Mark) -> Shape
    requires { pitch ≤ 200 }
    ensures value { result ≡ mark_at pitch mark }
    ensures short { IsShortShape result }
{
    mark_shape(drawn_at(pitch, mark.at), u64::from(mark.radius))
}

/// What names of other stations keep away from: 12 units more than a station takes up.
pub fn ground_at(pitch: u32, mark: Mark) -> Shape
    requires { pitch ≤ 200 }
    ensures value { result ≡ ground_at pitch mark }
    ensures short { IsShortShape result }
{
    mark_shape(drawn_at(pitch, mark.at), u64::from(mark.radius) + 12)
}

/// What a straight piece takes up.
pub fn piece_at(pitch: u32, piece: Piece) -> Shape
    requires { pitch ≤ 200 }
    ensures value { result ≡ piece_at pitch piece }
    ensures short { IsShortShape result }
{
    piece_shape(
        drawn_at(pitch, piece.start),
        drawn_at(pitch, piece.end),
        7 * u64::from(piece.lines),
    )
}
