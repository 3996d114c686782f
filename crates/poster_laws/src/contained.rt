//! What is drawn lies in its shape, so things of which the shapes do not meet share no point of the plane.

ghost use Rattle.std.specs.Prelude.{ℕ, ℤ, pos, ◌+ℤ◌, ◌-ℤ◌, ◌*ℤ◌, ◌≤ℤ◌};
ghost use Rattle.line_offsets.specs.declared.corner.Corner.{Corner};
ghost use Rattle.eight_sides.specs.declared.interval.Interval.{Interval};
ghost use Rattle.eight_sides.specs.Shapes.{piece_shape, slanted, upright};
ghost use Rattle.eight_sides.specs.Points.{IsIn, LiesIn, squared};

use eight_sides::a_disc_lies_in_its_mark;

/// Each point of a level name, a rectangle along the axes, lies in the name's shape.
pub fn a_level_name_lies_in_its_shape()
    ensures { (across down : Interval) (scale : ℕ) (x y : ℤ) → LiesIn scale x across → LiesIn scale y down
        → IsIn scale x y (upright across down) }
{}

/// Each point of a slanted name, a rectangle along the slants, lies in the name's shape.
pub fn a_slanted_name_lies_in_its_shape()
    ensures { (difference sum : Interval) (scale : ℕ) (x y : ℤ) → LiesIn scale (x -ℤ y) difference → LiesIn scale (x +ℤ y) sum
        → IsIn scale x y (slanted difference sum) }
{}

/// Each point that is no further from a straight piece of a walk than half its width lies in the shape of the piece. What is on
/// the piece itself lies in the shape of no width.
pub fn a_line_lies_in_its_piece()
    ensures { (start end : Corner) (half scale : ℕ) (u v x y : ℤ) → IsIn scale u v (piece_shape start end 0)
        → (squared (x -ℤ u) +ℤ squared (y -ℤ v)) ≤ℤ squared (pos scale *ℤ pos half)
        → IsIn scale x y (piece_shape start end half) }
{
    a_disc_lies_in_its_mark();
}
