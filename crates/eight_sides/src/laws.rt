//! Laws of shapes.

ghost use Rattle.std.specs.Prelude.{◌≡◌, ℕ, ℤ, ◌<◌, true};
ghost use Rattle.line_offsets.specs.declared.corner.Corner.{Corner};
ghost use Rattle.eight_sides.specs.declared.shape.Shape.{Shape};
ghost use Rattle.eight_sides.specs.Shapes.{meet, mark_shape};
ghost use Rattle.eight_sides.specs.Points.{IsIn, IsInDisc};

/// A law: two shapes that share a point of the plane meet.
pub fn shapes_that_share_a_point_meet()
    ensures { (a b : Shape) (scale : ℕ) (x y : ℤ) → 0 < scale → IsIn scale x y a → IsIn scale x y b → meet a b ≡ true }
{}

/// A law: each point of the disc round a station lies in the station's shape as far as the disc's radius.
pub fn a_disc_lies_in_its_mark()
    ensures { (c : Corner) (r scale : ℕ) (x y : ℤ) → 0 < scale → IsInDisc scale x y c r → IsIn scale x y (mark_shape c r) }
{}
