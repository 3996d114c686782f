//! Laws of lines beside a course.

ghost use Rattle.std.specs.Prelude.{ℕ, ◌≤◌, ℤ, List, length};
ghost use Rattle.map_base.specs.declared.point.Point.{Point};
ghost use Rattle.geo_lines.specs.Roots.{IsRoot, root};
ghost use Rattle.geo_lines.specs.Courses.{StaysBeside, TurnsRound};

/// A law: the root of a number is the greatest whole number whose square is not above it.
pub fn roots_are_greatest()
    ensures { (n : ℕ) → IsRoot n (root n) }
{}

/// A law: each corner of a line that stands k places beside a course lies at most 240 times |k| units from its point,
/// along each axis.
pub fn corners_stay_beside_their_points()
    ensures { (k : ℤ) (points : List Point) → 2 ≤ length points → StaysBeside k points }
{}

/// A law: the line to the right of a course is the line to the left of the course walked the other way.
pub fn a_line_is_one_both_ways()
    ensures { (k : ℤ) (points : List Point) → TurnsRound k points }
{}
