//! What the shifted lines come to, as laws.

ghost use Rattle.std.specs.Prelude.{◌≡◌, ℤ, false};
ghost use Rattle.octi_grid.specs.declared.dir.Dir.{Dir};
ghost use Rattle.octi_grid.specs.declared.point.GridPoint.{GridPoint};
ghost use Rattle.line_offsets.specs.declared.corner.Corner.{Corner};
ghost use Rattle.line_offsets.specs.Shifts.{moved, foot_of, turn_of, are_parallel, IsOnShifted};

/// At a turn the corner lies on both shifted lines, and no other point does.
pub fn a_corner_is_where_both_lines_meet()
    ensures { (d e : Dir) (p : GridPoint) (k : ℤ) → are_parallel d e ≡ false → IsOnShifted d p k (moved p k (turn_of d e)) × IsOnShifted e p k (moved p k (turn_of d e)) × ((c : Corner) → IsOnShifted d p k c → IsOnShifted e p k c → c ≡ moved p k (turn_of d e)) }
{}

/// A shifted end lies on the shifted line of its direction.
pub fn an_end_is_on_its_line()
    ensures { (d : Dir) (p : GridPoint) (k : ℤ) → IsOnShifted d p k (moved p k (foot_of d)) }
{}
