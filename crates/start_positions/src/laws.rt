//! Laws of homes.

ghost use Rattle.std.specs.Prelude.{◌≡◌, ◌<◌, ◌≤◌, ◌≤ℤ◌, ℕ, Bool, length, List};
ghost use Rattle.map_base.specs.declared.point.Point.{Point};
ghost use Rattle.start_positions.specs.Cells.{offsets_of};
ghost use Rattle.start_positions.specs.Nodes.{coordinate_at};
ghost use Rattle.start_positions.specs.Spreads.{spread_along, spread_offsets};

/// A law: spreading keeps sides. A node that lay no farther east than another, or no farther north, is not put farther; and
/// where nodes are put no part of the way, they stay.
pub fn spreading_keeps_sides()
    ensures sides { (ps : List Point) (percent : ℕ) (east : Bool) (n m : ℕ) → percent ≤ 100 → n < length ps → m < length ps → coordinate_at ps n east ≤ℤ coordinate_at ps m east → spread_along ps percent east n ≤ spread_along ps percent east m }
    ensures none { (ps : List Point) → spread_offsets ps 0 ≡ offsets_of ps }
{}
