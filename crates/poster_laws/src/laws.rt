//! That each line of each segment has its path on a poster, and each station its group.

ghost use Rattle.std.specs.Prelude.{◌≡◌, ◌++◌, ℕ, List, Option, filter, flat_map, length};
ghost use Rattle.std.specs.List.{range_with_len};
ghost use Rattle.map_base.specs.declared.ids.LineId.{LineId};
ghost use Rattle.svg_writer.specs.Picture.{kind_at};
ghost use Rattle.poster_plan.specs.declared.layout.Legend.{Legend};
ghost use Rattle.poster_plan.specs.declared.layout.Printed.{Printed};
ghost use Rattle.poster_plan.specs.declared.plan.Plan.{Plan};
ghost use Rattle.poster_rules.specs.Posters.{elements_with, Sheet};
ghost use Rattle.poster_laws.specs.Shown.{group_of, is_shown, paths_of};

/// On each segment a poster has one path for each place of the segment's order, that of the line there, at that place and in
/// its colour; then one group for each node that is a station, with the lines that call there and its name. It has no other
/// paths on segments, and no other groups of stations.
pub fn each_line_and_each_station_is_shown()
    ensures { (sheet : Sheet) (plan : Plan) (printed : List Printed) (lines : List LineId) (legend : Option Legend)
        → filter is_shown (elements_with sheet plan printed lines legend)
        ≡ flat_map (paths_of sheet) (range_with_len 0 (length sheet.graph.ends))
        ++ flat_map (λ (n : ℕ). group_of sheet n (kind_at sheet.graph.kinds n)) (range_with_len 0 (length sheet.graph.kinds)) }
{}
