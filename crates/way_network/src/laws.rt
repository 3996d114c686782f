//! Laws of the segments of a network.

ghost use Rattle.std.specs.Prelude.{List};
ghost use Rattle.map_base.specs.declared.point.Point.{Point};
ghost use Rattle.way_network.specs.Chains.{Network};
ghost use Rattle.way_network.specs.Laws.{HasEdgesOnce, HasLinesOfEdges, HasLinesOfWays, HasUsedEdges};

/// A law: some segment runs over an edge exactly where a way runs over it.
pub fn used_edges_are_on_segments()
    ensures { (points : List Point) (g : Network) → HasUsedEdges points g }
{}

/// A law: two segments that run over one edge are one.
pub fn edges_are_on_one_segment()
    ensures { (points : List Point) (g : Network) → HasEdgesOnce points g }
{}

/// A law: the lines of a segment are those that run over any one of its edges.
pub fn segments_have_the_lines_of_their_edges()
    ensures { (points : List Point) (g : Network) → HasLinesOfEdges points g }
{}

/// A law: a line is on the segments that its ways run over, and on no other.
pub fn lines_are_on_the_segments_of_their_ways()
    ensures { (points : List Point) (g : Network) → HasLinesOfWays points g }
{}
