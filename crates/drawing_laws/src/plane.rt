//! The law of legal drawings in the plane.

ghost use Rattle.std.specs.Prelude.{◌≡◌, true, List};
ghost use Rattle.graph_core.specs.declared.parts.GraphParts.{GraphParts};
ghost use Rattle.octi_grid.specs.Walks.{PlainWalk};
ghost use Rattle.octi_grid.specs.Legal.{legal, legs_of};
ghost use Rattle.drawing_laws.specs.Plane.{IsPlaneDrawing};

/// The legal drawings of a graph are those that are clear in the plane: nodes have even points of their own, no walk meets
/// itself, two walks share a point only where both end at one node, no node lies on another's walk, and the ports round each
/// node are distinct and clockwise.
pub fn legal_drawings_are_clear_in_the_plane()
    ensures legal { (graph : GraphParts) (walks : List PlainWalk) → legal graph walks ≡ true
        → IsPlaneDrawing graph.rounds (legs_of graph.ends walks) }
    ensures others { (graph : GraphParts) (walks : List PlainWalk)
        → IsPlaneDrawing graph.rounds (legs_of graph.ends walks) → legal graph walks ≡ true }
{}
