//! Laws of drawings.

ghost use Rattle.std.specs.Prelude.{◌≡◌, ◌↔◌, List, None, IsTrue};
ghost use Rattle.graph_core.specs.declared.parts.GraphParts.{GraphParts};
ghost use Rattle.octi_grid.specs.Walks.{PlainWalk};
ghost use Rattle.octi_grid.specs.Legal.{first_illegal, legal};

/// A law: a drawing is legal exactly where none of its walks is the first that with its predecessors is not legal.
pub fn illegal_drawings_have_a_first_walk()
    ensures { (graph : GraphParts) (walks : List PlainWalk) → IsTrue (legal graph walks) ↔ (first_illegal graph walks ≡ None) }
{}
