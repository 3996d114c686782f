//! Laws of attempts.

ghost use Rattle.std.specs.Prelude.{◌≡◌, List, Some};
ghost use Rattle.graph_core.specs.declared.parts.GraphParts.{GraphParts};
ghost use Rattle.graph_core.specs.Consistent.{IsConsistent};
ghost use Rattle.octi_grid.specs.Walks.{PlainWalk};
ghost use Rattle.grid_board.specs.declared.bounds.Bounds.{Bounds};
ghost use Rattle.run_laying.specs.Attempts.{attempted, Attempt};
ghost use Rattle.run_laying.specs.Runs.{IsFitting};
ghost use Rattle.run_laying.specs.Drawings.{IsOnBoard};

/// A law: what an attempt makes of a legal drawing on a board is a legal drawing on it.
pub fn attempts_keep_drawings_legal()
    ensures { (graph : GraphParts) → IsConsistent graph → (bounds : Bounds) (walks new : List PlainWalk) (a : Attempt) → IsOnBoard graph bounds walks → IsFitting graph a
        → attempted graph bounds walks a ≡ Some new → IsOnBoard graph bounds new }
{}
