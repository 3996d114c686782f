//! Laws of places.

ghost use Rattle.std.specs.Prelude.{◌≡◌, List, true};
ghost use Rattle.std.specs.List.{list_all};
ghost use Rattle.graph_core.specs.declared.parts.GraphParts.{GraphParts};
ghost use Rattle.octi_grid.specs.Walks.{PlainWalk};
ghost use Rattle.svg_writer.specs.declared.names.Names.{Names};
ghost use Rattle.label_place.specs.Places.{are_apart, is_clear, printed_boxes};

/// A law: the boxes of no two printed names share a point, and none shares a point with a marker's square or comes nearer
/// to a walk than seven units for each of its lines.
pub fn names_keep_clear()
    ensures apart { (names : Names) (graph : GraphParts) (walks : List PlainWalk) → are_apart (printed_boxes names graph walks) ≡ true }
    ensures clear { (names : Names) (graph : GraphParts) (walks : List PlainWalk) → list_all (is_clear graph walks) (printed_boxes names graph walks) ≡ true }
{}
