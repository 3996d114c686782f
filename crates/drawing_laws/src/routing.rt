//! Laws of homes and of routes.

ghost use Rattle.std.specs.Prelude.{◌≡◌, ℕ, ◌≤◌, true, false, List, length, Ok, Err};
ghost use Rattle.map_base.specs.declared.ids.SegId.{SegId};
ghost use Rattle.graph_core.specs.declared.parts.GraphParts.{GraphParts};
ghost use Rattle.graph_core.specs.Consistent.{IsConsistent};
ghost use Rattle.octi_grid.specs.Walks.{PlainWalk};
ghost use Rattle.octi_grid.specs.Legal.{legal};
ghost use Rattle.start_positions.specs.Cells.{is_too_fine};
ghost use Rattle.start_positions.specs.declared.placing.Placing.{Placing};
ghost use Rattle.start_positions.specs.Homes.{IsPlacing, placing_at};
ghost use Rattle.start_positions.specs.Spreads.{spread_offsets};
ghost use Rattle.segment_router.specs.Routes.{routes_from};
ghost use Rattle.drawing_laws.specs.Routing.{HasNoWalk};

/// The homes that a line graph's nodes get on the grid of a cell and a fineness, put so many per cent of the way to their
/// even places, are one a node, distinct, even and on the grid.
pub fn homes_are_on_the_grid()
    ensures { (graph : GraphParts) (cell fineness percent : ℕ) → IsConsistent graph → is_too_fine graph.places cell ≡ false
        → fineness ≤ 16 → IsPlacing graph (placing_at graph cell fineness (spread_offsets graph.places percent)) }
{}

/// Routing from these homes, where it gives each segment a route, gives a legal drawing, with a walk for each segment.
pub fn routing_from_homes_is_legal()
    ensures legal { (graph : GraphParts) (cell fineness percent : ℕ) (walks : List PlainWalk) → IsConsistent graph
        → is_too_fine graph.places cell ≡ false → fineness ≤ 16
        → routes_from graph (placing_at graph cell fineness (spread_offsets graph.places percent)) ≡ Ok walks
        → legal graph walks ≡ true }
    ensures each { (graph : GraphParts) (cell fineness percent : ℕ) (walks : List PlainWalk) → IsConsistent graph
        → is_too_fine graph.places cell ≡ false → fineness ≤ 16
        → routes_from graph (placing_at graph cell fineness (spread_offsets graph.places percent)) ≡ Ok walks
        → length walks ≡ length graph.ends }
{}

/// Where routing from homes names a segment because it has no route, the segments before it have theirs, and no walk of any
/// length is free between its ends.
pub fn no_route_means_no_free_walk()
    ensures { (graph : GraphParts) (placing : Placing) (s : SegId) → IsConsistent graph → IsPlacing graph placing
        → routes_from graph placing ≡ Err s → HasNoWalk graph placing s }
{}
