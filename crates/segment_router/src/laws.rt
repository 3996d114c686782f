//! Laws of routes.

ghost use Rattle.std.specs.Prelude.{◌≡◌, ◌<◌, ℕ, length, List, Ok, true, false};
ghost use Rattle.std.specs.List.{list_any};
ghost use Rattle.graph_core.specs.declared.parts.GraphParts.{GraphParts};
ghost use Rattle.graph_core.specs.Consistent.{IsConsistent};
ghost use Rattle.octi_grid.specs.declared.point.GridPoint.{GridPoint};
ghost use Rattle.octi_grid.specs.Walks.{PlainWalk};
ghost use Rattle.octi_grid.specs.Legal.{is_among, legal};
ghost use Rattle.walk_search.specs.Seats.{is_free_seat};
ghost use Rattle.start_positions.specs.declared.placing.Placing.{Placing};
ghost use Rattle.segment_router.specs.Routes.{has_doubled, is_settled, node_point, routed_after, routes_from, Routed};
ghost use Rattle.start_positions.specs.Homes.{IsPlacing};

/// A law: where every segment of a graph has a route from a placing, the routes are a legal drawing, one for each
/// segment. Each walk joins the points of its nodes, which are even and distinct; no doubled point is there twice, or
/// another node's; and round each node the ports are distinct and clockwise.
pub fn routes_are_legal()
    ensures legal { (graph : GraphParts) (placing : Placing) (walks : List PlainWalk) → IsConsistent graph → IsPlacing graph placing → routes_from graph placing ≡ Ok walks → legal graph walks ≡ true }
    ensures each { (graph : GraphParts) (placing : Placing) (walks : List PlainWalk) → IsConsistent graph → IsPlacing graph placing → routes_from graph placing ≡ Ok walks → length walks ≡ length graph.ends }
{}

/// A law: homes stay free. After each segment the home of a node that is not settled is a point of no walk and no other
/// node's, so it is one of the node's seats.
pub fn homes_stay_free()
    ensures { (graph : GraphParts) (placing : Placing) (k : ℕ) (r : Routed) (n : ℕ) → IsConsistent graph → IsPlacing graph placing → routed_after graph placing k ≡ Ok r → n < length graph.kinds → is_settled r n ≡ false → is_free_seat r.board (node_point r n) (node_point r n) ≡ true }
{}

/// A law: after each segment the board shows the points of the nodes, settled or at home, and the doubled points of the
/// walks, and no others.
pub fn the_board_shows_nodes_and_walks()
    ensures nodes { (graph : GraphParts) (placing : Placing) (k : ℕ) (r : Routed) (p : GridPoint) → IsConsistent graph → IsPlacing graph placing → routed_after graph placing k ≡ Ok r → r.board.is_node p ≡ is_among r.points p }
    ensures walks { (graph : GraphParts) (placing : Placing) (k : ℕ) (r : Routed) (d : GridPoint) → IsConsistent graph → IsPlacing graph placing → routed_after graph placing k ≡ Ok r → r.board.is_taken d ≡ list_any (has_doubled d) r.walks }
{}
