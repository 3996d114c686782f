//! Laws of walks.

ghost use Rattle.std.specs.Prelude.{◌≡◌, ◌≤◌, true, false, Some, None};
ghost use Rattle.octi_grid.specs.Walks.{PlainWalk, cost_of, doubled_of, end_point};
ghost use Rattle.octi_grid.specs.Legal.{are_distinct};
ghost use Rattle.walk_search.specs.Reaching.{reach_of};
ghost use Rattle.walk_search.specs.Routes.{is_free, is_no_worse, route};
ghost use Rattle.walk_search.specs.Moves.{Question, IsQuestion};

/// A law: no walk costs less than it costs at least to come from its start to its end.
pub fn no_walk_costs_less_than_reach()
    ensures { (w : PlainWalk) → reach_of w.start (end_point w) ≤ cost_of w }
{}

/// A law: the route is a free walk, and goes before each other one, however many steps that has; where there is no
/// route, no walk is free.
pub fn the_route_is_the_best_free_walk()
    ensures free { (q : Question) (r : PlainWalk) → route q.board q.from q.to ≡ Some r → is_free q.board q.from q.to r ≡ true }
    ensures best { (q : Question) → IsQuestion q → (r w : PlainWalk) → route q.board q.from q.to ≡ Some r → is_free q.board q.from q.to w ≡ true → is_no_worse q.from q.to r w ≡ true }
    ensures none { (q : Question) → IsQuestion q → (w : PlainWalk) → route q.board q.from q.to ≡ None → is_free q.board q.from q.to w ≡ false }
{}

/// A law: the route has no doubled point twice. It comes to no point again, goes over no step again, and does not cross
/// itself.
pub fn the_route_has_no_doubled_point_twice()
    ensures { (q : Question) → IsQuestion q → (r : PlainWalk) → route q.board q.from q.to ≡ Some r → are_distinct (doubled_of r) ≡ true }
{}
