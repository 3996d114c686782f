//! What bounds and prices show of a part of a problem: its terms, on rising segments of the problem.

ghost use Rattle.std.specs.Prelude.{◌≡◌, ℕ, ℤ, pos, ◌≤◌, ◌≤ℤ◌, List, All, Some};
ghost use Rattle.map_base.specs.declared.ids.SegId.{SegId};
ghost use Rattle.map_base.specs.declared.ids.LineId.{LineId};
ghost use Rattle.graph_core.specs.Consistent.{AreRising};
ghost use Rattle.order_model.specs.declared.term.Term.{Term};
ghost use Rattle.order_model.specs.Problems.{IsTerm};
ghost use Rattle.order_model.specs.Costs.{cost_of, AreOrders};
ghost use Rattle.order_model.specs.Parts.{IsRisingPart};
ghost use Rattle.order_model.specs.PartTerms.{part_terms, plain_terms};
ghost use Rattle.order_model.specs.Completions.{Completes};
ghost use Rattle.order_bound.specs.Bounds.{bound_of};
ghost use Rattle.order_bound.specs.Values.{value};
ghost use Rattle.order_bound.specs.CanonicalPrices.{prices_for};

/// No completion of a prefix costs less than its bound.
pub fn completions_cost_the_bound()
    ensures { (segs placed orders : List (List LineId)) (part : List SegId) (terms : List Term)
        → All AreRising segs → All (IsTerm segs) terms → IsRisingPart part → AreOrders segs orders → Completes part placed orders
        → bound_of segs part (part_terms terms part) placed ≤ cost_of (plain_terms (part_terms terms part)) orders }
{}

/// No completion of a prefix costs less than the value of prices that are allowed.
pub fn completions_cost_the_value()
    ensures { (segs placed orders : List (List LineId)) (part : List SegId) (terms : List Term) (prices : List (ℕ × ℤ)) (v : ℤ)
        → All AreRising segs → All (IsTerm segs) terms → IsRisingPart part → AreOrders segs orders → Completes part placed orders
        → value segs part (part_terms terms part) placed prices ≡ Some v → v ≤ℤ pos (cost_of (plain_terms (part_terms terms part)) orders) }
{}

/// The canonical prices of a prefix are allowed, and their value is its bound.
pub fn canonical_prices_reach_the_bound()
    ensures { (segs placed : List (List LineId)) (part : List SegId) (terms : List Term)
        → All AreRising segs → All (IsTerm segs) terms → IsRisingPart part
        → value segs part (part_terms terms part) placed (prices_for segs part (part_terms terms part) placed) ≡ Some (pos (bound_of segs part (part_terms terms part) placed)) }
{}
