//! What prices and accepted trees show.

ghost use Rattle.std.specs.Prelude.{◌≡◌, ◌≤ℤ◌, ℕ, ℤ, pos, ◌*◌, ◌≤◌, ◌↔◌, List, [], All, true, Some, None};
ghost use Rattle.map_base.specs.declared.ids.SegId.{SegId};
ghost use Rattle.map_base.specs.declared.ids.LineId.{LineId};
ghost use Rattle.graph_core.specs.Consistent.{AreRising};
ghost use Rattle.order_model.specs.declared.term.Term.{Term};
ghost use Rattle.order_model.specs.Problems.{IsTerm};
ghost use Rattle.order_model.specs.Costs.{cost_of, AreOrders};
ghost use Rattle.order_model.specs.Parts.{IsRisingPart};
ghost use Rattle.order_model.specs.PartTerms.{part_terms, plain_terms};
ghost use Rattle.order_model.specs.Questions.{Question, question};
ghost use Rattle.order_values.specs.PriceLists.{price_at};
ghost use Rattle.order_values.specs.DualTrees.{PlainDual};
ghost use Rattle.dual_bound.specs.declared.settled.SettledPair.{SettledPair};
ghost use Rattle.dual_bound.specs.Settled.{keep_all};
ghost use Rattle.dual_bound.specs.Values.{value_of, are_allowed};
ghost use Rattle.dual_bound.specs.Accepting.{is_light, accepts, failing};

/// The value of allowed prices is at most 1000 times what any orders cost that keep the settled pairs.
pub fn values_bound_orders()
    ensures { (segs : List (List LineId)) (part : List SegId) (terms : List Term) (settled : List SettledPair) (prices : List (ℕ × ℤ)) (v : ℤ)
        → All AreRising segs → All (IsTerm segs) terms → IsRisingPart part → are_allowed (part_terms terms part) prices ≡ true
        → value_of segs (part_terms terms part) (price_at prices) settled part ≡ Some v
        → (orders : List (List LineId)) → AreOrders segs orders → keep_all settled part orders ≡ true
        → v ≤ℤ pos (1000 * cost_of (plain_terms (part_terms terms part)) orders) }
{}

/// Where a tree is accepted for settled pairs, no orders that keep them cost less than the target on the part's terms.
pub fn accepted_trees_bound_orders()
    ensures { (segs : List (List LineId)) (part : List SegId) (terms : List Term) (target : ℕ) (settled : List SettledPair) (tree : PlainDual)
        → All AreRising segs → All (IsTerm segs) terms → IsRisingPart part
        → accepts (question segs part (part_terms terms part) target) settled tree ≡ true
        → (orders : List (List LineId)) → AreOrders segs orders → keep_all settled part orders ≡ true
        → target ≤ cost_of (plain_terms (part_terms terms part)) orders }
{}

/// Where no node of a tree fails, no orders at all cost less than the target on the part's terms.
pub fn trees_without_fault_bound_all_orders()
    ensures { (segs : List (List LineId)) (part : List SegId) (terms : List Term) (target : ℕ) (tree : PlainDual)
        → All AreRising segs → All (IsTerm segs) terms → IsRisingPart part
        → failing (question segs part (part_terms terms part) target) tree ≡ None
        → (orders : List (List LineId)) → AreOrders segs orders → target ≤ cost_of (plain_terms (part_terms terms part)) orders }
{}

/// No node of a tree fails exactly where it is accepted and has few enough stops for the part's load.
pub fn nothing_fails_where_accepted()
    ensures { (q : Question) (tree : PlainDual) → (failing q tree ≡ None ↔ ((is_light q tree ≡ true) × (accepts q [] tree ≡ true))) }
{}
