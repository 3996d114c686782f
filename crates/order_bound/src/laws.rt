//! What accepted trees show.

ghost use Rattle.std.specs.Prelude.{◌≡◌, ℕ, ◌<◌, ◌↔◌, List, length, All, true, None};
ghost use Rattle.map_base.specs.declared.ids.SegId.{SegId};
ghost use Rattle.map_base.specs.declared.ids.LineId.{LineId};
ghost use Rattle.graph_core.specs.Consistent.{AreRising};
ghost use Rattle.order_model.specs.declared.term.Term.{Term};
ghost use Rattle.order_model.specs.Problems.{IsTerm};
ghost use Rattle.order_model.specs.Parts.{IsRisingPart};
ghost use Rattle.order_model.specs.PartTerms.{part_terms, plain_terms};
ghost use Rattle.order_model.specs.Completions.{BoundsCompletions};
ghost use Rattle.order_proof.specs.Plain.{PlainTree};
ghost use Rattle.order_bound.specs.Accepting.{accepts, failing};
ghost use Rattle.order_model.specs.Questions.{Question, question};

/// Where a tree is accepted for a prefix, no completion of the prefix costs less than the target on the part's terms.
pub fn accepted_trees_bound_completions()
    ensures { (segs : List (List LineId)) (part : List SegId) (terms : List Term) (target : ℕ) (placed : List (List LineId)) (tree : PlainTree)
        → All AreRising segs → All (IsTerm segs) terms → IsRisingPart part → All (λ (s : SegId). s.0 < length segs) part → length placed ≡ length segs
        → accepts (question segs part (part_terms terms part) target) placed tree ≡ true
        → BoundsCompletions segs part (plain_terms (part_terms terms part)) target placed }
{}

/// A tree is accepted exactly where none of its nodes fails.
pub fn nothing_fails_where_accepted()
    ensures { (q : Question) (placed : List (List LineId)) (tree : PlainTree) → (accepts q placed tree ≡ true ↔ failing q placed tree ≡ None) }
{}
