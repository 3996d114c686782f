//! What live trees are, as laws.

ghost use Rattle.std.specs.Prelude.{◌≡◌, ℕ, ◌<◌, ◌≤◌, List, length, All, true};
ghost use Rattle.map_base.specs.declared.ids.SegId.{SegId};
ghost use Rattle.map_base.specs.declared.ids.LineId.{LineId};
ghost use Rattle.graph_core.specs.Consistent.{AreRising};
ghost use Rattle.order_model.specs.declared.term.Term.{Term};
ghost use Rattle.order_model.specs.declared.problem.ProblemParts.{ProblemParts};
ghost use Rattle.order_model.specs.Problems.{IsTerm};
ghost use Rattle.order_model.specs.Parts.{IsRisingPart};
ghost use Rattle.order_model.specs.PartTerms.{part_terms, part_numbers};
ghost use Rattle.order_model.specs.Prefixes.{none_placed};
ghost use Rattle.order_proof.specs.Plain.{PlainTree};
ghost use Rattle.order_proof.specs.Trees.{splits_of, IsProofTree};
ghost use Rattle.order_bound.specs.Accepting.{accepts};
ghost use Rattle.order_model.specs.Questions.{question};
ghost use Rattle.order_search.specs.LiveTrees.{BoundedPart, number_order, live_tree};
ghost use Rattle.order_search.specs.Living.{best_after, IsLive};
ghost use Rattle.order_search.specs.Bounded.{bounded_part};
ghost use Rattle.order_search.specs.FoundParts.{part_in, branches_in};
ghost use Rattle.order_search.specs.ByItself.{by_itself, own_segments, renumbered, own_tree};
ghost use Rattle.order_search.specs.Finding.{places_of, most_places, incomplete_in, IsLeast, AreAttained};

/// Each part has exactly one live tree.
pub fn each_part_has_one_live_tree()
    ensures lives { (q : BoundedPart) → All (λ (s : SegId). s.0 < length q.segs) q.part → IsLive q (live_tree q).tree }
    ensures only { (q : BoundedPart) (tree : PlainTree) → All (λ (s : SegId). s.0 < length q.segs) q.part → IsLive q tree → tree ≡ (live_tree q).tree }
    ensures best { (q : BoundedPart) → All (λ (s : SegId). s.0 < length q.segs) q.part
        → best_after q (none_placed q.segs) (live_tree q).tree (number_order q) ≡ (live_tree q).best }
{}

/// Where nothing costs less than the number order, the number order is what is found.
pub fn the_number_order_wins_ties()
    ensures { (q : BoundedPart) → (live_tree q).best.cost ≡ (number_order q).cost → (live_tree q).best ≡ number_order q }
{}

/// A live tree has no more branch nodes than its part has prefixes that are not complete, so a budget of their number
/// suffices.
pub fn branch_nodes_are_incomplete_prefixes()
    ensures { (q : BoundedPart) → All AreRising q.segs → All (λ (s : SegId). s.0 < length q.segs) q.part → IsRisingPart q.part
        → splits_of (live_tree q).tree ≤ incomplete_in q.segs q.part }
{}

/// The live tree of a part is accepted at its target, which is the least cost of the part and that of orders.
pub fn live_trees_show_the_least_cost()
    ensures accepted { (segs : List (List LineId)) (terms : List Term) (part : List SegId) → All AreRising segs → All (IsTerm segs) terms → IsRisingPart part
        → All (λ (s : SegId). s.0 < length segs) part
        → accepts (question segs part (part_terms terms part) (live_tree (bounded_part segs part (part_terms terms part))).best.cost) (none_placed segs)
        (live_tree (bounded_part segs part (part_terms terms part))).tree ≡ true }
    ensures least { (segs : List (List LineId)) (terms : List Term) (part : List SegId) → All AreRising segs → All (IsTerm segs) terms → IsRisingPart part
        → All (λ (s : SegId). s.0 < length segs) part
        → IsLeast (bounded_part segs part (part_terms terms part)) (live_tree (bounded_part segs part (part_terms terms part))).best.cost }
    ensures attained { (segs : List (List LineId)) (terms : List Term) (part : List SegId) → All AreRising segs → All (IsTerm segs) terms → IsRisingPart part
        → All (λ (s : SegId). s.0 < length segs) part
        → AreAttained (bounded_part segs part (part_terms terms part)) (live_tree (bounded_part segs part (part_terms terms part))).best.lists
        (live_tree (bounded_part segs part (part_terms terms part))).best.cost }
    ensures of_proofs { (segs : List (List LineId)) (terms : List Term) (part : List SegId) → All AreRising segs → All (IsTerm segs) terms → IsRisingPart part
        → All (λ (s : SegId). s.0 < length segs) part → places_of segs part ≤ most_places
        → IsProofTree (live_tree (bounded_part segs part (part_terms terms part))).tree }
{}

/// A part of a problem and the part by itself have the same live tree, but for the numbers of segments and terms, and it
/// finds the same orders at the same cost. So a live tree that is kept for the part by itself is live, with the numbers
/// that they have there, in each problem of which this is a part.
pub fn a_part_by_itself_has_the_same_live_tree()
    ensures there { (p : ProblemParts) (part : List SegId) → All (λ (s : SegId). s.0 < length p.segs) part → IsRisingPart part
        → (live_tree (part_in p part)).tree ≡ renumbered part (part_numbers p.terms part) (live_tree (part_in (by_itself p part) (own_segments part))).tree }
    ensures back { (p : ProblemParts) (part : List SegId) → All (λ (s : SegId). s.0 < length p.segs) part → IsRisingPart part
        → (live_tree (part_in (by_itself p part) (own_segments part))).tree ≡ own_tree part (part_numbers p.terms part) (live_tree (part_in p part)).tree }
    ensures stays_live { (p : ProblemParts) (part : List SegId) (tree : PlainTree) → All (λ (s : SegId). s.0 < length p.segs) part → IsRisingPart part
        → IsLive (part_in (by_itself p part) (own_segments part)) tree → IsLive (part_in p part) (renumbered part (part_numbers p.terms part) tree) }
    ensures best { (p : ProblemParts) (part : List SegId) → All (λ (s : SegId). s.0 < length p.segs) part → IsRisingPart part
        → (live_tree (part_in p part)).best ≡ (live_tree (part_in (by_itself p part) (own_segments part))).best }
    ensures branches { (p : ProblemParts) (part : List SegId) → All (λ (s : SegId). s.0 < length p.segs) part → IsRisingPart part
        → branches_in p part ≡ branches_in (by_itself p part) (own_segments part) }
{}

/// Two parts, of one problem or of two, that are the same by themselves have the same live tree, but for the numbers of
/// segments and terms: that of the one leads to that of the other. They find the same orders at the same cost.
pub fn parts_that_are_the_same_by_themselves_share_their_tree()
    ensures tree { (p q : ProblemParts) (part other : List SegId) → All (λ (s : SegId). s.0 < length p.segs) part → IsRisingPart part
        → All (λ (s : SegId). s.0 < length q.segs) other → IsRisingPart other → by_itself p part ≡ by_itself q other
        → (live_tree (part_in q other)).tree
        ≡ renumbered other (part_numbers q.terms other) (own_tree part (part_numbers p.terms part) (live_tree (part_in p part)).tree) }
    ensures best { (p q : ProblemParts) (part other : List SegId) → All (λ (s : SegId). s.0 < length p.segs) part → IsRisingPart part
        → All (λ (s : SegId). s.0 < length q.segs) other → IsRisingPart other → by_itself p part ≡ by_itself q other
        → (live_tree (part_in q other)).best ≡ (live_tree (part_in p part)).best }
{}
