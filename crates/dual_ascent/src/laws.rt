//! What the search by dual prices shows, as laws.

ghost use Rattle.std.specs.Prelude.{◌≡◌, ℕ, ◌<◌, ◌≤◌, length, All, true};
ghost use Rattle.graph_core.specs.Consistent.{AreRising};
ghost use Rattle.order_model.specs.declared.problem.ProblemParts.{ProblemParts};
ghost use Rattle.order_model.specs.Problems.{IsTerm};
ghost use Rattle.dual_bound.specs.Accepting.{most_load};
ghost use Rattle.dual_ascent.specs.DualResults.{is_in_reach, dual_result};
ghost use Rattle.dual_ascent.specs.Shown.{IsShown};

/// The tree that a search finds is accepted at its target, so no orders cost less, whether the search came to its end or was
/// spent. Where it came to its end, its orders cost the target, so they cost least.
pub fn searches_show_their_targets()
    ensures { (p : ProblemParts) (budget : ℕ) → All AreRising p.segs → All (IsTerm p.segs) p.terms → 0 < length p.segs → is_in_reach p ≡ true → budget ≤ most_load
        → IsShown p budget (dual_result p budget) }
{}

/// A search that came to its end finds the same within each budget of at least its branch nodes.
pub fn larger_budgets_find_the_same()
    ensures { (p : ProblemParts) (budget other : ℕ) → (dual_result p budget).complete ≡ true → (dual_result p budget).branches ≤ other
        → dual_result p other ≡ dual_result p budget }
{}
