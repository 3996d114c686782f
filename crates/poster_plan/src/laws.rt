//! Laws of places.

ghost use Rattle.std.specs.Prelude.{◌≡◌, ℕ, true, All};
ghost use Rattle.poster_plan.specs.declared.layout.Step.TheVariants.{Full, Small, Over};
ghost use Rattle.poster_plan.specs.declared.plan.Plan.{Plan};
ghost use Rattle.poster_plan.specs.Placing.{in_full, in_small, over_all, printed_names};
ghost use Rattle.poster_plan.specs.Laws.{are_apart, AreTaken, IsAtHome, IsOverOnlyLast};

/// A law: what two printed names take up does not meet.
pub fn names_keep_apart()
    ensures { (u : ℕ) (plan : Plan) → are_apart u plan (printed_names u plan) ≡ true }
{}

/// A law: what a printed name takes up meets the ground of no other station, and a straight piece of a walk only where the
/// name lies over lines.
pub fn names_keep_to_their_stations()
    ensures { (u : ℕ) (plan : Plan) → All (IsAtHome u plan) (printed_names u plan) }
{}

/// A law: at the end of each step none of the places that it tries is free for a name that it leaves. So a name lies over
/// lines only where it found no place beside them, large or small, and is left out only where it found none over them.
pub fn names_lie_over_lines_last()
    ensures full { (u : ℕ) (plan : Plan) → AreTaken u plan Full (in_full u plan) }
    ensures small { (u : ℕ) (plan : Plan) → AreTaken u plan Small (in_small u plan) }
    ensures over { (u : ℕ) (plan : Plan) → AreTaken u plan Over (over_all u plan) }
    ensures last { (u : ℕ) (plan : Plan) → All (IsOverOnlyLast u plan) (printed_names u plan) }
{}
