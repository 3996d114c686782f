//! What a draw shows, as a law.

ghost use Rattle.std.specs.Prelude.{◌≡◌, ℕ, List, [], ◌∷◌, ◌++◌, codes, Ok, None};
ghost use Rattle.map_edits.specs.declared.edit.Edit.{Edit as AnyEdit};
ghost use Rattle.map_edits.specs.Standing.{Named, edits_from};
ghost use Rattle.edit_session.specs.Scripts.{followed_from};

/// Where the lines of a file of edits come to edits that stand, the same lines with the line `draw` behind them draw once, with
/// these edits. So a draw shows what `make` makes with a file of the edits that stand there.
pub fn a_draw_shows_the_edits_before_it()
    ensures { (named : Named) (lines : List (List ℕ)) (standing : List AnyEdit) → edits_from named 0 [] lines ≡ Ok standing
        → followed_from named 0 [] (lines ++ codes "draw" ∷ []) ≡ record { draws = standing ∷ []; bad = None } }
{}
