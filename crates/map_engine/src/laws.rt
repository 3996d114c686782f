//! What definitions come to, as laws: of what is kept from map to map, of moves, of the line graph, and of posters.

ghost use Rattle.std.specs.Prelude.{◌≡◌, ℕ, List, Ok, All, Contains, true};
ghost use Rattle.map_base.specs.Settings.{Choices};
ghost use Rattle.map_method.specs.Methods.{MethodChoices};
ghost use Rattle.map_method.specs.declared.claim.Claim.{Claim};
ghost use Rattle.transit_feed.specs.Feeds.{Feed};
ghost use Rattle.graph_core.specs.declared.parts.GraphParts.{GraphParts};
ghost use Rattle.line_graph.specs.Outcome.{graph_outcome};
ghost use Rattle.kept_trees.specs.OwnTrees.{HeldPart};
ghost use Rattle.graph_maps.specs.Problems.{untangled_problem, Drawn};
ghost use Rattle.graph_maps.specs.Solving.{is_solvable, parts_in};
ghost use Rattle.graph_maps.specs.Making.{plan_of, MapBytes, made_on};
ghost use Rattle.graph_maps.specs.Readings.{certificate_in};
ghost use Rattle.graph_maps.specs.Improving.{ImprovedBytes};
ghost use Rattle.map_engine.specs.Tables.{subject_of};
ghost use Rattle.map_engine.specs.Keeping.{finished_parts, branches_left};
ghost use Rattle.map_engine.specs.Making.{drawn_outcome, make_outcome};
ghost use Rattle.map_engine.specs.Improving.{improve_outcome};
ghost use Rattle.map_engine.specs.Postering.{poster_outcome, IsPoster};
ghost use Rattle.map_engine.specs.Promises.{IsMade};

use graph_maps::each_certificate_is_read_from_its_text;

/// Where the map of a feed is made, and each part that was finished is held since, no branch node is left to search. So
/// a map that is made again with what was kept takes no step.
pub fn what_was_made_is_not_searched_again()
    ensures { (feed : Feed) (choices : Choices) (method : MethodChoices) (made : MapBytes) (held : List HeldPart)
        → make_outcome feed choices method ≡ Ok made → All (Contains held) (finished_parts feed choices method)
        → branches_left held feed choices method ≡ 0 }
{}

/// Where a map is made without moves and then improved by so many, it is the map that is made with so many.
pub fn moves_follow_routes_or_come_later()
    ensures { (feed : Feed) (choices : Choices) (method : MethodChoices) (moves : ℕ) (improved : ImprovedBytes)
        → improve_outcome feed choices (record method { moves = 0 }) moves ≡ Ok improved
        → make_outcome feed choices (record method { moves = moves }) ≡ Ok improved.map }
{}

/// The map of a feed is made of its line graph, and of what its tables tell of stations and lines, alone.
pub fn maps_are_made_of_the_line_graph()
    ensures { (feed : Feed) (choices : Choices) (method : MethodChoices) (graph : GraphParts)
        → graph_outcome choices.near feed ≡ Ok graph
        → make_outcome feed choices method ≡ made_on (subject_of feed choices) choices method graph }
{}

/// What is made has its poster: the one by its certificate is never refused, and shows the walks and the orders of that.
pub fn what_is_made_has_its_poster()
    ensures { (feed : Feed) (choices : Choices) (claim : Claim) (made : MapBytes) → IsMade feed choices claim made
        → (poster : List ℕ) × (poster_outcome feed choices claim (certificate_in made.certificate) ≡ Ok poster)
        × IsPoster feed choices claim poster made.certificate }
{
    each_certificate_is_read_from_its_text();
}

/// Where a feed has a line graph within the limits, with a drawing and no more terms than are worked on, and each part of the
/// problem of its line orders is solved within the budget, there is a map of it.
pub fn a_map_is_made_where_each_part_is_solvable()
    ensures { (feed : Feed) (choices : Choices) (method : MethodChoices) (drawn : Drawn)
        → drawn_outcome feed choices method ≡ Ok drawn
        → All (λ part. is_solvable (plan_of choices method) (untangled_problem drawn.problem) part ≡ true)
        (parts_in (untangled_problem drawn.problem))
        → (made : MapBytes) × (make_outcome feed choices method ≡ Ok made) }
{}
