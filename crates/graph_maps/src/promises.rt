//! What a map promises, as laws.

ghost use Rattle.std.specs.Prelude.{◌≡◌, ℕ, List, None, Ok};
ghost use Rattle.map_base.specs.Settings.{Choices};
ghost use Rattle.map_base.specs.declared.ids.LineId.{LineId};
ghost use Rattle.graph_core.specs.declared.parts.GraphParts.{GraphParts};
ghost use Rattle.octi_grid.specs.Legal.{first_illegal};
ghost use Rattle.order_model.specs.Costs.{AreBest};
ghost use Rattle.kept_trees.specs.declared.plan.SearchPlan.{SearchPlan};
ghost use Rattle.graph_maps.specs.declared.checked.Proved.{Proved};
ghost use Rattle.graph_maps.specs.Subjects.{Subject};
ghost use Rattle.graph_maps.specs.Problems.{Drawn, problem_of};
ghost use Rattle.graph_maps.specs.Solving.{SolvedPart};
ghost use Rattle.graph_maps.specs.Certificates.{certificate_of};
ghost use Rattle.graph_maps.specs.Making.{map_of};
ghost use Rattle.graph_maps.specs.Checking.{check_on, proved_by};
ghost use Rattle.graph_maps.specs.Promises.{AreBounded, ShowsGraph};
ghost use Rattle.graph_maps.specs.Wholes.{IsWhole};

/// A law: where a legal drawing of a line graph has all parts of its untangled problem solved, its map shows exactly
/// the line graph, and no line orders cost less than the targets sum to; and where no walk is the first that is not
/// legal, the check says yes to the map and its certificate.
pub fn a_solved_drawing_is_accepted()
    ensures shows { (plan : SearchPlan) (subject : Subject) (choices : Choices) (drawn : Drawn)
        (parts : List SolvedPart) → IsWhole plan subject.importance choices drawn parts
        → ShowsGraph subject choices plan.claim drawn.graph (map_of subject drawn parts).svg
        (proved_by (certificate_of subject.importance drawn parts)) }
    ensures accepted { (plan : SearchPlan) (subject : Subject) (choices : Choices) (drawn : Drawn)
        (parts : List SolvedPart) → IsWhole plan subject.importance choices drawn parts
        → first_illegal drawn.graph drawn.walks ≡ None
        → check_on subject choices plan.claim drawn.graph (map_of subject drawn parts).svg
        (Ok (certificate_of subject.importance drawn parts))
        ≡ Ok (proved_by (certificate_of subject.importance drawn parts)) }
{}

/// A law: line orders that cost what none cost less than are best.
pub fn a_bound_that_is_attained_is_least()
    ensures { (importance : List ℕ) (choices : Choices) (graph : GraphParts) (orders : List (List LineId))
        (proved : Proved)
        → AreBounded importance choices graph orders proved → proved.bound ≡ proved.cost
        → AreBest graph.lines (problem_of importance choices graph).terms orders }
{}
