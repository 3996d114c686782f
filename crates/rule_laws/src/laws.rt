//! That closures are the least groups, and that nothing applies where no rule is left.

ghost use Rattle.std.specs.Prelude.{◌≡◌, true, false, List, None};
ghost use Rattle.map_base.specs.declared.ids.SegId.{SegId};
ghost use Rattle.map_base.specs.declared.ids.LineId.{LineId};
ghost use Rattle.order_values.specs.declared.rule.Rule.{Rule};
ghost use Rattle.order_model.specs.declared.problem.ProblemParts.{ProblemParts};
ghost use Rattle.order_model.specs.Problems.{lines_on, IsProblem};
ghost use Rattle.order_model.specs.Places.{has_line};
ghost use Rattle.order_rules.specs.Dividing.{closure};
ghost use Rattle.order_rules.specs.Untangling.{rule_applies, next_rule};
ghost use Rattle.rule_laws.specs.Closed.{IsClosed, IsWithin};

/// The closure of a line of a segment has the line, and each line of the segment that some line of it can't stand before.
/// It is the least such group: each other one has all its lines.
pub fn closures_are_least()
    ensures has { (p : ProblemParts) (e : SegId) (a : LineId) → has_line (lines_on p.segs e) a ≡ true
        → has_line (closure p e a) a ≡ true }
    ensures closed { (p : ProblemParts) (e : SegId) (a : LineId) → has_line (lines_on p.segs e) a ≡ true
        → IsClosed p e (closure p e a) }
    ensures least { (p : ProblemParts) (e : SegId) (a : LineId) (group : List LineId) → has_line group a ≡ true
        → IsClosed p e group → IsWithin (closure p e a) group }
{}

/// Where untangling has no next rule, no rule at all applies: no merge of two segments, and no division of a segment by
/// any group of its lines.
pub fn nothing_applies_where_no_rule_is_left()
    ensures { (p : ProblemParts) (r : Rule) → IsProblem p → next_rule p ≡ None → rule_applies p r ≡ false }
{}
