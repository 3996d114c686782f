//! What rules keep: laws of the definitions.

ghost use Rattle.std.specs.Prelude.{◌≡◌, ◌≤◌, IsTrue, List};
ghost use Rattle.map_base.specs.declared.ids.LineId.{LineId};
ghost use Rattle.order_values.specs.declared.rule.Rule.{Rule};
ghost use Rattle.order_model.specs.declared.problem.ProblemParts.{ProblemParts};
ghost use Rattle.order_model.specs.Problems.{IsProblem};
ghost use Rattle.order_model.specs.Costs.{cost_of, AreOrders, AreBest};
ghost use Rattle.order_rules.specs.Untangling.{rule_applies, ApplyInTurn, after_rules, untangling, next_rule};
ghost use Rattle.order_rules.specs.Lifting.{lifted_all};
ghost use Rattle.order_rules.specs.Touching.{IsLocal};

/// Orders of the problem after rules, lifted, are orders of the first problem and cost the same there.
pub fn lifted_orders_cost_the_same()
    ensures orders { (p : ProblemParts) (rules : List Rule) (orders : List (List LineId)) → IsProblem p → ApplyInTurn p rules
        → AreOrders (after_rules p rules).segs orders → AreOrders p.segs (lifted_all rules orders) }
    ensures cost { (p : ProblemParts) (rules : List Rule) (orders : List (List LineId)) → IsProblem p → ApplyInTurn p rules
        → AreOrders (after_rules p rules).segs orders → cost_of p.terms (lifted_all rules orders) ≡ cost_of (after_rules p rules).terms orders }
{}

/// For any orders of a problem some orders of the problem after rules cost no more.
pub fn some_orders_cost_no_more()
    ensures { (p : ProblemParts) (rules : List Rule) (orders : List (List LineId)) → IsProblem p → ApplyInTurn p rules
        → AreOrders p.segs orders
        → (better : List (List LineId)) × AreOrders (after_rules p rules).segs better × (cost_of (after_rules p rules).terms better ≤ cost_of p.terms orders) }
{}

/// Best orders of the problem after rules, lifted, are best orders of the first problem.
pub fn lifted_best_orders_are_best()
    ensures { (p : ProblemParts) (rules : List Rule) (orders : List (List LineId)) → IsProblem p → ApplyInTurn p rules
        → AreOrders (after_rules p rules).segs orders → AreBest (after_rules p rules).segs (after_rules p rules).terms orders
        → AreBest p.segs p.terms (lifted_all rules orders) }
{}

/// A rule makes a problem of a problem.
pub fn rules_keep_problems()
    ensures { (p : ProblemParts) (rules : List Rule) → IsProblem p → ApplyInTurn p rules → IsProblem (after_rules p rules) }
{}

/// The rules of the untangling of a problem apply in turn and make its last problem, to which no rule is left.
pub fn untangling_ends()
    ensures apply { (p : ProblemParts) → IsProblem p → ApplyInTurn p (untangling p).0 }
    ensures last { (p : ProblemParts) → IsProblem p → (untangling p).1 ≡ after_rules p (untangling p).0 }
    ensures ends { (p : ProblemParts) → IsProblem p → next_rule (untangling p).1 ≡ None }
{}

/// A rule that applies changes what can be done at the segments that it touches alone.
pub fn rules_are_local()
    ensures { (p : ProblemParts) (r : Rule) → IsProblem p → IsTrue (rule_applies p r) → IsLocal p r }
{}
