//! The check of a dual tree.

ghost use Rattle.std.specs.Prelude.{◌≡◌, ◌≤◌, ◌<◌, length, nat_le, All, IfOk, IfErr, None};
ghost use Rattle.map_base.specs.declared.ids.SegId.{SegId};
ghost use Rattle.order_model.specs.Problems.{IsProblem, lines_on};
ghost use Rattle.order_model.specs.Parts.{IsRisingPart};
ghost use Rattle.order_model.specs.PartTerms.{part_terms, part_numbers};
ghost use Rattle.order_model.specs.Questions.{question};
ghost use Rattle.order_values.specs.DualTrees.{plain_dual};
ghost use Rattle.dual_bound.specs.Accepting.{is_narrow, failing};
ghost use Rattle.dual_check.specs.Answering.{IsCause};

use crate::asked::Asked;
use crate::load::is_light;
use crate::node::Node;
use crate::solver::Solver;
use crate::stop::DualStop;
use crate::walk::walk;
use dual_shares::terms_by_segment;
use map_base::SegId;
use order_model::Problem;
use order_values::DualTree;
use std::alloc::Global;

/// How many lines a segment may have whose orders are gone through.
const MOST_LINES: usize = 16;

/// Whether a tree shows that no orders of a part of the problem cost less than the target on the part's terms, whose
/// numbers these are. Refused with the way to the first node that fails; an empty way is that of the first node of all,
/// which also fails where the tree has too many stops for the part's load.
pub fn check_dual(
    alloc: Global,
    problem: &Problem,
    part: &[SegId],
    numbers: &[u32],
    target: u64,
    tree: &DualTree,
) -> Result<(), DualStop>
    requires problem { IsProblem problem.now }
    requires rising { IsRisingPart part.now }
    requires known { All (λ (s : SegId). s.0 < length problem.now.segs) part.now }
    requires numbers { numbers.now ≡ part_numbers problem.now.terms part.now }
    ensures accepted { IfOk result (λ _. failing (question problem.now.segs part.now (part_terms problem.now.terms part.now) target) (plain_dual tree.now) ≡ None) }
    ensures refused { IfErr result (IsCause (failing (question problem.now.segs part.now (part_terms problem.now.terms part.now) target) (plain_dual tree.now))) }
{
    if !is_light(problem, part, tree) {
        return Err(DualStop::Failing(Vec::new(alloc)));
    }
    let width = widest(problem, part);
    let narrow = width <= MOST_LINES;
    let groups = terms_by_segment(alloc, problem, part, numbers)?;
    let mut solver = Solver::new(alloc, if narrow { width } else { 0 })?;
    let asked = Asked {
        problem,
        part,
        numbers,
        groups: groups.as_slice(),
        narrow,
        target,
    };
    let mut node = Node::root(alloc, part.len())?;
    let mut way = Vec::new(alloc);
    if walk(&asked, &mut node, &mut solver, &mut way, tree)? {
        return Ok(());
    }
    Err(DualStop::Failing(way))
}

/// How many lines the widest of these segments has.
fn widest(problem: &Problem, part: &[SegId]) -> usize
    requires { All (λ (s : SegId). s.0 < length problem.now.segs) part.now }
    ensures most { All (λ (s : SegId). length (lines_on problem.now.segs s) ≤ result) part.now }
    ensures narrow { nat_le result 16 ≡ is_narrow problem.now.segs part.now }
{
    let segs = problem.segs();
    let mut width: usize = 0;
    for s in part {
        width = width.max(segs[s.0 as usize].as_slice().len());
    }
    width
}
