//! The walk over a tree, node by node in the order of the text.

ghost use Rattle.std.specs.Prelude.{◌≡◌, ◌∷◌, true, IfOk};
ghost use Rattle.order_values.specs.DualTrees.{fork, plain_dual};
ghost use Rattle.dual_bound.specs.Accepting.{after_line, is_fork, failing_below};
ghost use Rattle.dual_check.specs.Asking.{IsAsked, HasRoomFor, question_of};
ghost use Rattle.dual_check.specs.Settling.{pairs_of, IsPairOn, IsWalked};
ghost use Rattle.dual_check.specs.Nodes.{IsNode};

use crate::asked::Asked;
use crate::node::Node;
use crate::solver::Solver;
use crate::value::is_stopped;
use dual_bound::SettledPair;
use map_base::{LineId, NoMemory, SegId};
use order_values::DualTree;

/// Whether a tree is accepted at a node. Where it is not, the lines on the way to the first node that fails are added to
/// `way`; where it is, the same pairs are settled as before.
#[cycle(walk)]
pub(crate) fn walk(
    asked: &Asked,
    node: &mut Node,
    solver: &mut Solver,
    way: &mut Vec<LineId>,
    tree: &DualTree,
) -> Result<bool, NoMemory>
    requires asked { IsAsked asked.now }
    requires node { IsNode asked.now node.old }
    requires room { HasRoomFor asked.now solver.old }
    ensures room { HasRoomFor asked.now solver.new }
    ensures node { IfOk result (λ _. IsNode asked.now node.new) }
    ensures settled { IfOk result (λ passed. passed ≡ true → node.new.settled.items ≡ node.old.settled.items) }
    ensures walked { IfOk result (IsWalked (failing_below (question_of asked.now) (pairs_of node.old.settled.items) (plain_dual tree.now)) way.old.items way.new.items) }
{
    match tree {
        DualTree::Stop { prices } => is_stopped(asked, node, solver, prices.as_slice()),
        DualTree::Fork {
            seg,
            a,
            b,
            first,
            second,
        } => walk_fork(asked, node, solver, way, *seg, *a, *b, first, second),
    }
}

/// Whether a fork is accepted at a node. Where it is not, the lines on the way to the first node that fails are added
/// to `way`; where it is, the same pairs are settled as before.
#[cycle(walk)]
fn walk_fork(
    asked: &Asked,
    node: &mut Node,
    solver: &mut Solver,
    way: &mut Vec<LineId>,
    seg: SegId,
    a: LineId,
    b: LineId,
    first: &DualTree,
    second: &DualTree,
) -> Result<bool, NoMemory>
    requires asked { IsAsked asked.now }
    requires node { IsNode asked.now node.old }
    requires room { HasRoomFor asked.now solver.old }
    ensures room { HasRoomFor asked.now solver.new }
    ensures node { IfOk result (λ _. IsNode asked.now node.new) }
    ensures settled { IfOk result (λ passed. passed ≡ true → node.new.settled.items ≡ node.old.settled.items) }
    ensures walked { IfOk result (IsWalked (failing_below (question_of asked.now) (pairs_of node.old.settled.items) (fork seg a b (plain_dual first.now) (plain_dual second.now)))
        way.old.items way.new.items) }
{
    if !is_fork(asked, seg, a, b) {
        return Ok(false);
    }
    let ahead = SettledPair {
        seg,
        first: a,
        second: b,
    };
    if !walk_case(asked, node, solver, way, ahead, first)? {
        return Ok(false);
    }
    let behind = SettledPair {
        seg,
        first: b,
        second: a,
    };
    walk_case(asked, node, solver, way, behind, second)
}

/// Whether one case of a fork is accepted at a node, with its pair settled besides. Where it is not, the first line of
/// the pair and those on the way to the first node that fails are added to `way`; where it is, the same pairs are
/// settled as before.
#[cycle(walk)]
fn walk_case(
    asked: &Asked,
    node: &mut Node,
    solver: &mut Solver,
    way: &mut Vec<LineId>,
    pair: SettledPair,
    tree: &DualTree,
) -> Result<bool, NoMemory>
    requires asked { IsAsked asked.now }
    requires node { IsNode asked.now node.old }
    requires room { HasRoomFor asked.now solver.old }
    requires pair { IsPairOn asked.now.problem.now.segs pair }
    ensures room { HasRoomFor asked.now solver.new }
    ensures node { IfOk result (λ _. IsNode asked.now node.new) }
    ensures settled { IfOk result (λ passed. passed ≡ true → node.new.settled.items ≡ node.old.settled.items) }
    ensures walked { IfOk result (IsWalked (after_line pair.first (failing_below (question_of asked.now) (pair ∷ pairs_of node.old.settled.items) (plain_dual tree.now)))
        way.old.items way.new.items) }
{
    way.push(pair.first)?;
    node.settle(asked, pair)?;
    if !walk(asked, node, solver, way, tree)? {
        return Ok(false);
    }
    node.take_back(asked);
    way.truncate(way.len() - 1);
    Ok(true)
}

/// Whether a fork holds: two different lines of a segment of the part.
#[inline(never)]
fn is_fork(asked: &Asked, seg: SegId, a: LineId, b: LineId) -> bool
    requires { IsAsked asked.now }
    ensures { result ≡ is_fork (question_of asked.now) seg a b }
{
    if asked.part.binary_search_by_key(&seg.0, |s| s.0).is_err() {
        return false;
    }
    let lines = asked.problem.segs()[seg.0 as usize].as_slice();
    if a == b {
        return false;
    }
    if !lines.contains(&a) {
        return false;
    }
    lines.contains(&b)
}
