//! The walk over a tree, node by node in the order of the text. What it calls beside itself is not merged into it, so that
//! a level of the tree takes little of the stack.

ghost use Rattle.std.specs.Prelude.{◌≡◌, ◌<◌, length, false, Contains, IfOk};
ghost use Rattle.order_model.specs.Problems.{lines_on};
ghost use Rattle.order_model.specs.Prefixes.{IsPrefixOf, is_placed};
ghost use Rattle.order_proof.specs.Plain.{split, plain, plain_children};
ghost use Rattle.order_proof.specs.Trees.{IsTree};
ghost use Rattle.order_model.specs.Completions.{placed_more};
ghost use Rattle.order_bound.specs.Accepting.{after_line, failing};
ghost use Rattle.order_check.specs.Asking.{question_of, IsAsked, HasTable};
ghost use Rattle.order_check.specs.Counting.{IsTally};
ghost use Rattle.order_check.specs.Walking.{IsWalked};

use crate::asked::Asked;
use crate::close::is_closed;
use crate::node::is_split;
use crate::slot::{SlotCost, Sums};
use crate::tally::{place_line, take_line_back};
use map_base::{LineId, NoMemory, SegId};
use order_model::Prefix;
use order_proof::Tree;
use std::alloc::Global;

/// Whether a tree is accepted for a prefix, whose tally is at hand. Where it is not, the lines on the way to the first node
/// that fails are added to `way`. The prefix and the tally are left as they were.
#[cycle(walk)]
pub(crate) fn walk(
    alloc: Global,
    asked: &Asked,
    prefix: &mut Prefix,
    sums: &mut Sums,
    costs: &mut [SlotCost],
    way: &mut Vec<LineId>,
    tree: &Tree,
) -> Result<bool, NoMemory>
    requires asked { IsAsked asked.now }
    requires fits { IsPrefixOf asked.now.problem.now.segs prefix.old }
    requires tree { IsTree (plain tree.now) }
    requires tally { IsTally asked.now prefix.old.placed sums.old costs.old }
    requires table { HasTable asked.now costs.old }
    ensures fits { IsPrefixOf asked.now.problem.now.segs prefix.new }
    ensures placed { prefix.new.placed ≡ prefix.old.placed }
    ensures tally { IsTally asked.now prefix.new.placed sums.new costs.new }
    ensures walked { IfOk result (IsWalked (failing (question_of asked.now) prefix.old.placed (plain tree.now)) way.old.items way.new.items) }
{
    match tree {
        Tree::Close { prices } => Ok(is_closed(asked, prefix, *sums, costs, prices)),
        Tree::Split { seg, children } => {
            walk_split(
                alloc,
                asked,
                prefix,
                sums,
                costs,
                way,
                *seg,
                children.as_slice(),
            )
        }
    }
}

/// Whether a Split is accepted for a prefix, whose tally is at hand. Where it is not, the lines on the way to the first
/// node that fails are added to `way`. The prefix and the tally are left as they were.
#[cycle(walk)]
fn walk_split(
    alloc: Global,
    asked: &Asked,
    prefix: &mut Prefix,
    sums: &mut Sums,
    costs: &mut [SlotCost],
    way: &mut Vec<LineId>,
    seg: SegId,
    children: &[(LineId, Tree)],
) -> Result<bool, NoMemory>
    requires asked { IsAsked asked.now }
    requires fits { IsPrefixOf asked.now.problem.now.segs prefix.old }
    requires tree { IsTree (split seg (plain_children children.now)) }
    requires tally { IsTally asked.now prefix.old.placed sums.old costs.old }
    requires table { HasTable asked.now costs.old }
    ensures fits { IsPrefixOf asked.now.problem.now.segs prefix.new }
    ensures placed { prefix.new.placed ≡ prefix.old.placed }
    ensures tally { IsTally asked.now prefix.new.placed sums.new costs.new }
    ensures walked { IfOk result (IsWalked (failing (question_of asked.now) prefix.old.placed (split seg (plain_children children.now))) way.old.items way.new.items) }
{
    if !is_split(asked, prefix, seg, children) {
        return Ok(false);
    }
    for child in children {
        if !walk_case(
            alloc, asked, prefix, sums, costs, way, seg, child.0, &child.1,
        )? {
            return Ok(false);
        }
    }
    Ok(true)
}

/// Whether one case of a Split is accepted for a prefix, whose tally is at hand: its line is placed while its tree is
/// walked. Where it is not, this line and those on the way to the first node that fails are added to `way`. The prefix
/// and the tally are left as they were. The terms that the line may change are picked once.
#[cycle(walk)]
fn walk_case(
    alloc: Global,
    asked: &Asked,
    prefix: &mut Prefix,
    sums: &mut Sums,
    costs: &mut [SlotCost],
    way: &mut Vec<LineId>,
    seg: SegId,
    line: LineId,
    tree: &Tree,
) -> Result<bool, NoMemory>
    requires asked { IsAsked asked.now }
    requires fits { IsPrefixOf asked.now.problem.now.segs prefix.old }
    requires seg { seg.0 < length asked.now.problem.now.segs }
    requires line { Contains (lines_on asked.now.problem.now.segs seg) line }
    requires unplaced { is_placed (lines_on prefix.old.placed seg) line ≡ false }
    requires tree { IsTree (plain tree.now) }
    requires tally { IsTally asked.now prefix.old.placed sums.old costs.old }
    requires table { HasTable asked.now costs.old }
    ensures fits { IsPrefixOf asked.now.problem.now.segs prefix.new }
    ensures placed { prefix.new.placed ≡ prefix.old.placed }
    ensures tally { IsTally asked.now prefix.new.placed sums.new costs.new }
    ensures walked { IfOk result (IsWalked (after_line line (failing (question_of asked.now)
        (placed_more asked.now.problem.now.segs prefix.old.placed seg line) (plain tree.now))) way.old.items way.new.items) }
{
    way.push(line)?;
    let changed = place_line(alloc, asked, prefix, sums, costs, seg, line)?;
    let outcome = walk(alloc, asked, prefix, sums, costs, way, tree);
    take_line_back(asked, prefix, changed.as_slice(), sums, costs, seg);
    if !outcome? {
        return Ok(false);
    }
    way.truncate(way.len() - 1);
    Ok(true)
}
