//! Whether a node of a tree holds for a prefix.

ghost use Rattle.std.specs.Prelude.{◌≡◌, ◌<◌, ◌&&◌, nat_lt, length};
ghost use Rattle.std.specs.List.{list_all};
ghost use Rattle.order_model.specs.Problems.{lines_on};
ghost use Rattle.order_model.specs.Prefixes.{IsPrefixOf, is_left};
ghost use Rattle.order_proof.specs.Trees.{AreDistinct};
ghost use Rattle.order_model.specs.PartTerms.{is_in};
ghost use Rattle.order_bound.specs.Accepting.{are_those_left};
ghost use Rattle.order_check.specs.Asking.{IsAsked};
ghost use Rattle.order_check.specs.Children.{child_lines};

use crate::asked::Asked;
use map_base::{LineId, SegId};
use order_model::{Prefix, Problem};
use order_proof::Tree;

/// Whether a Split holds: its segment is of the part, and its lines, no two of which are the same, are those that are not
/// placed, one at least.
#[inline(never)]
pub(crate) fn is_split(
    asked: &Asked,
    prefix: &Prefix,
    s: SegId,
    children: &[(LineId, Tree)],
) -> bool
    requires asked { IsAsked asked.now }
    requires fits { IsPrefixOf asked.now.problem.now.segs prefix.now }
    requires distinct { AreDistinct (child_lines children.now) }
    ensures { result ≡ is_in asked.now.part.now s && (nat_lt 0 (length (child_lines children.now))
        && are_those_left (lines_on asked.now.problem.now.segs s) (lines_on prefix.now.placed s) (child_lines children.now)) }
{
    if s.0 as usize >= asked.numbers.len() {
        return false;
    }
    if asked.numbers[s.0 as usize] != asked.k {
        return false;
    }
    if children.is_empty() {
        return false;
    }
    are_those_left(asked.problem, prefix, s, children)
}

/// Whether the lines of the children, no two of which are the same, are exactly those of a segment that are not placed:
/// each is one of them, and there are as many.
fn are_those_left(problem: &Problem, prefix: &Prefix, s: SegId, children: &[(LineId, Tree)]) -> bool
    requires fits { IsPrefixOf problem.now.segs prefix.now }
    requires known { s.0 < length problem.now.segs }
    requires distinct { AreDistinct (child_lines children.now) }
    ensures { result ≡ are_those_left (lines_on problem.now.segs s) (lines_on prefix.now.placed s) (child_lines children.now) }
{
    let segs = problem.segs();
    let lines = segs[s.0 as usize].as_slice();
    if children.len() + prefix.placed(s).len() != lines.len() {
        return false;
    }
    are_all_left(problem, prefix, s, children)
}

/// Whether each line of the children stands on the segment and is not placed.
#[tactic(auto, using(std::proofs::lemmas::List::at_drop_more))]
fn are_all_left(problem: &Problem, prefix: &Prefix, s: SegId, children: &[(LineId, Tree)]) -> bool
    requires fits { IsPrefixOf problem.now.segs prefix.now }
    requires known { s.0 < length problem.now.segs }
    ensures { result ≡ list_all (is_left (lines_on problem.now.segs s) (lines_on prefix.now.placed s)) (child_lines children.now) }
{
    for child in children {
        if !prefix.is_left(problem, s, child.0) {
            return false;
        }
    }
    true
}
