//! Reading a dual tree from the front of a text. Its lines are read, and its nodes put in place, by functions that are not
//! merged into the one that goes down the tree, so that a level takes little of the stack.

ghost use Rattle.std.specs.Prelude.{◌≡◌, ◌∷◌, [], IfOk};
ghost use Rattle.order_values.specs.DualTrees.{fork, plain_dual};
ghost use Rattle.order_proof.specs.FrontLine.{front};
ghost use Rattle.order_proof.specs.Forms.{dual_in};
ghost use Rattle.order_proof.specs.Reading.{ADual, reading};
ghost use Rattle.decimal_text.specs.Readers.{IsRead, Follows};
ghost use Rattle.order_proof.specs.Readers.{IsDualOf};
ghost use Rattle.order_proof.specs.Begun.{dual_begins_with, IsDualBegun};

use crate::dual_forms::dual_in;
use crate::dual_line::{DualLine, DualStart};
use crate::front_line::read_line;
use decimal_text::Stop;
use map_base::{LineId, NoMemory, SegId};
use order_values::DualTree;
use std::alloc::Global;

/// The line of a node of a dual tree.
#[tactic(auto, unfolding(crate::specs::FrontLine::front))]
fn read_dual_line<'a>(
    alloc: Global,
    room: u32,
    text: &'a [u8],
    numbers: &mut Vec<i64>,
) -> Result<(DualLine, &'a [u8]), Stop>
    ensures { IsRead (λ x. (x.0, x.1.now)) result text.now (front (dual_in room) text.now) }
{
    let (word, rest) = read_line(text, numbers)?;
    match dual_in(alloc, room, word, numbers.as_slice())? {
        Some(node) => Ok((node, rest)),
        None => Err(Stop::Wrong(text.len())),
    }
}

/// The first line of a dual tree: a fork without its trees, or the whole tree.
#[inline(never)]
fn read_dual_start<'a>(
    alloc: Global,
    room: u32,
    text: &'a [u8],
    numbers: &mut Vec<i64>,
) -> Result<(DualStart, &'a [u8]), Stop>
    ensures line { IsRead (λ x. (dual_begins_with x.0, x.1.now)) result text.now (front (dual_in room) text.now) }
    ensures begun { IfOk result (λ x. IsDualBegun x.0) }
{
    let (node, rest) = read_dual_line(alloc, room, text, numbers)?;
    match node {
        DualLine::Fork { seg, a, b } => Ok((DualStart::Fork { seg, a, b }, rest)),
        DualLine::Stop { prices } => {
            let tree = Box::new(alloc, DualTree::Stop { prices })?;
            Ok((DualStart::Whole { tree }, rest))
        }
    }
}

/// A fork in a place of its own.
#[inline(never)]
fn new_fork(
    alloc: Global,
    seg: SegId,
    a: LineId,
    b: LineId,
    first: Box<DualTree>,
    second: Box<DualTree>,
) -> Result<Box<DualTree>, NoMemory>
    ensures { IfOk result (λ tree. plain_dual tree.value ≡ fork seg a b (plain_dual first.value) (plain_dual second.value)) }
{
    let fork = DualTree::Fork {
        seg,
        a,
        b,
        first,
        second,
    };
    let tree = Box::new(alloc, fork)?;
    Ok(tree)
}

/// A dual tree with at most `room` forks on a way to a stop.
pub(crate) fn read_dual<'a>(
    alloc: Global,
    room: u32,
    text: &'a [u8],
    numbers: &mut Vec<i64>,
) -> Result<(Box<DualTree>, &'a [u8]), Stop>
    ensures follows { Follows (λ x. x.1.now) result (reading (ADual room ∷ []) text.now) }
    ensures tree { IfOk result (λ x. IsDualOf room (plain_dual x.0.value) text.now x.1.now) }
{
    let (start, rest) = read_dual_start(alloc, room, text, numbers)?;
    match start {
        DualStart::Whole { tree } => Ok((tree, rest)),
        DualStart::Fork { seg, a, b } => {
            let (first, rest) = read_dual(alloc, room - 1, rest, numbers)?;
            let (second, rest) = read_dual(alloc, room - 1, rest, numbers)?;
            let tree = new_fork(alloc, seg, a, b, first, second)?;
            Ok((tree, rest))
        }
    }
}
