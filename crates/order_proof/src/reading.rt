//! Reading a proof from the front of a text. The lines of a tree are read, its cases put in place, and what is read of it
//! dropped where it stops, by functions that are not merged into those that go down the tree, so that a level takes little
//! of the stack.

ghost use Rattle.std.specs.Prelude.{◌≡◌, ◌<◌, ◌-◌, ◌∷◌, [], map, IfOk, OnOk};
ghost use Rattle.order_proof.specs.Plain.{plain, plain_part_tree, plain_part, plain_proof};
ghost use Rattle.order_proof.specs.Trees.{lines_of};
ghost use Rattle.order_proof.specs.Begun.{cases_in, with_cases, with_case, begins_with, IsBegun, HasCasesOf};
ghost use Rattle.order_proof.specs.FrontLine.{front};
ghost use Rattle.order_proof.specs.Forms.{rules_in, rule_in, parts_in, part_in, node_in, take_in};
ghost use Rattle.order_proof.specs.Reading.{RuleCount, APartTree, ATree, APart, rules_due, cases_due, parts_due, reading, proof_end};
ghost use Rattle.decimal_text.specs.Readers.{IsRead, Follows, EndsAs};
ghost use Rattle.order_proof.specs.Readers.{AreRulesOf, IsTreeOf, IsPartTreeOf, IsPartOf, ArePartsOf, IsProofOf, IsTextOf};

use crate::dual_reading::read_dual;
use crate::forms::{node_in, part_in, parts_in, rule_in, rules_in, take_in};
use crate::front_line::{begins_dual, read_line};
use crate::node_line::NodeLine;
use crate::part_tree::PartTree;
use crate::proof::{Part, Proof};
use crate::tree::Tree;
use decimal_text::{BadText, Stop, bad_text};
use map_base::{LineId, NoMemory, SegId, Sequence};
use order_values::Rule;
use std::alloc::Global;

/// How many splits, or forks, may stand on a way to a leaf.
const MOST_DEPTH: u32 = 2_048;

/// The line that counts the rules.
#[tactic(auto, unfolding(crate::specs::FrontLine::front))]
fn read_rule_count<'a>(text: &'a [u8], numbers: &mut Vec<i64>) -> Result<(u64, &'a [u8]), Stop>
    ensures { IsRead (λ x. (x.0, x.1.now)) result text.now (front rules_in text.now) }
{
    let (word, rest) = read_line(text, numbers)?;
    match rules_in(word, numbers.as_slice()) {
        Some(count) => Ok((count, rest)),
        None => Err(Stop::Wrong(text.len())),
    }
}

/// The line of a rule.
#[tactic(auto, unfolding(crate::specs::FrontLine::front))]
fn read_rule<'a>(
    alloc: Global,
    text: &'a [u8],
    numbers: &mut Vec<i64>,
) -> Result<(Rule, &'a [u8]), Stop>
    ensures { IsRead (λ x. (x.0, x.1.now)) result text.now (front rule_in text.now) }
{
    let (word, rest) = read_line(text, numbers)?;
    match rule_in(alloc, word, numbers.as_slice())? {
        Some(rule) => Ok((rule, rest)),
        None => Err(Stop::Wrong(text.len())),
    }
}

/// The line that counts the parts.
#[tactic(auto, unfolding(crate::specs::FrontLine::front))]
fn read_part_count<'a>(text: &'a [u8], numbers: &mut Vec<i64>) -> Result<(u64, &'a [u8]), Stop>
    ensures { IsRead (λ x. (x.0, x.1.now)) result text.now (front parts_in text.now) }
{
    let (word, rest) = read_line(text, numbers)?;
    match parts_in(word, numbers.as_slice()) {
        Some(count) => Ok((count, rest)),
        None => Err(Stop::Wrong(text.len())),
    }
}

/// The line of a part: its target and its segments.
#[tactic(auto, unfolding(crate::specs::FrontLine::front))]
fn read_part_head<'a>(
    alloc: Global,
    text: &'a [u8],
    numbers: &mut Vec<i64>,
) -> Result<((u64, Vec<SegId>), &'a [u8]), Stop>
    ensures { IsRead (λ x. ((x.0.0, x.0.1.items), x.1.now)) result text.now (front part_in text.now) }
{
    let (word, rest) = read_line(text, numbers)?;
    match part_in(alloc, word, numbers.as_slice())? {
        Some(head) => Ok((head, rest)),
        None => Err(Stop::Wrong(text.len())),
    }
}

/// The line of a node of a tree.
#[tactic(auto, unfolding(crate::specs::FrontLine::front))]
fn read_node<'a>(
    alloc: Global,
    room: u32,
    text: &'a [u8],
    numbers: &mut Vec<i64>,
) -> Result<(NodeLine, &'a [u8]), Stop>
    ensures { IsRead (λ x. (x.0, x.1.now)) result text.now (front (node_in room) text.now) }
{
    let (word, rest) = read_line(text, numbers)?;
    match node_in(alloc, room, word, numbers.as_slice())? {
        Some(node) => Ok((node, rest)),
        None => Err(Stop::Wrong(text.len())),
    }
}

/// A tree of which the first line is read, with how many cases follow: none of a closed one.
fn begun(alloc: Global, node: NodeLine) -> (Tree, u32)
    ensures line { begins_with result.1 (plain result.0) ≡ node }
    ensures begun { IsBegun result.1 (plain result.0) }
{
    match node {
        NodeLine::Close { prices } => (Tree::Close { prices }, 0),
        NodeLine::Split { seg, count } => {
            let children = Vec::new(alloc);
            (Tree::Split { seg, children }, count)
        }
    }
}

/// The first line of a tree: the tree without its cases, and how many follow.
#[inline(never)]
fn read_start<'a>(
    alloc: Global,
    room: u32,
    text: &'a [u8],
    numbers: &mut Vec<i64>,
) -> Result<(Box<Tree>, u32, &'a [u8]), Stop>
    ensures line { IsRead (λ x. (begins_with x.1 (plain x.0.value), x.2.now)) result text.now (front (node_in room) text.now) }
    ensures begun { IfOk result (λ x. IsBegun x.1 (plain x.0.value)) }
{
    let (node, rest) = read_node(alloc, room, text, numbers)?;
    let start = begun(alloc, node);
    let tree = Box::new(alloc, start.0)?;
    Ok((tree, start.1, rest))
}

/// The line of a case, with a line that no case of the tree has yet.
#[tactic(auto, unfolding(crate::specs::FrontLine::front))]
#[inline(never)]
fn read_take<'a>(
    tree: &Tree,
    text: &'a [u8],
    numbers: &mut Vec<i64>,
) -> Result<(LineId, &'a [u8]), Stop>
    ensures { IsRead (λ x. (x.0, x.1.now)) result text.now (front (take_in (lines_of (cases_in (plain tree.now)))) text.now) }
{
    let (word, rest) = read_line(text, numbers)?;
    match take_in(tree, word, numbers.as_slice()) {
        Some(line) => Ok((line, rest)),
        None => Err(Stop::Wrong(text.len())),
    }
}

/// So many rules.
fn read_rules<'a>(
    alloc: Global,
    count: u64,
    text: &'a [u8],
    numbers: &mut Vec<i64>,
) -> Result<(Vec<Rule>, &'a [u8]), Stop>
    ensures follows { Follows (λ x. x.1.now) result (reading (rules_due count) text.now) }
    ensures rules { IfOk result (λ x. AreRulesOf count x.0.items text.now x.1.now) }
{
    let mut rules = Vec::new(alloc);
    let mut rest = text;
    for _ in 0..count {
        let (rule, behind) = read_rule(alloc, rest, numbers)?;
        rules.push(rule)?;
        rest = behind;
    }
    Ok((rules, rest))
}

/// A tree with at most `room` splits on a way to a leaf.
#[cycle(tree_reading)]
fn read_tree<'a>(
    alloc: Global,
    room: u32,
    text: &'a [u8],
    numbers: &mut Vec<i64>,
) -> Result<(Box<Tree>, &'a [u8]), Stop>
    ensures follows { Follows (λ x. x.1.now) result (reading (ATree room ∷ []) text.now) }
    ensures tree { IfOk result (λ x. IsTreeOf room (plain x.0.value) text.now x.1.now) }
{
    let (start, count, rest) = read_start(alloc, room, text, numbers)?;
    let mut tree = start;
    match read_cases(alloc, room, count, &mut *tree, rest, numbers) {
        Ok(rest) => Ok((tree, rest)),
        Err(stop) => Err(given_up(tree, stop)),
    }
}

/// Where reading stopped, without what was read.
#[inline(never)]
fn given_up(tree: Box<Tree>, stop: Stop) -> Stop
    ensures { result ≡ stop }
{
    drop(tree);
    stop
}

/// So many cases of a tree that has none yet, of different lines, each with its tree.
#[cycle(tree_reading)]
fn read_cases<'a>(
    alloc: Global,
    room: u32,
    count: u32,
    tree: &mut Tree,
    text: &'a [u8],
    numbers: &mut Vec<i64>,
) -> Result<&'a [u8], Stop>
    requires begun { IsBegun count (plain tree.old) }
    requires room { 0 < count → 0 < room }
    ensures follows { Follows (λ rest. rest.now) result (reading (cases_due count [] (room - 1)) text.now) }
    ensures cases { IfOk result (λ rest. HasCasesOf (room - 1) count (plain tree.old) (plain tree.new) text.now rest.now) }
{
    let mut rest = text;
    for _ in 0..count {
        let (line, behind) = read_take(tree, rest, numbers)?;
        let (child, behind) = read_tree(alloc, room - 1, behind, numbers)?;
        push_case(tree, line, child)?;
        rest = behind;
    }
    Ok(rest)
}

/// Puts a case behind the others of a split.
#[inline(never)]
fn push_case(tree: &mut Tree, line: LineId, child: Box<Tree>) -> Result<(), NoMemory>
    ensures { OnOk result (plain tree.new ≡ with_cases (plain tree.old)
        (with_case (cases_in (plain tree.old)) line (plain child.value))) }
{
    match tree {
        Tree::Close { .. } => Ok(()),
        Tree::Split { children, .. } => {
            children.push((line, Box::into_inner(child)))?;
            Ok(())
        }
    }
}

/// A part's tree. Its first line decides of which kind it is.
fn read_part_tree<'a>(
    alloc: Global,
    text: &'a [u8],
    numbers: &mut Vec<i64>,
) -> Result<(PartTree, &'a [u8]), Stop>
    ensures follows { Follows (λ x. x.1.now) result (reading (APartTree ∷ []) text.now) }
    ensures tree { IfOk result (λ x. IsPartTreeOf (plain_part_tree x.0) text.now x.1.now) }
{
    if begins_dual(text) {
        let (tree, rest) = read_dual(alloc, MOST_DEPTH, text, numbers)?;
        Ok((PartTree::ByPairs(Box::into_inner(tree)), rest))
    } else {
        let (tree, rest) = read_tree(alloc, MOST_DEPTH, text, numbers)?;
        Ok((PartTree::ByCases(Box::into_inner(tree)), rest))
    }
}

/// A part with its tree.
fn read_part<'a>(
    alloc: Global,
    text: &'a [u8],
    numbers: &mut Vec<i64>,
) -> Result<(Part, &'a [u8]), Stop>
    ensures follows { Follows (λ x. x.1.now) result (reading (parts_due 1) text.now) }
    ensures part { IfOk result (λ x. IsPartOf (plain_part x.0) text.now x.1.now) }
{
    let ((target, segs), rest) = read_part_head(alloc, text, numbers)?;
    let (tree, rest) = read_part_tree(alloc, rest, numbers)?;
    let segs = Sequence::of(segs);
    Ok((Part { segs, target, tree }, rest))
}

/// So many parts.
fn read_parts<'a>(
    alloc: Global,
    count: u64,
    text: &'a [u8],
    numbers: &mut Vec<i64>,
) -> Result<(Vec<Part>, &'a [u8]), Stop>
    ensures follows { Follows (λ x. x.1.now) result (reading (parts_due count) text.now) }
    ensures parts { IfOk result (λ x. ArePartsOf count (map plain_part x.0.items) text.now x.1.now) }
{
    let mut parts = Vec::new(alloc);
    let mut rest = text;
    for _ in 0..count {
        let (part, behind) = read_part(alloc, rest, numbers)?;
        parts.push(part)?;
        rest = behind;
    }
    Ok((parts, rest))
}

/// Rules and parts, each kind counted before it, and what stands behind them.
fn read_all<'a>(
    alloc: Global,
    text: &'a [u8],
    numbers: &mut Vec<i64>,
) -> Result<(Vec<Rule>, Vec<Part>, &'a [u8]), Stop>
    ensures follows { Follows (λ x. x.2.now) result (reading (RuleCount ∷ []) text.now) }
    ensures proof { IfOk result (λ x. IsProofOf (plain_proof (record { rules = x.0.items; parts = x.1.items })) text.now x.2.now) }
{
    let (count, rest) = read_rule_count(text, numbers)?;
    let (rules, rest) = read_rules(alloc, count, rest, numbers)?;
    let (count, rest) = read_part_count(rest, numbers)?;
    let (parts, rest) = read_parts(alloc, count, rest, numbers)?;
    Ok((rules, parts, rest))
}

/// Reads the proof at the front of bytes, and tells how many bytes its text has. What stands behind it is not looked
/// at.
pub fn read_proof(alloc: Global, bytes: &[u8]) -> Result<(Proof, usize), BadText>
    ensures proof { IfOk result (λ x. IsTextOf (plain_proof x.0) x.1 bytes.now) }
    ensures end { EndsAs (λ x. x.1) result (proof_end bytes.now) }
{
    let mut numbers = Vec::new(alloc);
    match read_all(alloc, bytes, &mut numbers) {
        Ok((rules, parts, rest)) => {
            let rules = Sequence::of(rules);
            let parts = Sequence::of(parts);
            Ok((Proof { rules, parts }, bytes.len() - rest.len()))
        }
        Err(stop) => Err(bad_text(bytes.len(), stop)),
    }
}
