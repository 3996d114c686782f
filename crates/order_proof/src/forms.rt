//! The forms that lines may have.

ghost use Rattle.std.specs.Prelude.{◌≡◌, ◌≤◌, ◌<◌, ◌^◌, ◌-◌, ◌∷◌, pos, length, slice_index_or, option_map, IfOk, IfSome};
ghost use Rattle.decimal_text.specs.Numbers.{natural_within, from_to};
ghost use Rattle.order_values.specs.PriceLists.{AreRisingPrices};
ghost use Rattle.order_proof.specs.Plain.{plain, plain_children};
ghost use Rattle.order_proof.specs.Trees.{lines_of, is_among};
ghost use Rattle.order_proof.specs.Begun.{cases_in};
ghost use Rattle.order_proof.specs.declared.line_word.LineWord.TheVariants.{Divide, Close};
ghost use Rattle.order_proof.specs.Forms.{seg, line_id, rising, price_of, priced_term, prices_from, counts, flag_of, rules_in, merge_with, split_with, rule_in, parts_in, part_in, node_in, take_in};

use crate::line_word::LineWord;
use crate::node_line::NodeLine;
use crate::price_forms::counted_prices;
use crate::tree::Tree;
use decimal_text::{from_to, natural_within};
use map_base::{LineId, NoMemory, SegId, Sequence};
use order_values::{Prices, Rule};
use std::alloc::Global;

/// What `0` and `1` stand for.
fn flag_of(number: i64) -> Option<bool>
    ensures { result ≡ flag_of number }
{
    match number {
        0 => Some(false),
        1 => Some(true),
        _ => None,
    }
}

/// The number of rules.
pub(crate) fn rules_in(word: LineWord, numbers: &[i64]) -> Option<u64>
    ensures { result ≡ rules_in word numbers.now }
{
    match (word, numbers) {
        (LineWord::Rules, [count]) => natural_within(20_000_000, *count),
        _ => None,
    }
}

/// Lines by their numbers, which rise strictly.
fn rising_lines(alloc: Global, numbers: &[i64]) -> Result<Option<Vec<LineId>>, NoMemory>
    ensures { IfOk result (λ lines. option_map (λ v. v.items) lines ≡ rising line_id 0 numbers.now) }
{
    let mut lines = Vec::new(alloc);
    let mut least = 0;
    for number in numbers {
        let Some(n) = from_to(least, u64::from(u32::MAX), *number) else {
            return Ok(None);
        };
        lines.push(LineId(n as u32))?;
        least = n + 1;
    }
    Ok(Some(lines))
}

/// Segments by their numbers, which rise strictly.
fn rising_segments(alloc: Global, numbers: &[i64]) -> Result<Option<Vec<SegId>>, NoMemory>
    ensures { IfOk result (λ segs. option_map (λ v. v.items) segs ≡ rising seg 0 numbers.now) }
{
    let mut segs = Vec::new(alloc);
    let mut least = 0;
    for number in numbers {
        let Some(n) = from_to(least, u64::from(u32::MAX), *number) else {
            return Ok(None);
        };
        segs.push(SegId(n as u32))?;
        least = n + 1;
    }
    Ok(Some(segs))
}

/// The number of a segment, a line or a term.
pub(crate) fn id_of(number: i64) -> Option<u32>
    ensures { result ≡ natural_within (2 ^ 32 - 1) number }
{
    let number = natural_within(u64::from(u32::MAX), number)?;
    Some(number as u32)
}

/// A rule that merges two segments.
fn merge_of(into: i64, from: i64, flip: i64) -> Option<Rule>
    ensures { result ≡ merge_with (natural_within (2 ^ 32 - 1) into) (natural_within (2 ^ 32 - 1) from) (flag_of flip) }
{
    let into = id_of(into)?;
    let from = id_of(from)?;
    let flip = flag_of(flip)?;
    Some(Rule::Merge {
        into: SegId(into),
        from: SegId(from),
        flip,
    })
}

/// A rule that divides a segment.
fn divide_of(alloc: Global, seg: i64, lines: &[i64]) -> Result<Option<Rule>, NoMemory>
    ensures { IfOk result (λ rule. rule ≡ rule_in Divide (seg ∷ lines.now)) }
{
    let Some(seg) = id_of(seg) else {
        return Ok(None);
    };
    let Some(lines) = rising_lines(alloc, lines)? else {
        return Ok(None);
    };
    Ok(Some(Rule::Divide {
        seg: SegId(seg),
        first: Sequence::of(lines),
    }))
}

/// A rule.
pub(crate) fn rule_in(
    alloc: Global,
    word: LineWord,
    numbers: &[i64],
) -> Result<Option<Rule>, NoMemory>
    ensures { IfOk result (λ rule. rule ≡ rule_in word numbers.now) }
{
    match (word, numbers) {
        (LineWord::Merge, [into, from, flip]) => Ok(merge_of(*into, *from, *flip)),
        (LineWord::Divide, [seg, lines @ ..]) => divide_of(alloc, *seg, lines),
        _ => Ok(None),
    }
}

/// The number of parts.
pub(crate) fn parts_in(word: LineWord, numbers: &[i64]) -> Option<u64>
    ensures { result ≡ parts_in word numbers.now }
{
    match (word, numbers) {
        (LineWord::Parts, [count]) => natural_within(20_000_000, *count),
        _ => None,
    }
}

/// The target of a part, and its segments.
pub(crate) fn part_in(
    alloc: Global,
    word: LineWord,
    numbers: &[i64],
) -> Result<Option<(u64, Vec<SegId>)>, NoMemory>
    ensures { IfOk result (λ part. option_map (λ p. (p.0, p.1.items)) part ≡ part_in word numbers.now) }
{
    match (word, numbers) {
        (LineWord::Part, [target, segs @ ..]) => {
            let Some(target) = natural_within(1_000_000_000_000_000, *target) else {
                return Ok(None);
            };
            let Some(segs) = rising_segments(alloc, segs)? else {
                return Ok(None);
            };
            Ok(Some((target, segs)))
        }
        _ => Ok(None),
    }
}

/// A split, where there is room for one more.
fn split_of(room: u32, seg: i64, count: i64) -> Option<NodeLine>
    ensures { result ≡ split_with room (natural_within (2 ^ 32 - 1) seg) (from_to 1 1000 count) }
{
    if room == 0 {
        return None;
    }
    let seg = id_of(seg)?;
    let count = from_to(1, 1_000, count)?;
    Some(NodeLine::Split {
        seg: SegId(seg),
        count: count as u32,
    })
}

/// A closed case with as many prices as are counted.
fn close_of(alloc: Global, count: i64, numbers: &[i64]) -> Result<Option<NodeLine>, NoMemory>
    ensures { IfOk result (λ node. node ≡ node_in 0 Close (count ∷ numbers.now)) }
{
    let prices = counted_prices(alloc, 1_000_000_000, count, numbers)?;
    Ok(prices.map(|prices| NodeLine::Close { prices }))
}

/// A split, where there is room for one more, or a closed case.
pub(crate) fn node_in(
    alloc: Global,
    room: u32,
    word: LineWord,
    numbers: &[i64],
) -> Result<Option<NodeLine>, NoMemory>
    ensures { IfOk result (λ node. node ≡ node_in room word numbers.now) }
{
    match (word, numbers) {
        (LineWord::Split, [seg, count]) => Ok(split_of(room, *seg, *count)),
        (LineWord::Close, [count, numbers @ ..]) => close_of(alloc, *count, numbers),
        _ => Ok(None),
    }
}

/// Whether a line is that of one of these cases. All of them are looked at, since a loop with no way out compares several
/// at once.
#[tactic(auto, using(std::proofs::lemmas::List::at_drop_more))]
fn is_among(children: &[(LineId, Tree)], line: LineId) -> bool
    ensures { result ≡ is_among (lines_of (plain_children children.now)) line }
{
    let mut among = false;
    for other in children {
        among |= other.0.0 == line.0;
    }
    among
}

/// Whether a case of a tree has this line.
fn is_taken(tree: &Tree, line: LineId) -> bool
    ensures { result ≡ is_among (lines_of (cases_in (plain tree.now))) line }
{
    match tree {
        Tree::Close { .. } => false,
        Tree::Split { children, .. } => is_among(children.as_slice(), line),
    }
}

/// The line of a case, where no case of the tree has it yet.
pub(crate) fn take_in(tree: &Tree, word: LineWord, numbers: &[i64]) -> Option<LineId>
    ensures { result ≡ take_in (lines_of (cases_in (plain tree.now))) word numbers.now }
{
    match (word, numbers) {
        (LineWord::Take, [line]) => {
            let line = LineId(id_of(*line)?);
            if is_taken(tree, line) {
                None
            } else {
                Some(line)
            }
        }
        _ => None,
    }
}
