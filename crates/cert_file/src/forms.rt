//! The forms of lines that are a word and numbers.

ghost use Rattle.std.specs.Prelude.{◌≡◌, ◌≤◌, ◌^◌, ◌-◌, pos, length, codes, option_map, slice_index_or, IfOk, IfSome};
ghost use Rattle.decimal_text.specs.Numbers.{natural_within};
ghost use Rattle.cert_file.specs.Forms.{spoken, version_of, counts_with, counts_of, pair_of, pairs_from, importance_of, is_number, lines_in, distinct, order_in, order_of, cost_of, most_nodes, most_segs, most_lines};

use crate::counts::Counts;
use crate::distinct::are_distinct;
use decimal_text::{from_to, natural_within};
use map_base::{LineId, NoMemory};
use std::alloc::Global;

/// `octimap VERSION`.
pub(crate) fn version_in(word: &[u8], numbers: &[i64]) -> Option<u64>
    ensures { result ≡ spoken (codes "octimap") version_of (record { word = word.now; numbers = numbers.now }) }
{
    if word != b"octimap".as_slice() {
        return None;
    }
    match numbers {
        [version] => from_to(1, 2, *version),
        _ => None,
    }
}

/// A number that is not negative and at most `most`.
fn small(most: u32, number: i64) -> Option<u32>
    ensures { result ≡ natural_within most number }
{
    let number = natural_within(u64::from(most), number)?;
    Some(number as u32)
}

/// The three counts.
fn counts_with(nodes: i64, segs: i64, lines: i64) -> Option<Counts>
    ensures { result ≡ counts_with (natural_within most_nodes nodes) (natural_within most_segs segs) (natural_within most_lines lines) }
{
    let nodes = small(10_000, nodes)?;
    let segs = small(20_000, segs)?;
    let lines = small(1_000, lines)?;
    Some(Counts { nodes, segs, lines })
}

/// `graph NODES SEGMENTS LINES`.
pub(crate) fn counts_in(word: &[u8], numbers: &[i64]) -> Option<Counts>
    ensures { result ≡ spoken (codes "graph") counts_of (record { word = word.now; numbers = numbers.now }) }
{
    if word != b"graph".as_slice() {
        return None;
    }
    match numbers {
        [nodes, segs, lines] => counts_with(*nodes, *segs, *lines),
        _ => None,
    }
}

/// A line and its importance, at the front of numbers.
fn front_pair(least: u64, numbers: &[i64]) -> Option<(LineId, u32)>
    requires { 2 ≤ length numbers.now }
    ensures value { result ≡ pair_of least (slice_index_or numbers.now 0 (pos 0)) (slice_index_or numbers.now 1 (pos 0)) }
    ensures least { IfSome result (λ p. least ≤ p.0.0) }
{
    let line = from_to(least, u64::from(u32::MAX), numbers[0])?;
    let importance = from_to(2, 16, numbers[1])?;
    Some((LineId(line as u32), importance as u32))
}

/// Lines, each with its importance. The numbers of the lines rise strictly.
fn pairs_in(alloc: Global, numbers: &[i64]) -> Result<Option<Vec<(LineId, u32)>>, NoMemory>
    ensures { IfOk result (λ pairs. option_map (λ v. v.items) pairs ≡ pairs_from 0 numbers.now) }
{
    let mut pairs = Vec::new(alloc);
    let mut least = 0;
    let mut rest = numbers;
    while rest.len() >= 2 {
        let Some(pair) = front_pair(least, rest) else {
            return Ok(None);
        };
        pairs.push(pair)?;
        least = u64::from(pair.0.0) + 1;
        rest = rest.split_at(2).1;
    }
    if rest.is_empty() {
        Ok(Some(pairs))
    } else {
        Ok(None)
    }
}

/// `importance LINE IMPORTANCE ..`, of at least one line.
pub(crate) fn importance_in(
    alloc: Global,
    word: &[u8],
    numbers: &[i64],
) -> Result<Option<Vec<(LineId, u32)>>, NoMemory>
    ensures { IfOk result (λ pairs. option_map (λ v. v.items) pairs ≡ spoken (codes "importance") importance_of (record { word = word.now; numbers = numbers.now })) }
{
    if word != b"importance".as_slice() {
        return Ok(None);
    }
    if numbers.is_empty() {
        return Ok(None);
    }
    pairs_in(alloc, numbers)
}

/// Whether a number is this one.
pub(crate) fn is_number(n: u32, number: i64) -> bool
    ensures { result ≡ is_number n number }
{
    number >= 0 && number as u64 == u64::from(n)
}

/// Lines by their numbers.
fn lines_in(alloc: Global, numbers: &[i64]) -> Result<Option<Vec<LineId>>, NoMemory>
    ensures { IfOk result (λ lines. option_map (λ v. v.items) lines ≡ lines_in numbers.now) }
{
    let mut lines = Vec::new(alloc);
    for number in numbers {
        let Some(n) = small(u32::MAX, *number) else {
            return Ok(None);
        };
        lines.push(LineId(n))?;
    }
    Ok(Some(lines))
}

/// An order: at least one line, and each once.
fn order_with(alloc: Global, numbers: &[i64]) -> Result<Option<Vec<LineId>>, NoMemory>
    ensures { IfOk result (λ lines. option_map (λ v. v.items) lines ≡ order_in numbers.now) }
{
    if numbers.is_empty() {
        return Ok(None);
    }
    let Some(lines) = lines_in(alloc, numbers)? else {
        return Ok(None);
    };
    if are_distinct(alloc, lines.as_slice())? {
        Ok(Some(lines))
    } else {
        Ok(None)
    }
}

/// `order S LINE ..` of segment s.
pub(crate) fn order_in(
    alloc: Global,
    s: u32,
    word: &[u8],
    numbers: &[i64],
) -> Result<Option<Vec<LineId>>, NoMemory>
    ensures { IfOk result (λ lines. option_map (λ v. v.items) lines ≡ spoken (codes "order") (order_of s) (record { word = word.now; numbers = numbers.now })) }
{
    if word != b"order".as_slice() {
        return Ok(None);
    }
    match numbers {
        [n, lines @ ..] => {
            if is_number(s, *n) {
                order_with(alloc, lines)
            } else {
                Ok(None)
            }
        }
        _ => Ok(None),
    }
}

/// `cost C`.
pub(crate) fn cost_in(word: &[u8], numbers: &[i64]) -> Option<u64>
    ensures { result ≡ spoken (codes "cost") cost_of (record { word = word.now; numbers = numbers.now }) }
{
    if word != b"cost".as_slice() {
        return None;
    }
    match numbers {
        [cost] => natural_within(1_000_000_000_000_000, *cost),
        _ => None,
    }
}
