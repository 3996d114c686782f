//! The items of a check, one by one.

ghost use Rattle.std.specs.Prelude.{◌≡◌, length};
ghost use Rattle.std.specs.List.{list_all};
ghost use Rattle.graph_core.specs.Consistent.{AreRising, IsConsistent};
ghost use Rattle.order_model.specs.Places.{has_line};
ghost use Rattle.graph_maps.specs.Checking.{are_same_pairs, first_difference, first_disorder, is_order};

use graph_core::LineGraph;
use map_base::{LineId, SegId, Sequence};

/// Whether these are the same lines with the same numbers.
pub(crate) fn are_same_pairs(some: &[(LineId, u32)], others: &[(LineId, u32)]) -> bool
    ensures { result ≡ are_same_pairs some.now others.now }
{
    if some.len() != others.len() {
        return false;
    }
    for i in 0..some.len() {
        if some[i].0.0 != others[i].0.0 || some[i].1 != others[i].1 {
            return false;
        }
    }
    true
}

/// The first segment whose order has not its lines.
pub(crate) fn first_disorder(graph: &LineGraph, orders: &[Sequence<LineId>]) -> Option<SegId>
    requires fits { IsConsistent graph.now }
    requires each { length orders.now ≡ length graph.now.ends }
    ensures { result ≡ first_disorder 0 graph.now.lines orders.now }
{
    for s in 0..graph.segs() {
        if !is_order(graph.lines(SegId(s)), orders[s as usize].as_slice()) {
            return Some(SegId(s));
        }
    }
    None
}

/// Whether an order has as many lines as its segment, and each of them is one of the segment's, which rise.
fn is_order(lines: &[LineId], order: &[LineId]) -> bool
    requires { AreRising lines.now }
    ensures { result ≡ is_order lines.now order.now }
{
    if order.len() != lines.len() {
        return false;
    }
    are_all_among(lines, order)
}

/// Whether each of some lines is one of rising lines.
#[tactic(auto, using(std::proofs::lemmas::List::at_drop_more))]
fn are_all_among(lines: &[LineId], some: &[LineId]) -> bool
    requires { AreRising lines.now }
    ensures { result ≡ list_all (has_line lines.now) some.now }
{
    for line in some {
        if !has_line(lines, *line) {
            return false;
        }
    }
    true
}

/// Whether a line is one of rising lines.
fn has_line(lines: &[LineId], line: LineId) -> bool
    requires { AreRising lines.now }
    ensures { result ≡ has_line lines.now line }
{
    let mut low = 0;
    let mut high = lines.len();
    while low < high {
        let middle = low + (high - low) / 2;
        if lines[middle].0 == line.0 {
            return true;
        }
        if lines[middle].0 < line.0 {
            low = middle + 1;
        } else {
            high = middle;
        }
    }
    false
}

/// The place of the first byte that differs, or the lesser length where one text is the beginning of the other.
pub fn first_difference(picture: &[u8], svg: &[u8]) -> Option<usize>
    ensures { result ≡ first_difference picture.now svg.now }
{
    let most = picture.len().min(svg.len());
    for i in 0..most {
        if picture[i] != svg[i] {
            return Some(i);
        }
    }
    if picture.len() == svg.len() {
        return None;
    }
    Some(most)
}
