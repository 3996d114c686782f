//! How lines stood in the orders of the rounds, on the average.

ghost use Rattle.std.specs.Prelude.{◌≡◌, ◌<◌, ◌≤◌, [], ◌++◌, length, map, All, IfOk, OnOk, slice_index_or, slice_set};
ghost use Rattle.dual_ascent.specs.Averages.{never, never_all, averaged, with_order, averages_after};
ghost use Rattle.dual_rounds.specs.Ranges.{IsAverage, averages_of};

use crate::line_order::LineOrder;
use dual_ascent::PairAverage;
use map_base::{LineId, NoMemory, Sequence};
use order_model::{Problem, are_neighbours, comes_before};
use std::alloc::Global;

/// An average is told in 65536ths.
pub const ALWAYS: u32 = 65536;

/// Each two lines of each segment, before the first round.
pub fn no_averages(
    alloc: Global,
    lists: &[Sequence<LineId>],
) -> Result<Vec<Vec<PairAverage>>, NoMemory>
    ensures value { IfOk result (λ v. averages_of v.items ≡ map never_all lists.now) }
    ensures within { IfOk result (λ v. All (All IsAverage) (averages_of v.items)) }
{
    let mut averages = Vec::with_capacity(alloc, lists.len())?;
    for lines in lists {
        averages.push(never_all(alloc, lines.as_slice())?)?;
    }
    Ok(averages)
}

/// Each two of these lines, those of an earlier line first.
fn never_all(alloc: Global, lines: &[LineId]) -> Result<Vec<PairAverage>, NoMemory>
    ensures { IfOk result (λ v. v.items ≡ never_all lines.now) }
{
    let mut pairs = Vec::new(alloc);
    for i in 0..lines.len() {
        push_never(lines[i], &lines[i + 1..], &mut pairs)?;
    }
    Ok(pairs)
}

/// The pairs of a line with each of those behind it.
fn push_never(line: LineId, behind: &[LineId], pairs: &mut Vec<PairAverage>) -> Result<(), NoMemory>
    ensures { OnOk result (pairs.new.items ≡ pairs.old.items ++ map (never line) behind.now) }
{
    for other in behind {
        pairs.push(PairAverage {
            lesser: line,
            greater: *other,
            swapped: 0,
            beside: 0,
        })?;
    }
    Ok(())
}

/// An average with one round more, in which it was so or was not: the round counts as one of so many.
fn averaged(count: u32, so: bool, average: u32) -> u32
    requires some { 0 < count }
    requires within { average ≤ 65536 }
    ensures value { result ≡ averaged count so average }
    ensures within { result ≤ 65536 }
{
    if so {
        average + (ALWAYS - average) / count
    } else {
        average - average / count
    }
}

/// The average of two lines with one order more.
fn with_order(round: u32, order: &[LineId], average: PairAverage) -> PairAverage
    requires some { 0 < round }
    requires within { IsAverage average }
    ensures value { result ≡ with_order round order.now average }
    ensures within { IsAverage result }
{
    let count = round.min(32);
    let swapped = comes_before(order, average.greater, average.lesser);
    let beside = are_neighbours(order, average.lesser, average.greater);
    PairAverage {
        lesser: average.lesser,
        greater: average.greater,
        swapped: averaged(count, swapped, average.swapped),
        beside: averaged(count, beside, average.beside),
    }
}

/// The averages of all segments with the orders of one round more.
pub fn average_in(
    problem: &Problem,
    round: u32,
    orders: &[LineOrder],
    averages: &mut [Vec<PairAverage>],
)
    requires some { 0 < round }
    requires orders { length orders.now ≡ length problem.now.segs }
    requires each { length averages.old ≡ length problem.now.segs }
    requires within { All (All IsAverage) (averages_of averages.old) }
    ensures value { averages_of averages.new ≡ averages_after problem.now round orders.now (averages_of averages.old) }
    ensures within { All (All IsAverage) (averages_of averages.new) }
{
    for s in 0..problem.segs().len() {
        average_at(round, orders[s].as_slice(), s, averages);
    }
}

/// The averages of one segment with an order more.
fn average_at(round: u32, order: &[LineId], s: usize, averages: &mut [Vec<PairAverage>])
    requires some { 0 < round }
    requires known { s < length averages.old }
    requires within { All (All IsAverage) (averages_of averages.old) }
    ensures value { averages_of averages.new ≡ slice_set (averages_of averages.old) s (map (with_order round order.now) (slice_index_or (averages_of averages.old) s [])) }
    ensures within { All (All IsAverage) (averages_of averages.new) }
{
    average_on(round, order, averages[s].as_mut_slice());
}

/// These averages with an order more.
fn average_on(round: u32, order: &[LineId], averages: &mut [PairAverage])
    requires some { 0 < round }
    requires within { All IsAverage averages.old }
    ensures value { averages.new ≡ map (with_order round order.now) averages.old }
    ensures within { All IsAverage averages.new }
{
    for k in 0..averages.len() {
        let average = with_order(round, order, averages[k]);
        averages[k] = average;
    }
}
