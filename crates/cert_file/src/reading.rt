//! Reading a certificate, line by line.

ghost use Rattle.std.specs.Prelude.{codes};
ghost use Rattle.decimal_text.specs.Lines.{numbered, front};
ghost use Rattle.decimal_text.specs.Readers.{IsRead};
ghost use Rattle.cert_file.specs.Forms.{spoken_front, version_of, counts_of, importance_of, order_of, cost_of, walk_in};

use crate::counts::Counts;
use crate::forms::{cost_in, counts_in, importance_in, order_in, version_in};
use crate::walk_line::walk_in;
use decimal_text::{Stop, first_line, front_line};
use map_base::{LineId, Sequence};
use octi_grid::Walk;
use std::alloc::Global;

/// The word of the line at the front, and what stands behind the line. Its numbers replace those in `numbers`.
fn read_line<'a>(text: &'a [u8], numbers: &mut Vec<i64>) -> Result<(&'a [u8], &'a [u8]), Stop>
    ensures { IsRead (λ x. (record { word = x.0.now; numbers = numbers.new.items }, x.1.now)) result text.now (front numbered text.now) }
{
    match front_line(text, numbers)? {
        Some(found) => Ok(found),
        None => Err(Stop::Wrong(text.len())),
    }
}

/// The line of the version.
#[tactic(auto, unfolding(crate::specs::Forms::spoken_front))]
pub(crate) fn read_version<'a>(
    text: &'a [u8],
    numbers: &mut Vec<i64>,
) -> Result<(u64, &'a [u8]), Stop>
    ensures { IsRead (λ x. (x.0, x.1.now)) result text.now (spoken_front (codes "octimap") version_of text.now) }
{
    let (word, rest) = read_line(text, numbers)?;
    match version_in(word, numbers.as_slice()) {
        Some(version) => Ok((version, rest)),
        None => Err(Stop::Wrong(text.len())),
    }
}

/// The line of the counts.
#[tactic(auto, unfolding(crate::specs::Forms::spoken_front))]
pub(crate) fn read_counts<'a>(
    text: &'a [u8],
    numbers: &mut Vec<i64>,
) -> Result<(Counts, &'a [u8]), Stop>
    ensures { IsRead (λ x. (x.0, x.1.now)) result text.now (spoken_front (codes "graph") counts_of text.now) }
{
    let (word, rest) = read_line(text, numbers)?;
    match counts_in(word, numbers.as_slice()) {
        Some(counts) => Ok((counts, rest)),
        None => Err(Stop::Wrong(text.len())),
    }
}

/// The line of importance.
#[tactic(auto, unfolding(crate::specs::Forms::spoken_front))]
pub(crate) fn read_importance<'a>(
    alloc: Global,
    text: &'a [u8],
    numbers: &mut Vec<i64>,
) -> Result<(Vec<(LineId, u32)>, &'a [u8]), Stop>
    ensures { IsRead (λ x. (x.0.items, x.1.now)) result text.now (spoken_front (codes "importance") importance_of text.now) }
{
    let (word, rest) = read_line(text, numbers)?;
    match importance_in(alloc, word, numbers.as_slice())? {
        Some(pairs) => Ok((pairs, rest)),
        None => Err(Stop::Wrong(text.len())),
    }
}

/// The line of the walk of segment s.
#[tactic(auto, unfolding(decimal_text::specs::Lines::front))]
pub(crate) fn read_walk<'a>(alloc: Global, s: u32, text: &'a [u8]) -> Result<(Walk, &'a [u8]), Stop>
    ensures { IsRead (λ x. (x.0, x.1.now)) result text.now (front (walk_in s) text.now) }
{
    let Some((line, rest)) = first_line(text) else {
        return Err(Stop::Wrong(text.len()));
    };
    match walk_in(alloc, s, line)? {
        Some(walk) => Ok((walk, rest)),
        None => Err(Stop::Wrong(text.len())),
    }
}

/// The line of the order of segment s.
#[tactic(auto, unfolding(crate::specs::Forms::spoken_front))]
pub(crate) fn read_order<'a>(
    alloc: Global,
    s: u32,
    text: &'a [u8],
    numbers: &mut Vec<i64>,
) -> Result<(Vec<LineId>, &'a [u8]), Stop>
    ensures { IsRead (λ x. (x.0.items, x.1.now)) result text.now (spoken_front (codes "order") (order_of s) text.now) }
{
    let (word, rest) = read_line(text, numbers)?;
    match order_in(alloc, s, word, numbers.as_slice())? {
        Some(order) => Ok((order, rest)),
        None => Err(Stop::Wrong(text.len())),
    }
}

/// The line of the cost.
#[tactic(auto, unfolding(crate::specs::Forms::spoken_front))]
pub(crate) fn read_cost<'a>(text: &'a [u8], numbers: &mut Vec<i64>) -> Result<(u64, &'a [u8]), Stop>
    ensures { IsRead (λ x. (x.0, x.1.now)) result text.now (spoken_front (codes "cost") cost_of text.now) }
{
    let (word, rest) = read_line(text, numbers)?;
    match cost_in(word, numbers.as_slice()) {
        Some(cost) => Ok((cost, rest)),
        None => Err(Stop::Wrong(text.len())),
    }
}
