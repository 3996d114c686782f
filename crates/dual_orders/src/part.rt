//! A part by itself, with the terms on each of its segments.

ghost use Rattle.std.specs.Prelude.{◌≡◌, ◌*◌, ◌^◌, ◌<◌, ◌≤◌, true, length, sum_by, IfOk};
ghost use Rattle.order_model.specs.Problems.{IsProblem, lines_on};
ghost use Rattle.dual_bound.specs.Accepting.{is_narrow, load_of, steps_on};
ghost use Rattle.dual_ascent.specs.OwnNumbers.{all_segments};
ghost use Rattle.dual_ascent.specs.DualResults.{is_in_reach};
ghost use Rattle.dual_orders.specs.OwnTerms.{all_numbers};
ghost use Rattle.dual_orders.specs.Parts.{IsPart};

use dual_shares::terms_by_segment;
use map_base::{LineId, NoMemory, SegId};
use order_model::Problem;
use std::alloc::Global;

/// How many lines a segment may have whose orders are gone through.
const MOST_LINES: usize = 16;

/// How many steps the least orders of all segments may take.
const MOST_STEPS: u64 = 100_000_000_000;

/// A part by itself: all segments and terms of a problem.
#[derive(Drop)]
pub struct Part<'a> {
    /// The part, as a problem.
    pub problem: &'a Problem,
    /// For each segment the numbers of the terms on it, rising.
    pub on: Vec<Vec<u32>>,
    /// A millionth of the steps that the least orders of all segments take, rounded up.
    pub load: u32,
}

impl<'a> Part<'a> {
    /// The part that is this problem.
    pub fn of(alloc: Global, problem: &'a Problem) -> Result<Part<'a>, NoMemory>
        requires some { 0 < length problem.now.segs }
        requires reach { is_in_reach problem.now ≡ true }
        ensures part { IfOk result IsPart }
        ensures same { IfOk result (λ part. part.problem.now ≡ problem.now) }
    {
        let segments = all_segments(alloc, problem)?;
        let numbers = all_numbers(alloc, problem)?;
        let on = terms_by_segment(alloc, problem, segments.as_slice(), numbers.as_slice())?;
        let load = load_of(problem);
        Ok(Part { problem, on, load })
    }

    /// How many segments it has.
    pub fn len(&self) -> usize
        ensures { result ≡ length self.now.problem.now.segs }
    {
        self.problem.segs().len()
    }

    /// The lines of a segment, rising.
    pub fn lines(&self, s: usize) -> &[LineId]
        requires { s < length self.now.problem.now.segs }
        ensures { result.now ≡ lines_on self.now.problem.now.segs (record { 0 = s }) }
    {
        self.problem.segs()[s].as_slice()
    }
}

/// Whether a part by itself can be searched: no segment has more than 16 lines, and its load is at most 100,000, a millionth
/// of the steps that the least orders of all segments take.
pub fn is_in_reach(problem: &Problem) -> bool
    ensures { result ≡ is_in_reach problem.now }
{
    if !is_narrow(problem) {
        return false;
    }
    steps_of_all(problem) <= MOST_STEPS
}

/// Whether no segment has too many lines.
fn is_narrow(problem: &Problem) -> bool
    ensures { result ≡ is_narrow problem.now.segs (all_segments problem.now) }
{
    for lines in problem.segs() {
        if lines.as_slice().len() > MOST_LINES {
            return false;
        }
    }
    true
}

/// The steps that the least orders of all segments take.
fn steps_of_all(problem: &Problem) -> u64
    requires { is_narrow problem.now.segs (all_segments problem.now) ≡ true }
    ensures { result ≡ sum_by (steps_on problem.now.segs) (all_segments problem.now) }
{
    let mut total: u64 = 0;
    for lines in problem.segs() {
        total += steps_of(lines.as_slice().len());
    }
    total
}

/// The steps that the least order of so many lines takes.
fn steps_of(lines: usize) -> u64
    requires { lines ≤ 16 }
    ensures value { result ≡ lines * lines * 2 ^ lines }
    ensures most { result ≤ 16777216 }
{
    (lines * lines) as u64 * (1 << lines)
}

/// A millionth of the steps that the least orders of all segments take, rounded up.
fn load_of(problem: &Problem) -> u32
    requires { is_in_reach problem.now ≡ true }
    ensures { result ≡ load_of problem.now.segs (all_segments problem.now) }
{
    steps_of_all(problem).div_ceil(1_000_000) as u32
}

/// The segments, by number.
fn all_segments(alloc: Global, problem: &Problem) -> Result<Vec<SegId>, NoMemory>
    ensures items { IfOk result (λ v. v.items ≡ all_segments problem.now) }
    ensures fits { IsProblem problem.now }
{
    let count = problem.segs().len();
    let mut segments = Vec::with_capacity(alloc, count)?;
    for s in 0..count {
        segments.push(SegId(s as u32))?;
    }
    Ok(segments)
}

/// The numbers of the terms.
fn all_numbers(alloc: Global, problem: &Problem) -> Result<Vec<u32>, NoMemory>
    ensures { IfOk result (λ v. v.items ≡ all_numbers problem.now) }
{
    let count = problem.terms().len();
    let mut numbers = Vec::with_capacity(alloc, count)?;
    for k in 0..count {
        numbers.push(k as u32)?;
    }
    Ok(numbers)
}
