//! The pair of lines that is settled next.

ghost use Rattle.std.specs.Prelude.{◌≡◌, ◌^◌, ◌<◌, ◌≤◌, List, [], ◌∷◌, ◌++◌, Option, length, All, sum_by};
ghost use Rattle.map_base.specs.declared.ids.LineId.{LineId};
ghost use Rattle.graph_core.specs.Consistent.{AreRising};
ghost use Rattle.order_model.specs.declared.problem.ProblemParts.{ProblemParts};
ghost use Rattle.order_model.specs.Problems.{lines_on};
ghost use Rattle.dual_bound.specs.Settled.{settled_on};
ghost use Rattle.dual_ascent.specs.Averages.{ArePairs};
ghost use Rattle.dual_ascent.specs.OpenPairs.{OpenPair, is_settled, link_weight, doubt, open_pair, next_pair};
ghost use Rattle.dual_rounds.specs.Ranges.{IsAverage, averages_of};
ghost use Rattle.dual_orders.specs.Parts.{IsPart};
ghost use Rattle.dual_orders.specs.SettledPairs.{pairs_of, IsPairOn};
ghost use Rattle.dual_orders.specs.Solvers.{HasRoomFor};
ghost use Rattle.dual_orders.specs.Values.{IsOfTwo};
ghost use Rattle.dual_orders.specs.NextPairs.{IsForkAt, IsNextPair, IsBest, TellsPairs, is_more, most_undecided, open_of};

use crate::closing::{all_ahead, has_place};
use crate::part::Part;
use crate::settled::put_ahead;
use crate::solver::Solver;
use dual_ascent::PairAverage;
use dual_bound::SettledPair;
use dual_rounds::ALWAYS;
use dual_shares::place_of;
use map_base::{LineId, SegId};
use order_model::Term;

/// A pair that is not settled, with how undecided it is; the line that is to stand first in the first tree of the fork is
/// its first.
#[derive(Clone, Copy)]
pub(crate) struct Undecided {
    pub(crate) doubt: u64,
    pub(crate) pair: SettledPair,
}

/// The pair that is settled next: the first of the most undecided. None where all are settled.
pub fn next_pair(
    part: &Part,
    solver: &mut Solver,
    settled: &[SettledPair],
    averages: &[Vec<PairAverage>],
) -> Option<SettledPair>
    requires part { IsPart part.now }
    requires room { HasRoomFor part.now.problem.now solver.old }
    requires settled { All (IsPairOn part.now.problem.now.segs) settled.now }
    requires each { length averages.now ≡ length part.now.problem.now.segs }
    requires pairs { ArePairs part.now.problem.now (averages_of averages.now) }
    requires within { All (All IsAverage) (averages_of averages.now) }
    ensures pair { IsNextPair (next_pair part.now.problem.now (pairs_of settled.now) (averages_of averages.now)) result }
    ensures room { HasRoomFor part.now.problem.now solver.new }
{
    let mut best: Option<Undecided> = None;
    for s in 0..part.len() {
        put_ahead(part, s, settled, solver);
        let direct = solver.ahead.as_slice();
        let chain = count_on(settled, SegId(s as u32));
        best = best_on(part, s, direct, chain, averages[s].as_slice(), best);
    }
    pair_of(best)
}

/// The pair, if there is one.
fn pair_of(best: Option<Undecided>) -> Option<SettledPair>
    ensures { (c : Option OpenPair) (p : ProblemParts) → IsBest p c best → IsNextPair c result }
{
    match best {
        Some(open) => Some(open.pair),
        None => None,
    }
}

/// How many pairs are settled on a segment.
fn count_on(settled: &[SettledPair], s: SegId) -> usize
    ensures { result ≡ length (settled_on (pairs_of settled.now) s) }
{
    let mut count = 0;
    for pair in settled {
        if pair.seg == s {
            count += 1;
        }
    }
    count
}

/// The better of the best so far and of the pairs of one segment, of equals the first. The sets tell what is settled there, by
/// so many pairs.
fn best_on(
    part: &Part,
    s: usize,
    direct: &[u32],
    chain: usize,
    averages: &[PairAverage],
    best: Option<Undecided>,
) -> Option<Undecided>
    requires part { IsPart part.now }
    requires known { s < length part.now.problem.now.segs }
    requires room { length direct.now ≡ 16 }
    requires pairs { All (IsOfTwo (lines_on part.now.problem.now.segs (record { 0 = s }))) averages.now }
    requires within { All IsAverage averages.now }
    ensures { (pairs : List (LineId × LineId)) (before : List OpenPair) → TellsPairs pairs (lines_on part.now.problem.now.segs (record { 0 = s })) direct.now
        → chain ≡ length pairs → IsBest part.now.problem.now (most_undecided part.now.problem.now before) best
        → IsBest part.now.problem.now (most_undecided part.now.problem.now (before ++ open_of pairs (record { 0 = s }) averages.now)) result }
{
    let mut best = best;
    for average in averages {
        best = with_average(part, s, direct, chain, *average, best);
    }
    best
}

/// The better of the best so far and of one pair, where that is not settled, of equals the first.
fn with_average(
    part: &Part,
    s: usize,
    direct: &[u32],
    chain: usize,
    average: PairAverage,
    best: Option<Undecided>,
) -> Option<Undecided>
    requires part { IsPart part.now }
    requires known { s < length part.now.problem.now.segs }
    requires room { length direct.now ≡ 16 }
    requires two { IsOfTwo (lines_on part.now.problem.now.segs (record { 0 = s })) average }
    requires within { IsAverage average }
    ensures { (pairs : List (LineId × LineId)) (before : List OpenPair) → TellsPairs pairs (lines_on part.now.problem.now.segs (record { 0 = s })) direct.now
        → chain ≡ length pairs → IsBest part.now.problem.now (most_undecided part.now.problem.now before) best
        → IsBest part.now.problem.now (most_undecided part.now.problem.now (before ++ open_of pairs (record { 0 = s }) (average ∷ []))) result }
{
    if is_settled(part.lines(s), direct, chain, average) {
        return best;
    }
    let doubt = doubt_of(part, s, average);
    if is_more(doubt, best) {
        Some(Undecided {
            doubt,
            pair: fork_at(s, average),
        })
    } else {
        best
    }
}

/// Whether it is more than that of the best so far.
fn is_more(doubt: u64, best: Option<Undecided>) -> bool
    ensures { result ≡ is_more doubt best }
{
    match best {
        Some(other) => other.doubt < doubt,
        None => true,
    }
}

/// Whether a chain of settled pairs leads from one of the two lines to the other.
fn is_settled(lines: &[LineId], direct: &[u32], chain: usize, average: PairAverage) -> bool
    requires rising { AreRising lines.now }
    requires few { length lines.now ≤ 16 }
    requires room { length direct.now ≡ 16 }
    requires two { IsOfTwo lines.now average }
    ensures { (pairs : List (LineId × LineId)) → TellsPairs pairs lines.now direct.now → chain ≡ length pairs
        → result ≡ is_settled pairs average.lesser average.greater }
{
    let i = place_of(lines, average.lesser);
    let j = place_of(lines, average.greater);
    if has_place(all_ahead(direct, lines.len(), j, chain), i) {
        return true;
    }
    has_place(all_ahead(direct, lines.len(), i, chain), j)
}

/// How undecided a pair is, the more so the more its Links weigh.
fn doubt_of(part: &Part, s: usize, average: PairAverage) -> u64
    requires part { IsPart part.now }
    requires known { s < length part.now.problem.now.segs }
    requires within { IsAverage average }
    ensures { result ≡ doubt part.now.problem.now (open_pair (record { 0 = s }) average) }
{
    let least = average.swapped.min(ALWAYS - average.swapped);
    if least == 0 {
        return 0;
    }
    u64::from(least) * (1 + link_weight(part, s, average))
}

/// What the Links of two lines on a segment weigh.
fn link_weight(part: &Part, s: usize, average: PairAverage) -> u64
    requires part { IsPart part.now }
    requires known { s < length part.now.problem.now.segs }
    ensures value { result ≡ sum_by (link_weight (record { 0 = s }) average.lesser average.greater) part.now.problem.now.terms }
    ensures most { result ≤ 1024000000000 }
{
    let segment = SegId(s as u32);
    let terms = part.problem.terms();
    let mut total: u64 = 0;
    for k in part.on[s].as_slice() {
        total += u64::from(weight_there(segment, average, terms[*k as usize]));
    }
    total
}

/// The weight of a Link of two lines on a segment, 0 for all other terms.
fn weight_there(s: SegId, average: PairAverage, term: Term) -> u32
    ensures { result ≡ link_weight s average.lesser average.greater term }
{
    let Term::Link {
        seg,
        other,
        a,
        b,
        w,
        ..
    } = term
    else {
        return 0;
    };
    if seg != s && other != s {
        return 0;
    }
    if a == average.lesser && b == average.greater {
        w
    } else {
        0
    }
}

/// The line that stood first more often than not goes ahead, of equals the lesser.
fn fork_at(s: usize, average: PairAverage) -> SettledPair
    requires known { s < 2 ^ 32 }
    requires within { IsAverage average }
    ensures { IsForkAt (open_pair (record { 0 = s }) average) result }
{
    let seg = SegId(s as u32);
    if 2 * average.swapped > ALWAYS {
        SettledPair {
            seg,
            first: average.greater,
            second: average.lesser,
        }
    } else {
        SettledPair {
            seg,
            first: average.lesser,
            second: average.greater,
        }
    }
}
