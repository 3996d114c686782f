//! What the decided terms of a part cost.

ghost use Rattle.std.specs.Prelude.{◌≡◌, ◌<◌, ◌≤◌, ◌≢◌, length, if◌then◌else◌, slice_index_or};
ghost use Rattle.map_base.specs.declared.ids.SegId.{SegId};
ghost use Rattle.order_model.specs.Problems.{IsProblem, IsTerm};
ghost use Rattle.order_model.specs.Costs.{term_cost, seg_of, other_of};
ghost use Rattle.order_model.specs.PartTerms.{part_terms, is_of, no_term};
ghost use Rattle.order_model.specs.Prefixes.{IsPrefixOf};
ghost use Rattle.order_bound.specs.Decided.{apart_cost, decided_cost, decided_sum};

use crate::terms::{is_of, term_at, term_count};
use map_base::SegId;
use order_model::{Prefix, Problem, Term, is_met_on, weight_of};

/// What those terms of a part cost that a prefix decides.
pub(crate) fn decided_sum(problem: &Problem, part: &[SegId], prefix: &Prefix) -> u64
    requires fits { IsPrefixOf problem.now.segs prefix.now }
    ensures sum { result ≡ decided_sum problem.now.segs prefix.now.placed (part_terms problem.now.terms part.now) }
    ensures most { result ≤ 1024000000000 }
    ensures problem { IsProblem problem.now }
{
    let mut sum: u64 = 0;
    for number in 0..term_count(problem) {
        sum += u64::from(cost_in(problem, part, prefix, number));
    }
    sum
}

/// What the term of a number costs, if it is of the part and decided.
fn cost_in(problem: &Problem, part: &[SegId], prefix: &Prefix, number: usize) -> u32
    requires fits { IsPrefixOf problem.now.segs prefix.now }
    requires known { number < length problem.now.terms }
    ensures cost { result ≡ (if is_of part.now (slice_index_or problem.now.terms number no_term)
        then decided_cost problem.now.segs prefix.now.placed (slice_index_or problem.now.terms number no_term) else 0) }
    ensures most { result ≤ 256000 }
{
    let term = term_at(problem, number);
    if is_of(part, term) {
        decided_cost(problem, prefix, term)
    } else {
        0
    }
}

/// What a term costs that the prefix decides, else 0.
fn decided_cost(problem: &Problem, prefix: &Prefix, term: Term) -> u32
    requires fits { IsPrefixOf problem.now.segs prefix.now }
    requires term { IsTerm problem.now.segs term }
    ensures cost { result ≡ decided_cost problem.now.segs prefix.now.placed term }
    ensures most { result ≤ 256000 }
{
    match term {
        Term::Side {
            seg,
            first,
            second,
            ..
        } => {
            if prefix.is_decided(problem, seg, first, second) {
                placed_cost(prefix, seg, seg, term)
            } else {
                0
            }
        }
        Term::Link {
            seg,
            other,
            a,
            b,
            ..
        } => {
            if !prefix.is_decided(problem, seg, a, b) {
                return 0;
            }
            if prefix.is_decided(problem, other, a, b) {
                placed_cost(prefix, seg, other, term)
            } else {
                0
            }
        }
        Term::Apart {
            seg,
            other,
            a,
            b,
            w,
        } => {
            let here = prefix.neighbours(problem, seg, a, b);
            let there = prefix.neighbours(problem, other, a, b);
            apart_cost(w, here, there)
        }
    }
}

/// What a term costs under the placed lines of its segments.
fn placed_cost(prefix: &Prefix, seg: SegId, other: SegId, term: Term) -> u32
    requires seg { seg ≡ seg_of term }
    requires other { other ≡ other_of term }
    requires seg_known { seg.0 < length prefix.now.placed }
    requires other_known { other.0 < length prefix.now.placed }
    ensures { result ≡ term_cost prefix.now.placed term }
{
    if is_met_on(prefix.placed(seg), prefix.placed(other), term) {
        weight_of(term)
    } else {
        0
    }
}

/// What an Apart costs where it is settled on both segments whether its lines are neighbours.
fn apart_cost(w: u32, here: Option<bool>, there: Option<bool>) -> u32
    ensures { result ≡ apart_cost w here there }
{
    match (here, there) {
        (Some(beside), Some(beside_too)) => { if beside == beside_too { 0 } else { w } }
        _ => 0,
    }
}
