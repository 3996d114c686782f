//! The Aparts of a part, by the segments on which they have ends.

ghost use Rattle.std.specs.Prelude.{◌≡◌, ◌≢◌, Some, ◌<◌, ◌≤◌, ◌*◌, ◌+◌, ◌-◌, ◌∷◌, [], ◌++◌, length, sum_by, All, IfOk, OnOk, slice_index_or, slice_set};
ghost use Rattle.order_model.specs.Problems.{IsTerm, IsProblem};
ghost use Rattle.order_model.specs.PartTerms.{terms_by_number};
ghost use Rattle.order_model.specs.Prefixes.{IsPrefixOf};
ghost use Rattle.order_bound.specs.Decided.{apart_cost};
ghost use Rattle.pair_bounds.specs.Counted.{settled_cost, settled_sum};
ghost use Rattle.part_bounds.specs.Settled.{lists_in, HasEnds, AreByEnds, AreMore};

use map_base::{LineId, NoMemory, SegId};
use order_model::{Prefix, Problem, Term};
use std::alloc::Global;

/// The Aparts of a part, and what those cost that are settled.
#[derive(Drop)]
pub struct Aparts {
    /// For each segment of the problem the Aparts that have an end there.
    pub(crate) lists: Vec<Vec<Term>>,
    /// What the settled ones cost.
    pub(crate) total: u64,
}

/// For each segment of a problem the Aparts among these terms that have an end there.
pub(crate) fn aparts_by_end(
    alloc: Global,
    problem: &Problem,
    numbers: &[u32],
) -> Result<Vec<Vec<Term>>, NoMemory>
    requires { All (λ n. n < length problem.now.terms) numbers.now }
    ensures by_ends { IfOk result (λ lists. AreByEnds (length problem.now.segs) (terms_by_number problem.now.terms numbers.now) (lists_in lists.items)) }
    ensures fits { IsProblem problem.now }
{
    let terms = problem.terms();
    let mut lists = empty_lists(alloc, problem.segs().len())?;
    for n in numbers {
        add_apart(&mut lists, terms[*n as usize])?;
    }
    Ok(lists)
}

/// So many lists without a term.
fn empty_lists(alloc: Global, count: usize) -> Result<Vec<Vec<Term>>, NoMemory>
    ensures { IfOk result (λ lists. AreByEnds count [] (lists_in lists.items)) }
{
    let mut lists = Vec::with_capacity(alloc, count)?;
    for _ in 0..count {
        lists.push(Vec::new(alloc))?;
    }
    Ok(lists)
}

/// Adds a term to the lists of the segments on which it has an end, if it is an Apart.
fn add_apart(lists: &mut Vec<Vec<Term>>, term: Term) -> Result<(), NoMemory>
    requires { HasEnds (length lists.old.items) term }
    ensures { OnOk result (AreMore term (lists_in lists.old.items) (lists_in lists.new.items)) }
{
    match term {
        Term::Side { .. } | Term::Link { .. } => Ok(()),
        Term::Apart { seg, other, .. } => {
            push_at(lists, seg, term)?;
            push_at(lists, other, term)
        }
    }
}

/// Adds a term to the list of a segment.
fn push_at(lists: &mut Vec<Vec<Term>>, seg: SegId, term: Term) -> Result<(), NoMemory>
    requires { seg.0 < length lists.old.items }
    ensures { OnOk result (lists_in lists.new.items ≡ slice_set (lists_in lists.old.items) seg.0 (slice_index_or (lists_in lists.old.items) seg.0 [] ++ term ∷ [])) }
{
    let list = &mut lists[seg.0 as usize];
    list.push(term)?;
    Ok(())
}

/// What the settled Aparts among these terms of a problem cost.
pub(crate) fn settled_total(problem: &Problem, prefix: &Prefix, numbers: &[u32]) -> u64
    requires fits { IsPrefixOf problem.now.segs prefix.now }
    requires known { All (λ n. n < length problem.now.terms) numbers.now }
    requires few { length numbers.now ≤ 4000000 }
    ensures { result ≡ settled_sum problem.now.segs prefix.now.placed (terms_by_number problem.now.terms numbers.now) }
{
    let terms = problem.terms();
    let mut total: u64 = 0;
    for n in numbers {
        total += u64::from(settled_cost(problem, prefix, terms[*n as usize]));
    }
    total
}

/// What the settled Aparts with an end on a segment cost.
pub(crate) fn settled_on(problem: &Problem, prefix: &Prefix, aparts: &Aparts, seg: SegId) -> u64
    requires fits { IsPrefixOf problem.now.segs prefix.now }
    requires here { seg.0 < length aparts.now.lists.items }
    requires known { All (IsTerm problem.now.segs) (slice_index_or (lists_in aparts.now.lists.items) seg.0 []) }
    requires few { length (slice_index_or (lists_in aparts.now.lists.items) seg.0 []) ≤ 4000000 }
    ensures value { result ≡ sum_by (settled_cost problem.now.segs prefix.now.placed) (slice_index_or (lists_in aparts.now.lists.items) seg.0 []) }
    ensures most { result ≤ 1024000000000 }
{
    let list = &aparts.lists[seg.0 as usize];
    settled_of(problem, prefix, list.as_slice())
}

/// A sum once a part of it is another.
pub(crate) fn moved(total: u64, before: u64, after: u64) -> u64
    requires low { before ≤ total }
    requires most { total ≤ 1024000000000 }
    requires after_most { after ≤ 1024000000000 }
    ensures { result ≡ (total - before) + after }
{
    total - before + after
}

/// What the settled ones of these Aparts cost.
fn settled_of(problem: &Problem, prefix: &Prefix, aparts: &[Term]) -> u64
    requires fits { IsPrefixOf problem.now.segs prefix.now }
    requires known { All (IsTerm problem.now.segs) aparts.now }
    requires few { length aparts.now ≤ 4000000 }
    ensures value { result ≡ sum_by (settled_cost problem.now.segs prefix.now.placed) aparts.now }
    ensures most { result ≤ 256000 * length aparts.now }
{
    let mut total: u64 = 0;
    for term in aparts {
        total += u64::from(settled_cost(problem, prefix, *term));
    }
    total
}

/// What an Apart costs where it is settled on both segments whether its lines are neighbours, and nothing for other terms.
/// Its greater segment is asked first: a search places lines there later, so it is the one that is mostly not settled.
#[tactic(auto, using(crate::proofs::ApartLists::none_there))]
fn settled_cost(problem: &Problem, prefix: &Prefix, term: Term) -> u32
    requires fits { IsPrefixOf problem.now.segs prefix.now }
    requires known { IsTerm problem.now.segs term }
    ensures value { result ≡ settled_cost problem.now.segs prefix.now.placed term }
    ensures most { result ≤ 256000 }
{
    match term {
        Term::Side { .. } | Term::Link { .. } => 0,
        Term::Apart {
            seg,
            other,
            a,
            b,
            w,
        } => match prefix.neighbours(problem, other, a, b) {
            None => 0,
            Some(there) => {
                let here = prefix.neighbours(problem, seg, a, b);
                apart_cost(w, here, there)
            }
        },
    }
}

/// What an Apart costs whose lines are neighbours on its other segment or aren't, where that is settled on its first too.
fn apart_cost(w: u32, here: Option<bool>, there: bool) -> u32
    ensures value { result ≡ apart_cost w here (Some there) }
    ensures most { result ≤ w }
{
    match here {
        Some(here) => { if here == there { 0 } else { w } }
        _ => 0,
    }
}
