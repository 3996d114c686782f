//! The terms of a part by the pair of their lines.

ghost use Rattle.std.specs.Prelude.{◌≡◌, ℕ, ◌<◌, ◌≤◌, ◌+◌, ◌∷◌, [], ◌++◌, List, length, map, All, IfOk, OnOk, slice_index_or};
ghost use Rattle.std.specs.List.{AllWithin};
ghost use Rattle.map_base.specs.declared.ids.SegId.{SegId};
ghost use Rattle.order_model.specs.declared.term.Term.{Term};
ghost use Rattle.order_model.specs.Problems.{IsProblem};
ghost use Rattle.order_model.specs.PartTerms.{is_in, terms_by_number};
ghost use Rattle.order_bound.specs.Pairs.{pair_of, pair_in};
ghost use Rattle.part_bounds.specs.PairGroups.{Group, KnowsOwn, is_end, meets, own_segments, terms_in, pair_on, groups_of, groups_in, with_pair, with_term_at};

use indexmap::IndexSet;
use map_base::{LineId, NoMemory, SegId};
use order_bound::Pair;
use order_model::{Problem, Term, ends_of};
use std::alloc::Global;

/// A pair of lines with its terms, each behind its number in the problem.
#[derive(Debug, Drop)]
pub(crate) struct PairTerms {
    /// The pair.
    pub(crate) pair: Pair,
    /// Its terms.
    pub(crate) terms: Vec<(u32, Term)>,
    /// The segments of the part on which its terms have ends.
    pub(crate) segs: Vec<SegId>,
}

/// The pairs of lines of these terms of a problem, in the order in which they stand first, each with its terms.
pub(crate) fn pairs_of(
    alloc: Global,
    problem: &Problem,
    numbers: &[u32],
) -> Result<Vec<PairTerms>, NoMemory>
    requires { All (λ n. n < length problem.now.terms) numbers.now }
    ensures grouped { IfOk result (λ pairs. groups_in pairs.items ≡ groups_of (terms_by_number problem.now.terms numbers.now)) }
    ensures fits { IsProblem problem.now }
{
    let terms = problem.terms();
    let mut seen = IndexSet::new(alloc);
    let mut pairs = Vec::new(alloc);
    for n in numbers {
        add_term(alloc, &mut seen, &mut pairs, *n, terms[*n as usize])?;
    }
    Ok(pairs)
}

/// Finds for each pair the segments of a part on which its terms have ends.
pub(crate) fn find_segments(
    alloc: Global,
    part: &[SegId],
    pairs: &mut Vec<PairTerms>,
) -> Result<(), NoMemory>
    ensures same { groups_in pairs.new.items ≡ groups_in pairs.old.items }
    ensures own { OnOk result (All (KnowsOwn part.now) pairs.new.items) }
{
    for place in 0..pairs.len() {
        find_at(alloc, part, pairs, place)?;
    }
    Ok(())
}

/// Finds the segments of the pair at a place.
fn find_at(
    alloc: Global,
    part: &[SegId],
    pairs: &mut Vec<PairTerms>,
    place: usize,
) -> Result<(), NoMemory>
    requires { place < length pairs.old.items }
    ensures same { groups_in pairs.new.items ≡ groups_in pairs.old.items }
    ensures each { length pairs.new.items ≡ length pairs.old.items }
    ensures own { OnOk result (AllWithin (KnowsOwn part.now) pairs.old.items 0 place → AllWithin (KnowsOwn part.now) pairs.new.items 0 (place + 1)) }
{
    let segs = own_segments(alloc, part, pairs[place].terms.as_slice())?;
    let entry = &mut pairs[place];
    entry.segs = segs;
    Ok(())
}

/// The segments of a part on which one of these terms has an end.
fn own_segments(
    alloc: Global,
    part: &[SegId],
    terms: &[(u32, Term)],
) -> Result<Vec<SegId>, NoMemory>
    ensures { IfOk result (λ segs. segs.items ≡ own_segments part.now terms.now) }
{
    let segs = part
        .iter()
        .filter(|seg| meets(terms, **seg))
        .copied()
        .collect(alloc)?;
    Ok(segs)
}

/// Whether a segment is one of these.
pub(crate) fn is_in(segs: &[SegId], seg: SegId) -> bool
    ensures { result ≡ is_in segs.now seg }
{
    segs.iter().any(|own| own.0 == seg.0)
}

/// Whether one of these terms has an end on a segment.
fn meets(terms: &[(u32, Term)], seg: SegId) -> bool
    ensures { result ≡ meets terms.now seg }
{
    terms.iter().any(|entry| is_end(seg, entry.1))
}

/// Whether a term has an end on a segment.
fn is_end(seg: SegId, term: Term) -> bool
    ensures { result ≡ is_end seg term }
{
    let (here, there) = ends_of(term);
    if here.0 == seg.0 {
        return true;
    }
    there.0 == seg.0
}

/// The greater of two numbers.
fn greater(a: usize, b: usize) -> usize
    ensures first { a ≤ result }
    ensures second { b ≤ result }
    ensures one { (m : ℕ) → a ≤ m → b ≤ m → result ≤ m }
{
    a.max(b)
}

/// How many terms the pair with the most terms has.
pub(crate) fn most_terms(pairs: &[PairTerms]) -> usize
    requires { All (λ (g : Group). terms_in g ≤ 4000000) (groups_in pairs.now) }
    ensures each { All (λ (g : Group). terms_in g ≤ result) (groups_in pairs.now) }
    ensures few { result ≤ 4000000 }
{
    let mut most = 0;
    for entry in pairs {
        most = greater(most, entry.terms.len());
    }
    most
}

/// Adds a term to those of its pair, which is noted.
fn add_term(
    alloc: Global,
    seen: &mut IndexSet<Pair>,
    pairs: &mut Vec<PairTerms>,
    number: u32,
    term: Term,
) -> Result<(), NoMemory>
    requires seen { seen.old.keys ≡ map pair_on pairs.old.items }
    ensures seen { OnOk result (seen.new.keys ≡ map pair_on pairs.new.items) }
    ensures added { OnOk result ((done : List (ℕ × Term)) → groups_in pairs.old.items ≡ groups_of done → groups_in pairs.new.items ≡ groups_of (done ++ (number, term) ∷ [])) }
{
    let place = note(alloc, seen, pairs, pair_in(term))?;
    push_at(pairs, place, number, term)?;
    Ok(())
}

/// The place of a pair, which is noted, yet without a term.
fn note(
    alloc: Global,
    seen: &mut IndexSet<Pair>,
    pairs: &mut Vec<PairTerms>,
    pair: Pair,
) -> Result<usize, NoMemory>
    requires seen { seen.old.keys ≡ map pair_on pairs.old.items }
    ensures seen { OnOk result (seen.new.keys ≡ map pair_on pairs.new.items) }
    ensures noted { OnOk result (groups_in pairs.new.items ≡ with_pair pair (groups_in pairs.old.items)) }
    ensures within { IfOk result (λ place. place < length pairs.new.items) }
    ensures here { IfOk result (λ place. slice_index_or (map pair_on pairs.new.items) place pair ≡ pair) }
{
    let (place, is_new) = seen.insert_full(pair)?;
    if is_new {
        pairs.push(PairTerms {
            pair,
            terms: Vec::new(alloc),
            segs: Vec::new(alloc),
        })?;
    }
    Ok(place)
}

/// Adds a term to those of the pair at a place.
fn push_at(
    pairs: &mut Vec<PairTerms>,
    place: usize,
    number: u32,
    term: Term,
) -> Result<(), NoMemory>
    requires { place < length pairs.old.items }
    ensures added { OnOk result (groups_in pairs.new.items ≡ with_term_at place (number, term) (groups_in pairs.old.items)) }
    ensures pairs { OnOk result (map pair_on pairs.new.items ≡ map pair_on pairs.old.items) }
{
    let group = &mut pairs[place];
    group.terms.push((number, term))?;
    Ok(())
}

/// The pair of a term.
fn pair_in(term: Term) -> Pair
    ensures { result ≡ pair_in term }
{
    match term {
        Term::Side { first, second, .. } => pair_of(first, second),
        Term::Link { a, b, .. } | Term::Apart { a, b, .. } => pair_of(a, b),
    }
}

/// The pair of two lines.
fn pair_of(a: LineId, b: LineId) -> Pair
    ensures { result ≡ pair_of a b }
{
    if a.0 < b.0 {
        Pair {
            lesser: a,
            greater: b,
        }
    } else {
        Pair {
            lesser: b,
            greater: a,
        }
    }
}
