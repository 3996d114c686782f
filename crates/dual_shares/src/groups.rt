//! The terms on each segment of a part.

ghost use Rattle.std.specs.Prelude.{◌≡◌, ◌≢◌, ◌<◌, length, map, All, IfOk, IfSome, OnOk, None};
ghost use Rattle.order_model.specs.Parts.{IsRisingPart};
ghost use Rattle.order_model.specs.Places.{tables_of};
ghost use Rattle.order_model.specs.PartTerms.{no_numbers, with_number};
ghost use Rattle.dual_shares.specs.Groups.{numbers_on};
ghost use Rattle.dual_shares.specs.GroupSteps.{with_number_at, with_term, IsPlaceInPart};

use map_base::{NoMemory, SegId};
use order_model::{Problem, Term, ends_of};
use std::alloc::Global;

/// For each segment of a part the numbers of those of these terms that are on it.
pub fn terms_by_segment(
    alloc: Global,
    problem: &Problem,
    part: &[SegId],
    numbers: &[u32],
) -> Result<Vec<Vec<u32>>, NoMemory>
    requires rising { IsRisingPart part.now }
    requires known { All (λ n. n < length problem.now.terms) numbers.now }
    ensures { IfOk result (λ groups. tables_of groups.items ≡ map (numbers_on problem.now.terms numbers.now) part.now) }
{
    let terms = problem.terms();
    let mut groups = empty_groups(alloc, part.len())?;
    for n in numbers {
        add_term(&mut groups, part, terms[*n as usize], *n)?;
    }
    Ok(groups)
}

/// So many lists without a number.
fn empty_groups(alloc: Global, count: usize) -> Result<Vec<Vec<u32>>, NoMemory>
    ensures { IfOk result (λ groups. tables_of groups.items ≡ no_numbers count) }
{
    let mut groups = Vec::with_capacity(alloc, count)?;
    for _ in 0..count {
        groups.push(Vec::new(alloc))?;
    }
    Ok(groups)
}

/// Adds the number of a term to the lists of the segments that it is on.
fn add_term(groups: &mut Vec<Vec<u32>>, part: &[SegId], term: Term, n: u32) -> Result<(), NoMemory>
    requires rising { IsRisingPart part.now }
    requires each { length groups.old.items ≡ length part.now }
    ensures { OnOk result (tables_of groups.new.items ≡ with_term part.now term n (tables_of groups.old.items)) }
{
    let (seg, other) = ends_of(term);
    push_where(groups, place_in_part(part, seg), n)?;
    push_where(groups, other_place(part, seg, other), n)
}

/// Where the other segment of a term stands in a part; nowhere where it has one segment alone.
fn other_place(part: &[SegId], seg: SegId, other: SegId) -> Option<usize>
    requires { IsRisingPart part.now }
    ensures one { other.0 ≡ seg.0 → result ≡ None }
    ensures two { other.0 ≢ seg.0 → IsPlaceInPart part.now other result }
{
    if other.0 == seg.0 {
        return None;
    }
    place_in_part(part, other)
}

/// Adds a number to the list at this place, if there is one.
fn push_where(groups: &mut Vec<Vec<u32>>, place: Option<usize>, n: u32) -> Result<(), NoMemory>
    requires { IfSome place (λ k. k < length groups.old.items) }
    ensures { OnOk result (tables_of groups.new.items ≡ with_number_at place n (tables_of groups.old.items)) }
{
    match place {
        None => Ok(()),
        Some(k) => push_at(groups, k, n),
    }
}

/// Where a segment stands in a part.
pub fn place_in_part(part: &[SegId], s: SegId) -> Option<usize>
    requires { IsRisingPart part.now }
    ensures { IsPlaceInPart part.now s result }
{
    match part.binary_search_by_key(&s.0, |t| t.0) {
        Ok(k) => Some(k),
        Err(_) => None,
    }
}

/// Adds a number to one of the lists.
fn push_at(groups: &mut Vec<Vec<u32>>, k: usize, n: u32) -> Result<(), NoMemory>
    requires { k < length groups.old.items }
    ensures { OnOk result (tables_of groups.new.items ≡ with_number k n (tables_of groups.old.items)) }
{
    let group = &mut groups[k];
    group.push(n)?;
    Ok(())
}
