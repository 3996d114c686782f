//! The terms of the parts of a problem.

ghost use Rattle.std.specs.Prelude.{◌≡◌, ◌<◌, ◌^◌, length, map, IfOk, OnOk, slice_index_or};
ghost use Rattle.order_model.specs.Costs.{seg_of, IsReadable};
ghost use Rattle.order_model.specs.Places.{tables_of};
ghost use Rattle.order_model.specs.Parts.{AreParts};
ghost use Rattle.order_model.specs.Gathering.{part_lists};
ghost use Rattle.order_model.specs.PartTerms.{part_numbers, no_numbers, with_number};
ghost use Rattle.order_model.specs.Numbers.{AreNumbers};

use crate::costs::ends_of;
use crate::problem::Problem;
use crate::term::Term;
use map_base::{NoMemory, SegId};
use std::alloc::Global;

/// The terms of each part of a problem, as their rising numbers in its list of terms; by the numbers of its segments'
/// parts. Each term is of one part, so this takes time and memory near those of the list of terms, however many parts
/// there are.
pub fn terms_by_part(
    alloc: Global,
    problem: &Problem,
    parts: &[Vec<SegId>],
    numbers: &[u32],
) -> Result<Vec<Vec<u32>>, NoMemory>
    requires parts { AreParts problem.now.segs problem.now.terms (part_lists parts.now) }
    requires numbers { AreNumbers (part_lists parts.now) (length problem.now.segs) numbers.now }
    ensures { IfOk result (λ groups. tables_of groups.items ≡ map (part_numbers problem.now.terms) (part_lists parts.now)) }
{
    let terms = problem.terms();
    let mut groups = empty_groups(alloc, parts.len())?;
    for n in 0..terms.len() {
        add_term(&mut groups, numbers, terms[n], n as u32)?;
    }
    Ok(groups)
}

/// So many lists without a number.
fn empty_groups(alloc: Global, count: usize) -> Result<Vec<Vec<u32>>, NoMemory>
    ensures { IfOk result (λ groups. tables_of groups.items ≡ no_numbers count) }
{
    let mut groups = Vec::with_capacity(alloc, count)?;
    for _ in 0..count {
        groups.push(Vec::new(alloc))?;
    }
    Ok(groups)
}

/// Adds the number of a term to the list of the part that its segments are of.
fn add_term(groups: &mut Vec<Vec<u32>>, numbers: &[u32], term: Term, n: u32) -> Result<(), NoMemory>
    requires readable { IsReadable (length numbers.now) term }
    requires known { slice_index_or numbers.now (seg_of term).0 0 < length groups.old.items }
    ensures { OnOk result (tables_of groups.new.items ≡ with_number (slice_index_or numbers.now (seg_of term).0 0) n (tables_of groups.old.items)) }
{
    let (seg, _) = ends_of(term);
    push_at(groups, numbers[seg.0 as usize] as usize, n)
}

/// Adds a number to one of the lists.
fn push_at(groups: &mut Vec<Vec<u32>>, k: usize, n: u32) -> Result<(), NoMemory>
    requires { k < length groups.old.items }
    ensures { OnOk result (tables_of groups.new.items ≡ with_number k n (tables_of groups.old.items)) }
{
    let group = &mut groups[k];
    group.push(n)?;
    Ok(())
}
