//! The numbers of a part's terms.

ghost use Rattle.std.specs.Prelude.{◌≡◌, ◌<◌, ◌&&◌, [], ◌∷◌, ◌++◌, length, true, false, All, IfOk, OnOk, if◌then◌else◌, slice_index_or, slice_set};
ghost use Rattle.map_base.specs.declared.ids.SegId.{SegId};
ghost use Rattle.order_model.specs.Costs.{seg_of, other_of, IsReadable};
ghost use Rattle.order_model.specs.PartTerms.{part_numbers};
ghost use Rattle.order_search.specs.Members.{AreMarks};

use map_base::{NoMemory, SegId};
use order_model::{Problem, Term, ends_of};
use std::alloc::Global;

/// The numbers of the terms of a part in the problem, by one walk over the terms.
pub fn numbers_of_part(
    alloc: Global,
    problem: &Problem,
    part: &[SegId],
) -> Result<Vec<u32>, NoMemory>
    requires { All (λ (s : SegId). s.0 < length problem.now.segs) part.now }
    ensures { IfOk result (λ numbers. numbers.items ≡ part_numbers problem.now.terms part.now) }
{
    let terms = problem.terms();
    let marks = marks_of(alloc, problem.segs().len(), part)?;
    let mut numbers = Vec::new(alloc);
    for n in 0..terms.len() {
        push_marked(&mut numbers, marks.as_slice(), terms[n], n as u32)?;
    }
    Ok(numbers)
}

/// For each of so many segments whether it is of the part.
fn marks_of(alloc: Global, count: usize, part: &[SegId]) -> Result<Vec<bool>, NoMemory>
    requires { All (λ (s : SegId). s.0 < count) part.now }
    ensures { IfOk result (λ marks. AreMarks part.now count marks.items) }
{
    let mut marks = vec![in alloc; false; count]?;
    for s in part {
        mark(marks.as_mut_slice(), *s);
    }
    Ok(marks)
}

/// Marks a segment.
fn mark(marks: &mut [bool], s: SegId)
    requires { s.0 < length marks.old }
    ensures { marks.new ≡ slice_set marks.old s.0 true }
{
    marks[s.0 as usize] = true;
}

/// Adds the number of a term, if the term's segments have marks.
fn push_marked(numbers: &mut Vec<u32>, marks: &[bool], term: Term, n: u32) -> Result<(), NoMemory>
    requires { IsReadable (length marks.now) term }
    ensures { OnOk result (numbers.new.items ≡ numbers.old.items
        ++ (if slice_index_or marks.now (seg_of term).0 false && slice_index_or marks.now (other_of term).0 false then n ∷ [] else [])) }
{
    if is_marked(marks, term) {
        numbers.push(n)?;
    }
    Ok(())
}

/// Whether the segments of a term have marks.
fn is_marked(marks: &[bool], term: Term) -> bool
    requires { IsReadable (length marks.now) term }
    ensures { result ≡ (slice_index_or marks.now (seg_of term).0 false && slice_index_or marks.now (other_of term).0 false) }
{
    let (seg, other) = ends_of(term);
    if !marks[seg.0 as usize] {
        return false;
    }
    marks[other.0 as usize]
}
