//! The parts of a problem.

ghost use Rattle.std.specs.Prelude.{◌≡◌, ◌≢◌, ◌<◌, ◌↔◌, ◌^◌, List, [], ◌∷◌, ◌++◌, length, All, IfOk, OnOk, slice_index, slice_index_or, slice_set};
ghost use Rattle.map_base.specs.declared.ids.SegId.{SegId};
ghost use Rattle.map_base.specs.declared.ids.LineId.{LineId};
ghost use Rattle.order_model.specs.declared.term.Term.{Term};
ghost use Rattle.order_model.specs.Problems.{IsTerm};
ghost use Rattle.order_model.specs.Parts.{AreParts};
ghost use Rattle.order_model.specs.Gathering.{part_lists, with_member, with_place, after_segment, places_after, gathered, problem_parts, IsOnlyAt, ArePlaced, AreGatherable};

use crate::labels::labels_of;
use crate::problem::Problem;
use map_base::{LineId, NoMemory, SegId, Sequence};
use std::alloc::Global;

/// The parts of a problem: its segments with at least two lines, in classes that no `Link` and no `Apart` leaves.
/// The segments of a part rise, and parts stand by least segment.
pub fn parts_of(alloc: Global, problem: &Problem) -> Result<Vec<Vec<SegId>>, NoMemory>
    ensures list { IfOk result (λ parts. part_lists parts.items ≡ problem_parts problem.now.segs problem.now.terms) }
    ensures classes { IfOk result (λ parts. AreParts problem.now.segs problem.now.terms (part_lists parts.items)) }
{
    let segs = problem.segs();
    let labels = labels_of(alloc, problem.terms(), segs.len() as u32)?;
    gathered(alloc, segs, labels.as_slice())
}

/// The segments with at least two lines, by label.
fn gathered(
    alloc: Global,
    segs: &[Sequence<LineId>],
    labels: &[u32],
) -> Result<Vec<Vec<SegId>>, NoMemory>
    requires few { length segs.now < 2 ^ 32 }
    requires labels { AreGatherable segs.now labels.now }
    ensures { IfOk result (λ parts. part_lists parts.items ≡ gathered segs.now labels.now (length segs.now)) }
{
    let mut parts = Vec::new(alloc);
    let mut places = vec![in alloc; 0_usize; segs.len()]?;
    for s in 0..segs.len() {
        add_segment(alloc, segs, labels, s, &mut parts, &mut places)?;
    }
    Ok(parts)
}

/// Adds a segment, if it has at least two lines.
fn add_segment(
    alloc: Global,
    segs: &[Sequence<LineId>],
    labels: &[u32],
    s: usize,
    parts: &mut Vec<Vec<SegId>>,
    places: &mut Vec<usize>,
) -> Result<(), NoMemory>
    requires known { s < length segs.now }
    requires few { length segs.now < 2 ^ 32 }
    requires labels { AreGatherable segs.now labels.now }
    requires placed { ArePlaced segs.now labels.now s (part_lists parts.old.items) places.old.items }
    ensures parts { OnOk result (part_lists parts.new.items ≡ after_segment segs.now labels.now s (part_lists parts.old.items)) }
    ensures places { OnOk result (places.new.items ≡ places_after segs.now labels.now s (length parts.old.items) places.old.items) }
{
    if segs[s].as_slice().len() < 2 {
        return Ok(());
    }
    add_member(alloc, parts, places, labels[s], s as u32)
}

/// Adds a segment: it begins a part where it is its own label, and else joins the part of its label.
fn add_member(
    alloc: Global,
    parts: &mut Vec<Vec<SegId>>,
    places: &mut Vec<usize>,
    label: u32,
    s: u32,
) -> Result<(), NoMemory>
    requires known { s < length places.old.items }
    requires label_known { label < length places.old.items }
    requires joins { label ≢ s → IsOnlyAt (part_lists parts.old.items) (slice_index places.old.items label) label }
    ensures parts { OnOk result (part_lists parts.new.items ≡ with_member label s (part_lists parts.old.items)) }
    ensures places { OnOk result (places.new.items ≡ with_place label s (length parts.old.items) places.old.items) }
{
    if label == s {
        places[s as usize] = parts.len();
        begin_part(alloc, parts, SegId(s))
    } else {
        join_part(parts, places[label as usize], SegId(s))
    }
}

/// Begins a part.
fn begin_part(alloc: Global, parts: &mut Vec<Vec<SegId>>, s: SegId) -> Result<(), NoMemory>
    ensures { OnOk result (part_lists parts.new.items ≡ part_lists parts.old.items ++ (s ∷ []) ∷ []) }
{
    let mut part = Vec::new(alloc);
    part.push(s)?;
    parts.push(part)?;
    Ok(())
}

/// Adds a segment to a part.
fn join_part(parts: &mut Vec<Vec<SegId>>, place: usize, s: SegId) -> Result<(), NoMemory>
    requires { place < length parts.old.items }
    ensures { OnOk result (part_lists parts.new.items
        ≡ slice_set (part_lists parts.old.items) place (slice_index_or (part_lists parts.old.items) place [] ++ s ∷ [])) }
{
    let part = &mut parts[place];
    part.push(s)?;
    Ok(())
}

/// The lists of parts that a problem's classes can be are one list.
pub fn a_problem_has_one_list_of_parts()
    ensures { (segs : List (List LineId)) (terms : List Term) (parts : List (List SegId)) → All (IsTerm segs) terms
        → (AreParts segs terms parts ↔ parts ≡ problem_parts segs terms) }
{}
