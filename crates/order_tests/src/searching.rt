//! The search of a problem's parts.

ghost use Rattle.std.specs.Prelude.{◌≡◌, ◌+◌, ◌<◌, ◌^◌, length, All, IfOk};
ghost use Rattle.map_base.specs.declared.ids.SegId.{SegId};
ghost use Rattle.order_model.specs.Parts.{IsRisingPart};
ghost use Rattle.order_proof.specs.Plain.{plain};
ghost use Rattle.order_proof.specs.Trees.{IsProofTree};

use crate::problems::part_at;
use map_base::{SegId, Steps};
use order_model::{Problem, parts_of};
use order_search::{Found, SearchFault, search};
use std::alloc::Global;
use std::marker::Brand;
use std::sync::ledger::{Blank, Ledger};
use std::test::Fail;

/// What a search of at most so many branch nodes finds, with a counter of steps of its own.
fn searched_by<L: Ledger>(
    alloc: Global,
    problem: &Problem,
    part: &[SegId],
    budget: u16,
    blank: Blank,
) -> Result<Found, SearchFault>
    requires name { blank.name ≡ L.name }
    requires parts { blank.parts ≡ L.parts }
    requires some_part { 0 < blank.parts }
    requires known { All (λ (s : SegId). s.0 < length problem.now.segs) part.now }
    requires rising { IsRisingPart part.now }
    ensures { IfOk result (λ f. IsProofTree (plain f.tree)) }
{
    let mut steps = Steps::<L>::open(blank);
    search(alloc, problem, part, u32::from(budget), &mut steps)
}

/// What a search of at most so many branch nodes finds.
pub(crate) fn searched(
    alloc: Global,
    problem: &Problem,
    part: &[SegId],
    budget: u16,
) -> Result<Found, SearchFault>
    requires known { All (λ (s : SegId). s.0 < length problem.now.segs) part.now }
    requires rising { IsRisingPart part.now }
    ensures { IfOk result (λ f. IsProofTree (plain f.tree)) }
{
    searched_by::<Brand>(alloc, problem, part, budget, Blank::new(1))
}

/// The segments of a problem's one part.
pub(crate) fn only_part(alloc: Global, problem: &Problem) -> Result<Vec<SegId>, Fail>
    ensures known { IfOk result (λ part. All (λ (s : SegId). s.0 < length problem.now.segs) part.items) }
    ensures rising { IfOk result (λ part. IsRisingPart part.items) }
{
    let parts = parts_of(alloc, problem)?;
    if parts.len() != 1 {
        return Err(Fail::from("one part"));
    }
    let segs = Vec::from_slice(alloc, part_at(problem, parts.as_slice(), 0))?;
    Ok(segs)
}
