//! The bound and the canonical prices of one prefix.

ghost use Rattle.std.specs.Prelude.{◌≡◌, ◌<◌, ◌≤◌, ◌+◌, pos, Some, [], length, All, IfOk};
ghost use Rattle.map_base.specs.declared.ids.SegId.{SegId};
ghost use Rattle.graph_core.specs.Consistent.{AreRising};
ghost use Rattle.order_model.specs.Problems.{lines_on, IsProblem};
ghost use Rattle.order_model.specs.Parts.{IsRisingPart};
ghost use Rattle.order_model.specs.PartTerms.{part_terms, part_numbers};
ghost use Rattle.order_model.specs.Prefixes.{IsPrefixOf, ArePlacedLines, with_last};
ghost use Rattle.order_bound.specs.Bounds.{bound_of};
ghost use Rattle.order_bound.specs.Values.{value};
ghost use Rattle.order_bound.specs.CanonicalPrices.{prices_for};
ghost use Rattle.part_bounds.specs.PartStates.{IsWell, with_placed};
ghost use Rattle.prefix_bounds.specs.Completed.{CostsAtLeast};
ghost use Rattle.prefix_bounds.specs.Filling.{filled, with_left};

use map_base::{LineId, NoMemory, SegId};
use order_model::{Prefix, Problem};
use order_search::numbers_of_part;
use order_values::Prices;
use part_bounds::PartBounds;
use std::alloc::Global;

/// The bound of a prefix on a part of its problem, whose segments rise: no completion costs less there.
pub fn bound_of(
    alloc: Global,
    problem: &Problem,
    part: &[SegId],
    prefix: &Prefix,
) -> Result<u64, NoMemory>
    requires known { All (λ (s : SegId). s.0 < length problem.now.segs) part.now }
    requires rising { IsRisingPart part.now }
    requires fits { IsPrefixOf problem.now.segs prefix.now }
    ensures bound { IfOk result (λ bound. bound ≡ bound_of problem.now.segs part.now (part_terms problem.now.terms part.now) prefix.now.placed) }
    ensures shown { IfOk result (λ bound. CostsAtLeast problem.now part.now prefix.now.placed (pos bound)) }
{
    let numbers = numbers_of_part(alloc, problem, part)?;
    let mut bounds = part_at(alloc, problem, part, numbers.as_slice(), prefix)?;
    Ok(bounds.bound())
}

/// The canonical prices of a prefix on a part of its problem, whose segments rise: they are allowed, and their value is
/// the bound.
pub fn prices_for(
    alloc: Global,
    problem: &Problem,
    part: &[SegId],
    prefix: &Prefix,
) -> Result<Prices, NoMemory>
    requires known { All (λ (s : SegId). s.0 < length problem.now.segs) part.now }
    requires rising { IsRisingPart part.now }
    requires fits { IsPrefixOf problem.now.segs prefix.now }
    ensures prices { IfOk result (λ p. p ≡ prices_for problem.now.segs part.now (part_terms problem.now.terms part.now) prefix.now.placed) }
    ensures reach { IfOk result (λ p. value problem.now.segs part.now (part_terms problem.now.terms part.now) prefix.now.placed p
        ≡ Some (pos (bound_of problem.now.segs part.now (part_terms problem.now.terms part.now) prefix.now.placed))) }
{
    let numbers = numbers_of_part(alloc, problem, part)?;
    let mut bounds = part_at(alloc, problem, part, numbers.as_slice(), prefix)?;
    Ok(bounds.prices(alloc)?)
}

/// A part of the problem, whose terms have these numbers, with the lines of a prefix placed.
fn part_at<'a>(
    alloc: Global,
    problem: &'a Problem,
    part: &'a [SegId],
    numbers: &'a [u32],
    prefix: &Prefix,
) -> Result<PartBounds<'a>, NoMemory>
    requires known { All (λ (s : SegId). s.0 < length problem.now.segs) part.now }
    requires rising { IsRisingPart part.now }
    requires numbers { numbers.now ≡ part_numbers problem.now.terms part.now }
    requires fits { IsPrefixOf problem.now.segs prefix.now }
    ensures problem { IfOk result (λ _. IsProblem problem.now) }
    ensures segs { IfOk result (λ b. b.segs ≡ problem.now.segs) }
    ensures part { IfOk result (λ b. b.part ≡ part.now) }
    ensures terms { IfOk result (λ b. b.terms ≡ part_terms problem.now.terms part.now) }
    ensures placed { IfOk result (λ b. b.placed ≡ prefix.now.placed) }
{
    let mut bounds = PartBounds::new(alloc, problem, part, numbers)?;
    for seg in 0..problem.segs().len() {
        place_lines(&mut bounds, prefix, SegId(seg as u32));
    }
    Ok(bounds)
}

/// Places the lines of a prefix on a segment where none is chosen yet.
fn place_lines(bounds: &mut PartBounds, prefix: &Prefix, seg: SegId)
    requires rising { All AreRising bounds.old.segs }
    requires well { IsWell bounds.old.segs bounds.old.placed }
    requires fits { IsPrefixOf bounds.old.segs prefix.now }
    requires known { seg.0 < length bounds.old.segs }
    requires unchosen { lines_on bounds.old.placed seg ≡ with_last (lines_on bounds.old.segs seg) [] }
    ensures state { bounds.new ≡ filled bounds.old seg (lines_on prefix.now.placed seg) }
    ensures well { IsWell bounds.new.segs bounds.new.placed }
{
    for line in prefix.placed(seg) {
        place_left(bounds, seg, *line);
    }
}

/// Places a line of a segment next, unless it is placed.
fn place_left(bounds: &mut PartBounds, seg: SegId, line: LineId)
    requires well { IsWell bounds.old.segs bounds.old.placed }
    requires known { seg.0 < length bounds.old.segs }
    ensures state { bounds.new ≡ filled bounds.old seg (with_left (lines_on bounds.old.segs seg) (lines_on bounds.old.placed seg) line) }
    ensures well { IsWell bounds.new.segs bounds.new.placed }
{
    if bounds.is_left(seg, line) {
        bounds.place(seg, line);
    }
}
