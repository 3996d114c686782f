//! The terms that are left while a problem is untangled, listed by segment.

ghost use Rattle.std.specs.Prelude.{◌≡◌, ◌≢◌, ◌+◌, ◌<◌, ◌≤◌, ◌^◌, IfOk, OnOk, length, map, filter, not};
ghost use Rattle.std.specs.List.{AllByRecursion};
ghost use Rattle.order_model.specs.Parts.{is_between};
ghost use Rattle.order_rules.specs.Merging.{moved};
ghost use Rattle.order_rules.specs.Dividing.{is_across, sent};
ghost use Rattle.order_untangle.specs.LeftTerms.{AreTermsOn, IsFit};

use crate::cells::{divide_cells, filled, live_terms, merge_cells, put_left};
use crate::numbers::{
    append_at, forget_dropped, numbers_by_segment, numbers_of, numbers_on, taken,
};
use map_base::{LineId, NoMemory, SegId};
use order_model::Term;
use std::alloc::Global;
use std::marker::Model;

/// The terms of a problem under way, in their order. Each segment has the numbers of its terms, so that they are found
/// without a look at the others. Contracts see the number of segments and the list of terms that are left.
#[derive(Drop)]
pub(crate) struct LeftTerms {
    /// The terms, none where one was dropped.
    cells: Vec<Option<Term>>,
    /// For each segment the numbers of its terms, and of some that were dropped.
    on: Vec<Vec<u32>>,
}

impl Model for LeftTerms {
    ghost use Rattle.std.specs.Prelude.{length};
    ghost use Rattle.order_model.specs.Places.{tables_of};
    ghost use Rattle.order_untangle.specs.LeftTerms.{Listing, AreListed, left};

    ghost Value = { Listing };

    ghost view = { λ t. record { count = length t.on.items; terms = left t.cells.items } };

    ghost invariant = { λ t. AreListed t.cells.items (tables_of t.on.items) };
}

impl LeftTerms {
    /// The terms of a problem with so many segments.
    pub(crate) fn of(alloc: Global, count: usize, terms: Vec<Term>) -> Result<LeftTerms, NoMemory>
        requires fit { AllByRecursion (IsFit count) terms.items }
        requires few { length terms.items ≤ 4000000 }
        ensures { IfOk result (λ l. l ≡ record { count = count; terms = terms.items }) }
    {
        let on = numbers_by_segment(alloc, count, terms.as_slice())?;
        let cells = filled(alloc, terms.as_slice())?;
        Ok(LeftTerms { cells, on })
    }

    /// Puts the terms on a segment into `terms`, in any order.
    pub(crate) fn gather(&self, seg: SegId, terms: &mut Vec<Term>) -> Result<(), NoMemory>
        ensures { OnOk result (AreTermsOn seg self.now.terms terms.new.items) }
    {
        let numbers = numbers_of(self.on.as_slice(), seg);
        live_terms(self.cells.as_slice(), numbers, terms)?;
        Ok(())
    }

    /// The terms without those between two segments, and with `into` in place of `from`.
    pub(crate) fn merged(
        self,
        alloc: Global,
        into: SegId,
        from: SegId,
        flip: bool,
    ) -> Result<LeftTerms, NoMemory>
        requires into { into.0 < self.count }
        requires from { from.0 < self.count }
        requires differ { into.0 ≢ from.0 }
        ensures { IfOk result (λ l. l ≡ record { count = self.count; terms = map (moved into from flip) (filter (λ t. not (is_between t into.0 from.0)) self.terms) }) }
    {
        let LeftTerms { mut cells, mut on } = self;
        let numbers = taken(alloc, &mut on, from);
        merge_cells(&mut cells, numbers.as_slice(), into, from, flip);
        let kept = numbers_on(alloc, numbers.as_slice(), cells.as_slice(), into)?;
        append_at(&mut on, into, kept.as_slice())?;
        forget_dropped(&mut on, cells.as_slice(), into);
        Ok(LeftTerms { cells, on })
    }

    /// The terms without those across a group of a segment's lines and the rest, and with a new last segment for those of
    /// the rest.
    pub(crate) fn divided(
        self,
        alloc: Global,
        seg: SegId,
        group: &[LineId],
        rest: &[LineId],
    ) -> Result<LeftTerms, NoMemory>
        requires seg { seg.0 < self.count }
        requires few { self.count < 2 ^ 32 }
        ensures { IfOk result (λ l. l ≡ record { count = self.count + 1; terms = map (sent seg (record { 0 = self.count }) rest.now) (filter (λ t. not (is_across seg group.now rest.now t)) self.terms) }) }
    {
        let LeftTerms { mut cells, mut on } = self;
        let new = SegId(on.len() as u32);
        let numbers = taken(alloc, &mut on, seg);
        divide_cells(&mut cells, numbers.as_slice(), seg, new, group, rest);
        let kept = numbers_on(alloc, numbers.as_slice(), cells.as_slice(), seg)?;
        let sent = numbers_on(alloc, numbers.as_slice(), cells.as_slice(), new)?;
        append_at(&mut on, seg, kept.as_slice())?;
        on.push(sent)?;
        Ok(LeftTerms { cells, on })
    }

    /// The terms that are left.
    #[tactic(auto, using(crate::proofs::CellLemmas::left_more))]
    pub(crate) fn into_terms(self, alloc: Global) -> Result<Vec<Term>, NoMemory>
        ensures { IfOk result (λ terms. terms.items ≡ self.terms) }
    {
        let mut terms = Vec::new(alloc);
        for cell in &self.cells {
            put_left(&mut terms, *cell)?;
        }
        Ok(terms)
    }
}
