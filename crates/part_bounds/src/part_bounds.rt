//! A part of a problem with the lines placed so far, its bound and its canonical prices.

ghost use Rattle.std.specs.Prelude.{◌≡◌, ◌<◌, length, All, false, Contains, IfOk, slice_set};
ghost use Rattle.map_base.specs.declared.ids.SegId.{SegId};
ghost use Rattle.graph_core.specs.Consistent.{AreRising};
ghost use Rattle.order_model.specs.Problems.{lines_on};
ghost use Rattle.order_model.specs.Completions.{placed_more};
ghost use Rattle.order_model.specs.Parts.{IsRisingPart};
ghost use Rattle.order_model.specs.PartTerms.{part_terms, part_numbers};
ghost use Rattle.order_model.specs.Prefixes.{is_placed, is_left, first_placed, none_placed, without_last};
ghost use Rattle.order_bound.specs.Bounds.{bound_of};
ghost use Rattle.order_bound.specs.CanonicalPrices.{prices_for};
ghost use Rattle.part_bounds.specs.PartStates.{settled_at, state_more, with_placed, IsWell};

use crate::aparts::{Aparts, aparts_by_end, moved, settled_on, settled_total};
use crate::changes::{change_on, last_two, placed_count};
use crate::kept_pairs::{KeptPairs, mark_changed, renew_pairs, sum_with};
use crate::pair_terms::{PairTerms, find_segments, most_terms, pairs_of};
use crate::prices::listed_all;
use map_base::{LineId, NoMemory, SegId};
use order_model::{Prefix, Problem};
use order_values::Prices;
use pair_bounds::{NotedPrices, Room};
use std::alloc::Global;
use std::marker::Model;

/// A part of a problem with the lines placed so far, its bound and its canonical prices. It is seen as the lines of the
/// problem's segments, the part, the part's terms behind their numbers in the problem, and the placed lines of each segment.
#[derive(Drop)]
pub struct PartBounds<'a> {
    problem: &'a Problem,
    part: &'a [SegId],
    /// The numbers of the part's terms.
    numbers: &'a [u32],
    prefix: Prefix,
    /// The pairs of lines of the part's terms.
    pairs: Vec<PairTerms>,
    /// The share of the bound and the prices of each pair that is not stale.
    kept: KeptPairs,
    /// Where the prices of lines that are placed only on trial go: it has no place for any.
    spare: NotedPrices,
    room: Room,
    /// The part's Aparts, with what the settled ones add to the bound.
    aparts: Aparts,
}

impl<'a> Model for PartBounds<'a> {
    ghost use Rattle.order_model.specs.PartTerms.{part_terms};
    ghost use Rattle.part_bounds.specs.PartStates.{PartState};
    ghost use Rattle.part_bounds.specs.Kept.{IsKeptUp};

    ghost Value = { PartState };

    ghost view = { λ b. record { segs = b.problem.now.segs; part = b.part.now; terms = part_terms b.problem.now.terms b.part.now; placed = b.prefix.placed } };

    ghost invariant = { λ b. IsKeptUp b.problem.now b.part.now b.numbers.now b.prefix b.pairs.items b.kept b.room b.aparts };
}

impl<'a> PartBounds<'a> {
    /// A part of the problem before any line is chosen: its segments, rising, and the numbers of its terms.
    pub fn new(
        alloc: Global,
        problem: &'a Problem,
        part: &'a [SegId],
        numbers: &'a [u32],
    ) -> Result<PartBounds<'a>, NoMemory>
        requires known { All (λ (s : SegId). s.0 < length problem.now.segs) part.now }
        requires rising { IsRisingPart part.now }
        requires numbers { numbers.now ≡ part_numbers problem.now.terms part.now }
        ensures segs { IfOk result (λ b. b.segs ≡ problem.now.segs) }
        ensures part { IfOk result (λ b. b.part ≡ part.now) }
        ensures terms { IfOk result (λ b. b.terms ≡ part_terms problem.now.terms part.now) }
        ensures placed { IfOk result (λ b. b.placed ≡ none_placed problem.now.segs) }
        ensures well { IfOk result (λ b. IsWell b.segs b.placed) }
    {
        let prefix = Prefix::none(alloc, problem)?;
        let mut pairs = pairs_of(alloc, problem, numbers)?;
        find_segments(alloc, part, &mut pairs)?;
        let room = Room::with_capacity(alloc, part.len(), most_terms(pairs.as_slice()))?;
        let kept = KeptPairs::all_stale(alloc, pairs.len(), problem.terms().len())?;
        let spare = NotedPrices::none(alloc, 0)?;
        let lists = aparts_by_end(alloc, problem, numbers)?;
        let settled = settled_total(problem, &prefix, numbers);
        Ok(PartBounds {
            problem,
            part,
            numbers,
            prefix,
            pairs,
            kept,
            spare,
            room,
            aparts: Aparts {
                lists,
                total: settled,
            },
        })
    }

    /// The bound of the placed lines: what each completion costs on the part at least.
    pub fn bound(&mut self) -> u64
        ensures bound { result ≡ bound_of self.old.segs self.old.part self.old.terms self.old.placed }
        ensures kept { self.new ≡ self.old }
    {
        let shares = renew_pairs(
            self.problem,
            &self.prefix,
            self.part,
            self.pairs.as_slice(),
            &mut self.kept,
            &mut self.room,
        );
        shares + self.aparts.total
    }

    /// What the settled Aparts with an end on a segment cost: what `bound_with` has to be told.
    pub fn settled_on(&self, seg: SegId) -> u64
        requires { seg.0 < length self.now.segs }
        ensures { result ≡ settled_at self.now seg }
    {
        settled_on(self.problem, &self.prefix, &self.aparts, seg)
    }

    /// The bound once a line of a segment is placed next, and the one that is then left there alone; neither is. The settled
    /// Aparts with an end on the segment cost `before` as the lines are placed now.
    #[tactic(auto, using(crate::proofs::Restored::restored, crate::proofs::Restored::chosen))]
    pub fn bound_with(&mut self, seg: SegId, line: LineId, before: u64) -> u64
        requires rising { All AreRising self.old.segs }
        requires well { IsWell self.old.segs self.old.placed }
        requires known { seg.0 < length self.old.segs }
        requires line { Contains (lines_on self.old.segs seg) line }
        requires unplaced { is_placed (lines_on self.old.placed seg) line ≡ false }
        requires before { before ≡ settled_at self.old seg }
        ensures bound { result ≡ bound_of self.old.segs self.old.part self.old.terms (placed_more self.old.segs self.old.placed seg line) }
        ensures kept { self.new ≡ self.old }
    {
        let _ = renew_pairs(
            self.problem,
            &self.prefix,
            self.part,
            self.pairs.as_slice(),
            &mut self.kept,
            &mut self.room,
        );
        let count = placed_count(self.problem, &self.prefix, seg);
        self.prefix.place(self.problem, seg, line);
        let last = last_two(self.problem, &self.prefix, seg);
        let change = change_on(self.problem, &self.prefix, seg, count, last);
        let after = settled_on(self.problem, &self.prefix, &self.aparts, seg);
        let shares = sum_with(
            self.problem,
            &self.prefix,
            self.part,
            &change,
            self.pairs.as_slice(),
            self.kept.shares.as_slice(),
            &mut self.room,
            &mut self.spare,
        );
        self.prefix.take_back(self.problem, seg);
        shares + moved(self.aparts.total, before, after)
    }

    /// The canonical prices of the placed lines, by the numbers of their terms in the problem.
    pub fn prices(&mut self, alloc: Global) -> Result<Prices, NoMemory>
        ensures prices { IfOk result (λ p. p ≡ prices_for self.old.segs self.old.part self.old.terms self.old.placed) }
        ensures kept { self.new ≡ self.old }
    {
        let _ = renew_pairs(
            self.problem,
            &self.prefix,
            self.part,
            self.pairs.as_slice(),
            &mut self.kept,
            &mut self.room,
        );
        let list = listed_all(alloc, self.numbers, &self.kept.noted)?;
        Ok(Prices::of(list))
    }

    /// The placed lines of a segment, left to right.
    pub fn placed(&self, seg: SegId) -> &[LineId]
        requires { seg.0 < length self.now.placed }
        ensures { result.now ≡ lines_on self.now.placed seg }
    {
        self.prefix.placed(seg)
    }

    /// Whether a line stands on a segment and is not placed there.
    pub fn is_left(&self, seg: SegId, line: LineId) -> bool
        requires well { IsWell self.now.segs self.now.placed }
        requires known { seg.0 < length self.now.segs }
        ensures { result ≡ is_left (lines_on self.now.segs seg) (lines_on self.now.placed seg) line }
    {
        self.prefix.is_left(self.problem, seg, line)
    }

    /// Places a line of a segment next, and the one that is then left there alone.
    pub fn place(&mut self, seg: SegId, line: LineId)
        requires well { IsWell self.old.segs self.old.placed }
        requires known { seg.0 < length self.old.segs }
        requires line { Contains (lines_on self.old.segs seg) line }
        requires unplaced { is_placed (lines_on self.old.placed seg) line ≡ false }
        ensures state { self.new ≡ state_more self.old seg line }
        ensures well { IsWell self.new.segs self.new.placed }
    {
        let before = settled_on(self.problem, &self.prefix, &self.aparts, seg);
        let count = placed_count(self.problem, &self.prefix, seg);
        self.prefix.place(self.problem, seg, line);
        let last = last_two(self.problem, &self.prefix, seg);
        let change = change_on(self.problem, &self.prefix, seg, count, last);
        let after = settled_on(self.problem, &self.prefix, &self.aparts, seg);
        self.aparts.total = moved(self.aparts.total, before, after);
        mark_changed(&change, self.pairs.as_slice(), &mut self.kept.stale);
    }

    /// Takes back what the last placing on a segment placed. There is one that was not taken back.
    pub fn take_back(&mut self, seg: SegId)
        requires well { IsWell self.old.segs self.old.placed }
        requires known { seg.0 < length self.old.segs }
        requires some { length (first_placed (lines_on self.old.segs seg)) < length (lines_on self.old.placed seg) }
        ensures state { self.new ≡ with_placed self.old (slice_set self.old.placed seg.0 (without_last (lines_on self.old.segs seg) (lines_on self.old.placed seg))) }
        ensures well { IsWell self.new.segs self.new.placed }
    {
        let before = settled_on(self.problem, &self.prefix, &self.aparts, seg);
        let last = last_two(self.problem, &self.prefix, seg);
        self.prefix.take_back(self.problem, seg);
        let count = placed_count(self.problem, &self.prefix, seg);
        let change = change_on(self.problem, &self.prefix, seg, count, last);
        let after = settled_on(self.problem, &self.prefix, &self.aparts, seg);
        self.aparts.total = moved(self.aparts.total, before, after);
        mark_changed(&change, self.pairs.as_slice(), &mut self.kept.stale);
    }
}
