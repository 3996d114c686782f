//! Prefixes of orders: the lines placed so far on each segment of a problem.

ghost use Rattle.std.specs.Prelude.{◌≡◌, ◌≢◌, ◌<◌, List, length, false, Contains, IfOk, slice_set};
ghost use Rattle.graph_core.specs.Consistent.{AreRising};
ghost use Rattle.map_base.specs.declared.ids.LineId.{LineId};
ghost use Rattle.order_model.specs.Problems.{lines_on, IsOn};
ghost use Rattle.order_model.specs.Costs.{comes_before};
ghost use Rattle.order_model.specs.Places.{no_place, places_in};
ghost use Rattle.order_model.specs.Looks.{is_decided, stands_first, neighbours_on};
ghost use Rattle.order_model.specs.Prefixes.{is_placed, is_left, first_placed, none_placed, with_line, without_last, ArePlacedLines, IsPrefixOf};

use crate::problem::Problem;
use crate::segment_prefix::SegmentPrefix;
use map_base::{LineId, NoMemory, SegId};
use std::alloc::Global;
use std::marker::Model;

/// On each segment of a problem the lines placed so far, left to right, before all lines that are not. Where one line of
/// a segment is left, it is placed too; so the line of a segment that has one alone is placed from the start. It has
/// room for all lines, so that placing and taking back take no memory.
#[derive(Debug, Drop)]
pub struct Prefix {
    parts: Vec<SegmentPrefix>,
}

impl Model for Prefix {
    ghost use Rattle.order_model.specs.Prefixes.{Placement, placement_of};

    ghost Value = { Placement };

    ghost view = { λ p. placement_of p.parts.items };
}

impl Prefix {
    /// The prefix of a problem in which no line is chosen.
    pub fn none(alloc: Global, problem: &Problem) -> Result<Prefix, NoMemory>
        ensures placed { IfOk result (λ p. p.placed ≡ none_placed problem.now.segs) }
        ensures fits { IfOk result (IsPrefixOf problem.now.segs) }
    {
        let segs = problem.segs();
        let mut parts = Vec::with_capacity(alloc, segs.len())?;
        for lines in segs {
            parts.push(SegmentPrefix::unchosen(alloc, lines.as_slice())?)?;
        }
        Ok(Prefix { parts })
    }

    /// Places a line that is not placed yet after the placed lines of a segment of its problem. Where one line is then
    /// left, it is placed too.
    pub fn place(&mut self, problem: &Problem, seg: SegId, line: LineId)
        requires fits { IsPrefixOf problem.now.segs self.old }
        requires known { seg.0 < length problem.now.segs }
        requires line { Contains (lines_on problem.now.segs seg) line }
        requires unplaced { is_placed (lines_on self.old.placed seg) line ≡ false }
        ensures placed { self.new.placed ≡ slice_set self.old.placed seg.0 (with_line (lines_on problem.now.segs seg) (lines_on self.old.placed seg) line) }
        ensures fits { IsPrefixOf problem.now.segs self.new }
    {
        let part = &mut self.parts[seg.0 as usize];
        part.place(line);
    }

    /// Takes back what the last placing on a segment of its problem placed. There is one that was not taken back.
    pub fn take_back(&mut self, problem: &Problem, seg: SegId)
        requires fits { IsPrefixOf problem.now.segs self.old }
        requires known { seg.0 < length problem.now.segs }
        requires some { length (first_placed (lines_on problem.now.segs seg)) < length (lines_on self.old.placed seg) }
        ensures placed { self.new.placed ≡ slice_set self.old.placed seg.0 (without_last (lines_on problem.now.segs seg) (lines_on self.old.placed seg)) }
        ensures fits { IsPrefixOf problem.now.segs self.new }
    {
        let part = &mut self.parts[seg.0 as usize];
        part.take_back();
    }

    /// The placed lines of a segment, left to right.
    pub fn placed(&self, seg: SegId) -> &[LineId]
        requires { seg.0 < length self.now.placed }
        ensures { result.now ≡ lines_on self.now.placed seg }
    {
        let part = &self.parts[seg.0 as usize];
        part.placed()
    }

    /// The place of each line of a segment among the lines placed there, `NO_PLACE` for a line that is not placed.
    pub fn places(&self, seg: SegId) -> &[u32]
        requires { seg.0 < length self.now.placed }
        ensures places { result.now ≡ places_in (lines_on self.now.segs seg) (lines_on self.now.placed seg) }
        ensures short { length (lines_on self.now.placed seg) < no_place }
    {
        let part = &self.parts[seg.0 as usize];
        part.places()
    }

    /// Whether one of two lines of a segment of its problem is placed there, so that it is known which stands first.
    pub fn is_decided(&self, problem: &Problem, seg: SegId, a: LineId, b: LineId) -> bool
        requires fits { IsPrefixOf problem.now.segs self.now }
        requires known { seg.0 < length problem.now.segs }
        requires a_on { IsOn problem.now.segs seg a }
        requires b_on { IsOn problem.now.segs seg b }
        ensures { result ≡ is_decided self.now.placed seg a b }
    {
        let part = &self.parts[seg.0 as usize];
        part.is_decided(a, b)
    }

    /// Whether of two lines of a segment of its problem the first is placed, and the second is not or stands behind it.
    pub fn comes_before(&self, problem: &Problem, seg: SegId, a: LineId, b: LineId) -> bool
        requires fits { IsPrefixOf problem.now.segs self.now }
        requires known { seg.0 < length problem.now.segs }
        requires a_on { IsOn problem.now.segs seg a }
        requires b_on { IsOn problem.now.segs seg b }
        requires differ { a.0 ≢ b.0 }
        ensures { result ≡ comes_before (lines_on self.now.placed seg) a b }
    {
        let part = &self.parts[seg.0 as usize];
        part.comes_before(a, b)
    }

    /// Whether the first of two lines of a segment of its problem stands first there, where one of them is placed.
    pub fn stands_first(&self, problem: &Problem, seg: SegId, a: LineId, b: LineId) -> Option<bool>
        requires fits { IsPrefixOf problem.now.segs self.now }
        requires known { seg.0 < length problem.now.segs }
        requires a_on { IsOn problem.now.segs seg a }
        requires b_on { IsOn problem.now.segs seg b }
        requires differ { a.0 ≢ b.0 }
        ensures { result ≡ stands_first self.now.placed seg a b }
    {
        let part = &self.parts[seg.0 as usize];
        part.stands_first(a, b)
    }

    /// Whether two lines of a segment of its problem are neighbours in all orders that go on from this prefix, or in
    /// none; not settled where it is in some.
    pub fn neighbours(&self, problem: &Problem, seg: SegId, a: LineId, b: LineId) -> Option<bool>
        requires fits { IsPrefixOf problem.now.segs self.now }
        requires known { seg.0 < length problem.now.segs }
        requires a_on { IsOn problem.now.segs seg a }
        requires b_on { IsOn problem.now.segs seg b }
        requires differ { a.0 ≢ b.0 }
        ensures { result ≡ neighbours_on (lines_on problem.now.segs seg) (lines_on self.now.placed seg) a b }
    {
        let part = &self.parts[seg.0 as usize];
        part.neighbours(a, b)
    }

    /// Whether a line stands on a segment of its problem and is not placed there.
    pub fn is_left(&self, problem: &Problem, seg: SegId, line: LineId) -> bool
        requires fits { IsPrefixOf problem.now.segs self.now }
        requires known { seg.0 < length problem.now.segs }
        ensures { result ≡ is_left (lines_on problem.now.segs seg) (lines_on self.now.placed seg) line }
    {
        let part = &self.parts[seg.0 as usize];
        part.is_left(line)
    }
}

/// Taking back undoes the last placing, also where it placed the last two lines.
pub fn taking_back_undoes_placing()
    ensures { (lines placed : List LineId) (line : LineId) → AreRising lines → ArePlacedLines lines placed
        → without_last lines (with_line lines placed line) ≡ placed }
{}
