//! The lines placed on one segment, with the table of their places.

ghost use Rattle.std.specs.Prelude.{◌≡◌, ◌≢◌, ◌||◌, ◌+◌, ◌<◌, ◌-◌, ◌≤◌, ◌∷◌, [], ◌++◌, length, take, find, false, vec_len, vec_capacity, All, Contains, IfOk, slice_index_or};
ghost use Rattle.std.specs.Option.{option_to_list};
ghost use Rattle.map_base.specs.declared.ids.LineId.{LineId};
ghost use Rattle.graph_core.specs.Consistent.{AreRising};
ghost use Rattle.order_model.specs.Costs.{comes_before};
ghost use Rattle.order_model.specs.Places.{no_place, place_in, places_in, first_without_place, is_left_by};
ghost use Rattle.order_model.specs.Looks.{first_of, first_at, neighbours_on, neighbours_at, beside_unplaced_at};
ghost use Rattle.order_model.specs.Prefixes.{is_placed, is_unplaced, is_left, with_last, first_placed, with_line, without_last, AreApart, ArePlacedLines, unchosen, segment_placement};

use crate::places::NO_PLACE;
use crate::ranks::rank;
use crate::table_costs::are_adjacent;
use map_base::{LineId, NoMemory};
use std::alloc::Global;
use std::marker::Model;

/// The lines of one segment, and those of them that are placed. It has room for all lines, so that placing and taking
/// back take no memory.
#[derive(Debug, Drop)]
pub(crate) struct SegmentPrefix {
    /// The lines of the segment, rising.
    lines: Vec<LineId>,
    /// The placed lines, left to right.
    placed: Vec<LineId>,
    /// The place of each line of the segment, or that it has none.
    places: Vec<u32>,
}

impl Model for SegmentPrefix {
    ghost use Rattle.std.specs.Prelude.{vec_capacity};
    ghost use Rattle.order_model.specs.Prefixes.{SegmentPlacement, segment_placement, IsKept};

    ghost Value = { SegmentPlacement };

    ghost view = { λ p. segment_placement p.lines.items p.placed.items };

    ghost invariant = { λ p. IsKept p.lines.items p.placed.items (vec_capacity p.placed) p.places.items };
}

impl SegmentPrefix {
    /// A segment of these lines before any is chosen.
    pub(crate) fn unchosen(alloc: Global, lines: &[LineId]) -> Result<SegmentPrefix, NoMemory>
        requires rising { AreRising lines.now }
        requires short { length lines.now < no_place }
        ensures { IfOk result (λ p. p ≡ unchosen lines.now) }
    {
        let mut placed = Vec::with_capacity(alloc, lines.len())?;
        let mut places = vec![in alloc; NO_PLACE; lines.len()]?;
        let copy = lines.to_vec(alloc)?;
        put_last(&mut placed, &mut places, lines);
        Ok(SegmentPrefix {
            lines: copy,
            placed,
            places,
        })
    }

    /// Places a line, and the one that is then left.
    pub(crate) fn place(&mut self, line: LineId)
        requires line { Contains self.old.lines line }
        requires unplaced { is_placed self.old.placed line ≡ false }
        ensures placed { self.new ≡ segment_placement self.old.lines (with_line self.old.lines self.old.placed line) }
        ensures fits { ArePlacedLines self.new.lines self.new.placed }
    {
        put_line(
            &mut self.placed,
            &mut self.places,
            self.lines.as_slice(),
            line,
        );
    }

    /// Takes back what the last placing placed.
    pub(crate) fn take_back(&mut self)
        requires some { length (first_placed self.old.lines) < length self.old.placed }
        ensures placed { self.new ≡ segment_placement self.old.lines (without_last self.old.lines self.old.placed) }
        ensures fits { ArePlacedLines self.new.lines self.new.placed }
    {
        take_last(&mut self.placed, &mut self.places, self.lines.as_slice());
    }

    /// The placed lines, left to right.
    pub(crate) fn placed(&self) -> &[LineId]
        ensures { result.now ≡ self.now.placed }
    {
        self.placed.as_slice()
    }

    /// The place of each line of the segment among the placed ones, or that it has none.
    pub(crate) fn places(&self) -> &[u32]
        ensures places { result.now ≡ places_in self.now.lines self.now.placed }
        ensures short { length self.now.placed < no_place }
    {
        self.places.as_slice()
    }

    /// The place of a line of the segment among the placed ones, or that it has none.
    fn place_of(&self, line: LineId) -> u32
        requires { Contains self.now.lines line }
        ensures place { result ≡ place_in self.now.placed line }
        ensures short { length self.now.placed < no_place }
        ensures apart { AreApart self.now.placed }
    {
        self.places[rank(self.lines.as_slice(), line)]
    }

    /// Whether one of two lines of the segment is placed.
    pub(crate) fn is_decided(&self, a: LineId, b: LineId) -> bool
        requires a_on { Contains self.now.lines a }
        requires b_on { Contains self.now.lines b }
        ensures { result ≡ is_placed self.now.placed a || is_placed self.now.placed b }
    {
        let a_placed = self.place_of(a) != NO_PLACE;
        let b_placed = self.place_of(b) != NO_PLACE;
        a_placed || b_placed
    }

    /// Whether of two different lines of the segment the first is placed, and the second is not or stands behind it.
    pub(crate) fn comes_before(&self, a: LineId, b: LineId) -> bool
        requires a_on { Contains self.now.lines a }
        requires b_on { Contains self.now.lines b }
        requires differ { a.0 ≢ b.0 }
        ensures { result ≡ comes_before self.now.placed a b }
    {
        self.place_of(a) < self.place_of(b)
    }

    /// Whether the first of two different lines of the segment stands first, where that is decided.
    pub(crate) fn stands_first(&self, a: LineId, b: LineId) -> Option<bool>
        requires a_on { Contains self.now.lines a }
        requires b_on { Contains self.now.lines b }
        requires differ { a.0 ≢ b.0 }
        ensures { result ≡ first_of self.now.placed a b }
    {
        if self.placed.is_empty() {
            return None;
        }
        first_at(self.place_of(a), self.place_of(b))
    }

    /// Whether two different lines of the segment are neighbours, where that is settled.
    pub(crate) fn neighbours(&self, a: LineId, b: LineId) -> Option<bool>
        requires a_on { Contains self.now.lines a }
        requires b_on { Contains self.now.lines b }
        requires differ { a.0 ≢ b.0 }
        ensures { result ≡ neighbours_on self.now.lines self.now.placed a b }
    {
        let i = self.place_of(a);
        let j = self.place_of(b);
        neighbours_at(i, j, self.placed.len(), self.lines.len())
    }

    /// Whether a line is one of the segment's, and is not placed.
    pub(crate) fn is_left(&self, line: LineId) -> bool
        ensures { result ≡ is_left self.now.lines self.now.placed line }
    {
        if self.placed.len() == self.lines.len() {
            return false;
        }
        is_left_on(self.lines.as_slice(), self.places.as_slice(), line)
    }
}

/// Whether the first of two lines stands first, by their places.
fn first_at(i: u32, j: u32) -> Option<bool>
    ensures { result ≡ first_at i j }
{
    if i == NO_PLACE {
        if j == NO_PLACE {
            return None;
        }
    }
    Some(i < j)
}

/// Whether two lines are neighbours, by their places, where so many lines of so many are placed.
fn neighbours_at(i: u32, j: u32, placed: usize, lines: usize) -> Option<bool>
    requires { placed < no_place }
    ensures { result ≡ neighbours_at i j placed lines }
{
    if i != NO_PLACE && j != NO_PLACE {
        return Some(are_adjacent(i, j));
    }
    if i != NO_PLACE {
        return beside_unplaced_at(i, placed);
    }
    if j != NO_PLACE {
        return beside_unplaced_at(j, placed);
    }
    if placed + 2 == lines {
        Some(true)
    } else {
        None
    }
}

/// Whether the line at a place, behind which so many are placed in all, is a neighbour of one that is not placed.
fn beside_unplaced_at(i: u32, placed: usize) -> Option<bool>
    requires { i < no_place }
    ensures { result ≡ beside_unplaced_at i placed }
{
    if i as usize + 1 == placed {
        None
    } else {
        Some(false)
    }
}

/// Places a line, and the one that is then left.
fn put_line(placed: &mut Vec<LineId>, places: &mut Vec<u32>, lines: &[LineId], line: LineId)
    requires rising { AreRising lines.now }
    requires short { length lines.now < no_place }
    requires fits { ArePlacedLines lines.now placed.old.items }
    requires places { places.old.items ≡ places_in lines.now placed.old.items }
    requires line { Contains lines.now line }
    requires unplaced { is_placed placed.old.items line ≡ false }
    requires room { length lines.now ≤ vec_capacity placed.old }
    ensures items { placed.new.items ≡ with_line lines.now placed.old.items line }
    ensures fits { ArePlacedLines lines.now placed.new.items }
    ensures places { places.new.items ≡ places_in lines.now placed.new.items }
    ensures room { length lines.now ≤ vec_capacity placed.new }
{
    push_at(placed, places, lines, rank(lines, line), line);
    put_last(placed, places, lines);
}

/// Where just one line is not placed, places it too.
fn put_last(placed: &mut Vec<LineId>, places: &mut Vec<u32>, lines: &[LineId])
    requires rising { AreRising lines.now }
    requires short { length lines.now < no_place }
    requires places { places.old.items ≡ places_in lines.now placed.old.items }
    requires few { vec_len placed.old ≤ length lines.now }
    requires room { length lines.now ≤ vec_capacity placed.old }
    ensures items { placed.new.items ≡ with_last lines.now placed.old.items }
    ensures places { places.new.items ≡ places_in lines.now placed.new.items }
    ensures room { length lines.now ≤ vec_capacity placed.new }
{
    if placed.len() + 1 == lines.len() {
        put_first_unplaced(placed, places, lines);
    }
}

/// Places the first line that is not placed.
fn put_first_unplaced(placed: &mut Vec<LineId>, places: &mut Vec<u32>, lines: &[LineId])
    requires rising { AreRising lines.now }
    requires short { length lines.now < no_place }
    requires places { places.old.items ≡ places_in lines.now placed.old.items }
    requires left { vec_len placed.old < length lines.now }
    requires room { vec_len placed.old < vec_capacity placed.old }
    ensures items { placed.new.items ≡ placed.old.items ++ option_to_list (find (is_unplaced placed.old.items) lines.now) }
    ensures places { places.new.items ≡ places_in lines.now placed.new.items }
    ensures room { vec_capacity placed.old ≤ vec_capacity placed.new }
{
    if let Some(i) = first_unplaced(places) {
        push_at(placed, places, lines, i, lines[i]);
    }
}

/// Where in a table of places the first line stands that has none.
fn first_unplaced(places: &[u32]) -> Option<usize>
    ensures { result ≡ first_without_place places.now }
{
    for (i, place) in places.iter().enumerate() {
        if *place == NO_PLACE {
            return Some(i);
        }
    }
    None
}

/// Places the line of this rank.
fn push_at(
    placed: &mut Vec<LineId>,
    places: &mut Vec<u32>,
    lines: &[LineId],
    i: usize,
    line: LineId,
)
    requires rising { AreRising lines.now }
    requires short { length lines.now < no_place }
    requires within { i < length lines.now }
    requires line { line ≡ slice_index_or lines.now i line }
    requires places { places.old.items ≡ places_in lines.now placed.old.items }
    requires unplaced { is_placed placed.old.items line ≡ false }
    requires left { vec_len placed.old < length lines.now }
    requires room { vec_len placed.old < vec_capacity placed.old }
    ensures items { placed.new.items ≡ placed.old.items ++ line ∷ [] }
    ensures places { places.new.items ≡ places_in lines.now placed.new.items }
    ensures room { vec_capacity placed.old ≤ vec_capacity placed.new }
{
    places[i] = placed.len() as u32;
    let _ = placed.push(line);
}

/// Takes back what the last placing placed.
fn take_last(placed: &mut Vec<LineId>, places: &mut Vec<u32>, lines: &[LineId])
    requires rising { AreRising lines.now }
    requires fits { ArePlacedLines lines.now placed.old.items }
    requires places { places.old.items ≡ places_in lines.now placed.old.items }
    requires some { length (first_placed lines.now) < vec_len placed.old }
    ensures items { placed.new.items ≡ without_last lines.now placed.old.items }
    ensures places { places.new.items ≡ places_in lines.now placed.new.items }
    ensures room { vec_capacity placed.new ≡ vec_capacity placed.old }
{
    let both = placed.len() == lines.len();
    take_one(placed, places, lines);
    if both {
        take_one(placed, places, lines);
    }
}

/// Takes back the last placed line.
fn take_one(placed: &mut Vec<LineId>, places: &mut Vec<u32>, lines: &[LineId])
    requires rising { AreRising lines.now }
    requires known { All (Contains lines.now) placed.old.items }
    requires apart { AreApart placed.old.items }
    requires places { places.old.items ≡ places_in lines.now placed.old.items }
    requires some { 0 < vec_len placed.old }
    ensures items { placed.new.items ≡ take (vec_len placed.old - 1) placed.old.items }
    ensures places { places.new.items ≡ places_in lines.now placed.new.items }
    ensures room { vec_capacity placed.new ≡ vec_capacity placed.old }
{
    let last = placed.len() - 1;
    places[rank(lines, placed[last])] = NO_PLACE;
    placed.truncate(last);
}

/// Whether a line is one of a segment's, and has no place in its table.
fn is_left_on(lines: &[LineId], places: &[u32], line: LineId) -> bool
    requires rising { AreRising lines.now }
    requires each { length places.now ≡ length lines.now }
    ensures { result ≡ is_left_by lines.now places.now line }
{
    if lines.is_empty() {
        return false;
    }
    let i = rank(lines, line);
    if lines[i] != line {
        return false;
    }
    places[i] == NO_PLACE
}
