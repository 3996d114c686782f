//! Stretches of lines between stations, and their corridors.

ghost use Rattle.std.specs.Prelude.{◌≡◌, ◌<◌, ◌≤◌, OnOk, IfOk, length, map};
ghost use Rattle.line_graph.specs.StretchTables.{corridor_at, extended, stretch_at, stretch_between};

use indexmap::IndexSet;
use map_base::{LineId, NoMemory, Point};
use std::alloc::Global;
use std::marker::Model;

/// What tells a stretch from others.
#[derive(Clone, Copy, Debug, PartialEq, Eq, Hash)]
pub(crate) struct Stretch {
    /// Its line.
    pub(crate) line: LineId,
    /// The lower of the places of its two stations.
    pub(crate) low: u32,
    /// The higher one.
    pub(crate) high: u32,
}

/// The stretch of a line between two stations, either way.
pub(crate) fn stretch_between(line: LineId, from: u32, to: u32) -> Stretch
    ensures { result ≡ stretch_between line from to }
{
    Stretch {
        line,
        low: from.min(to),
        high: from.max(to),
    }
}

/// Stretches in the order of first sight, each with the samples of all its legs.
#[derive(Drop)]
pub(crate) struct Stretches {
    held: IndexSet<Stretch>,
    corridors: Vec<Vec<Point>>,
}

impl Model for Stretches {
    ghost use Rattle.std.specs.Prelude.{◌≡◌, map, length};
    ghost use Rattle.line_graph.specs.StretchTables.{StretchTable};

    ghost Value = { StretchTable };

    ghost view = { λ s. record { stretches = s.held.keys; corridors = map (λ c. c.items) s.corridors.items } };

    ghost invariant = { λ s. length s.held.keys ≡ length s.corridors.items };
}

impl Stretches {
    ghost use Rattle.line_graph.specs.StretchTables.{no_stretches, place_in, with_samples};

    /// No stretch.
    pub(crate) fn none(alloc: Global) -> Stretches
        ensures { result ≡ no_stretches }
    {
        Stretches {
            held: IndexSet::new(alloc),
            corridors: Vec::new(alloc),
        }
    }

    /// These with more samples of a stretch, the last of them where it is new.
    pub(crate) fn with(
        mut self,
        alloc: Global,
        stretch: Stretch,
        samples: &[Point],
    ) -> Result<Stretches, NoMemory>
        ensures { IfOk result (λ made. made ≡ with_samples self stretch samples.now) }
    {
        let (place, _) = self.held.insert_full(stretch)?;
        extend_at(alloc, &mut self.corridors, place, samples)?;
        Ok(self)
    }

    /// How many there are.
    pub(crate) fn len(&self) -> usize
        ensures { result ≡ length self.now.stretches }
    {
        self.held.len()
    }

    /// The stretch at a place.
    pub(crate) fn stretch(&self, place: usize) -> Stretch
        requires { place < length self.now.stretches }
        ensures { result ≡ stretch_at self.now place }
    {
        self.held.as_slice()[place]
    }

    /// The corridor of the stretch at a place.
    pub(crate) fn corridor(&self, place: usize) -> &[Point]
        requires { place < length self.now.stretches }
        ensures { result.now ≡ corridor_at self.now place }
    {
        self.corridors[place].as_slice()
    }

    /// The place of a stretch, or how many there are where it is none of them.
    pub(crate) fn place_of(&self, stretch: Stretch) -> usize
        ensures { result ≡ place_in self.now.stretches stretch }
    {
        self.held.get_index_of(&stretch).unwrap_or(self.held.len())
    }
}

/// Lets the corridor at a place go on with more samples; behind the last one a new one begins with them.
fn extend_at(
    alloc: Global,
    corridors: &mut Vec<Vec<Point>>,
    place: usize,
    samples: &[Point],
) -> Result<(), NoMemory>
    requires { place ≤ length corridors.old.items }
    ensures { OnOk result (map (λ c. c.items) corridors.new.items ≡ extended (map (λ c. c.items) corridors.old.items) place samples.now) }
{
    if place == corridors.len() {
        corridors.push(Vec::from_slice(alloc, samples)?)?;
        return Ok(());
    }
    corridors[place].extend_from_slice(samples)?;
    Ok(())
}
