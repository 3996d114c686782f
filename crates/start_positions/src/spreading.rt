//! Spreading: on each axis nodes are put nearer to even ranks before they get their homes, so that a dense centre gets
//! room. None comes to lie east or north of one that it lay west or south of.

ghost use Rattle.std.specs.Prelude.{◌≡◌, ◌≤◌, ◌<◌, ◌*◌, ◌/◌, true, false, length, map, IfOk, Contains, IsPermutation};
ghost use Rattle.std.specs.List.Sorted.{IsNonDecreasing};
ghost use Rattle.graph_core.specs.Consistent.{IsConsistent};
ghost use Rattle.start_positions.specs.Spreads.{below, even_place, offset_along, offsets_along, part_way, place_among, place_by, places_of, spread_place, upto};

use crate::cells::{Extents, extents_of, offsets_of};
use crate::placing::Offset;
use graph_core::LineGraph;
use map_base::NoMemory;
use std::alloc::Global;

/// Where a node lies, and its even place.
#[derive(Clone, Copy, Debug, PartialEq, Eq)]
pub struct Place {
    pub at: Offset,
    pub even: Offset,
}

/// Where each node of a graph lies, and its even place.
pub fn places_of(alloc: Global, graph: &LineGraph) -> Result<Vec<Place>, NoMemory>
    ensures places { IfOk result (λ places. places.items ≡ places_of graph.now.places) }
    ensures graph { IsConsistent graph.now }
{
    let extents = extents_of(graph);
    let offsets = offsets_of(alloc, graph, extents)?;
    places_among(alloc, extents, &offsets)
}

/// Where each node at these offsets lies, and its even place.
fn places_among(alloc: Global, extents: Extents, offsets: &[Offset]) -> Result<Vec<Place>, NoMemory>
    requires { length offsets.now ≤ 10000 }
    ensures { IfOk result (λ places. places.items ≡ map (place_among extents.width extents.height offsets.now) offsets.now) }
{
    let easts = rising(alloc, offsets, true)?;
    let norths = rising(alloc, offsets, false)?;
    places_by(alloc, extents, &easts, &norths, offsets)
}

/// Where each node at these offsets lies, and its even place among the numbers on both axes, which rise.
fn places_by(
    alloc: Global,
    extents: Extents,
    easts: &[u32],
    norths: &[u32],
    offsets: &[Offset],
) -> Result<Vec<Place>, NoMemory>
    requires few { length offsets.now ≤ 10000 }
    requires east_order { IsNonDecreasing easts.now }
    requires north_order { IsNonDecreasing norths.now }
    requires easts { IsPermutation (offsets_along true offsets.now) easts.now }
    requires norths { IsPermutation (offsets_along false offsets.now) norths.now }
    ensures { IfOk result (λ places. places.items ≡ map (place_among extents.width extents.height offsets.now) offsets.now) }
{
    let mut places = Vec::with_capacity(alloc, offsets.len())?;
    for offset in offsets {
        places.push(place_by(extents, easts, norths, *offset))?;
    }
    Ok(places)
}

/// Where a node lies, and its even place among the numbers on both axes, which rise.
fn place_by(extents: Extents, easts: &[u32], norths: &[u32], offset: Offset) -> Place
    requires few_easts { length easts.now ≤ 10000 }
    requires few_norths { length norths.now ≤ 10000 }
    requires east_order { IsNonDecreasing easts.now }
    requires north_order { IsNonDecreasing norths.now }
    requires east { Contains easts.now offset.east }
    requires north { Contains norths.now offset.north }
    ensures { result ≡ place_by extents.width extents.height easts.now norths.now offset }
{
    Place {
        at: offset,
        even: Offset {
            east: even_place(easts, extents.width, offset.east),
            north: even_place(norths, extents.height, offset.north),
        },
    }
}

/// How far offsets lie east or north, from the least to the greatest.
fn rising(alloc: Global, offsets: &[Offset], east: bool) -> Result<Vec<u32>, NoMemory>
    ensures order { IfOk result (λ ats. IsNonDecreasing ats.items) }
    ensures same { IfOk result (λ ats. IsPermutation (offsets_along east offsets.now) ats.items) }
{
    let mut ats = offsets_along(alloc, offsets, east)?;
    ats.sort_unstable();
    Ok(ats)
}

/// How far offsets lie east or north, in their order.
fn offsets_along(alloc: Global, offsets: &[Offset], east: bool) -> Result<Vec<u32>, NoMemory>
    ensures { IfOk result (λ ats. ats.items ≡ offsets_along east offsets.now) }
{
    let mut ats = Vec::with_capacity(alloc, offsets.len())?;
    for offset in offsets {
        ats.push(offset_along(*offset, east))?;
    }
    Ok(ats)
}

/// How far an offset lies east or north.
fn offset_along(offset: Offset, east: bool) -> u32
    ensures { result ≡ offset_along east offset }
{
    if east { offset.east } else { offset.north }
}

/// The even place of one of the numbers on an axis, which rise.
fn even_place(ats: &[u32], extent: u32, at: u32) -> u32
    requires order { IsNonDecreasing ats.now }
    requires few { length ats.now ≤ 10000 }
    requires among { Contains ats.now at }
    ensures { result ≡ even_place extent ats.now at }
{
    let count = ats.len() as u32;
    if count == 1 {
        return at;
    }
    let ranks = below(ats, at) + upto(ats, at) - 1;
    part_of(extent, ranks as u32, 2 * (count - 1))
}

/// So many parts of an extent that has so many of them, rounded down.
fn part_of(extent: u32, parts: u32, all: u32) -> u32
    requires some { 0 < all }
    requires parts { parts ≤ all }
    ensures { result ≡ parts * extent / all }
{
    (product(parts, extent) / u64::from(all)) as u32
}

/// The product of two numbers.
fn product(a: u32, b: u32) -> u64
    ensures { result ≡ a * b }
{
    u64::from(a) * u64::from(b)
}

/// How many numbers, which rise, are less than one of them.
fn below(ats: &[u32], at: u32) -> usize
    requires order { IsNonDecreasing ats.now }
    requires among { Contains ats.now at }
    ensures value { result ≡ below ats.now at }
    ensures fewer { result < length ats.now }
{
    ats.partition_point(|a| *a < at)
}

/// How many numbers, which rise, are not greater than one of them.
fn upto(ats: &[u32], at: u32) -> usize
    requires order { IsNonDecreasing ats.now }
    requires among { Contains ats.now at }
    ensures value { result ≡ upto ats.now at }
    ensures some { 0 < result }
    ensures all { result ≤ length ats.now }
{
    ats.partition_point(|a| *a <= at)
}

/// Where nodes are put, so many percent of the way to their even places.
pub(crate) fn spread_offsets(
    alloc: Global,
    places: &[Place],
    percent: u32,
) -> Result<Vec<Offset>, NoMemory>
    requires { percent ≤ 100 }
    ensures { IfOk result (λ offsets. offsets.items ≡ map (spread_place percent) places.now) }
{
    let mut offsets = Vec::with_capacity(alloc, places.len())?;
    for place in places {
        offsets.push(spread_place(*place, percent))?;
    }
    Ok(offsets)
}

/// Where a node is put, so many percent of the way to its even place.
fn spread_place(place: Place, percent: u32) -> Offset
    requires { percent ≤ 100 }
    ensures { result ≡ spread_place percent place }
{
    Offset {
        east: part_way(percent, place.at.east, place.even.east),
        north: part_way(percent, place.at.north, place.even.north),
    }
}

/// So many percent of the way from one number to another.
fn part_way(percent: u32, from: u32, to: u32) -> u32
    requires { percent ≤ 100 }
    ensures { result ≡ part_way percent from to }
{
    let rest = product(100 - percent, from);
    let way = product(percent, to);
    let sum = rest + way;
    (sum / 100) as u32
}
