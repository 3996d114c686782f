//! The lines that go on from the segments at a node.

ghost use Rattle.std.specs.Prelude.{◌≡◌, ◌<◌, ◌≤◌, ◌++◌, [], ◌∷◌, length, replicate, All, Contains, IfOk, OnOk, slice_index, slice_index_or, slice_set};
ghost use Rattle.order_terms.specs.Terms.{place_in, way};
ghost use Rattle.order_terms.specs.WaysByPlace.{way_lists, with_way, with_ways_by, TellPlaces, IsBetween, AreWays};

use crate::found::Way;
use crate::round_places::place_told;
use graph_core::Join;
use map_base::{LineId, NoMemory, SegId};
use std::alloc::Global;

/// The ways out of each segment of a node's round, by its place there. Those of one segment stand in the order of the
/// node's joins. It looks at each join once, and never searches the round, since a node may have very many of both.
pub(crate) fn ways_around(
    alloc: Global,
    places: &[u32],
    round: &[SegId],
    joins: &[Join],
) -> Result<Vec<Vec<Way>>, NoMemory>
    requires places { TellPlaces round.now places.now }
    requires few { length round.now ≤ 20000 }
    requires joins { All (IsBetween round.now) joins.now }
    ensures { IfOk result (λ lists. AreWays round.now joins.now (way_lists lists.items)) }
{
    let mut lists = no_ways(alloc, round.len())?;
    for join in joins {
        push_ways_by(&mut lists, places, round, *join)?;
    }
    Ok(lists)
}

/// So many lists with no ways.
fn no_ways(alloc: Global, count: usize) -> Result<Vec<Vec<Way>>, NoMemory>
    ensures { IfOk result (λ lists. way_lists lists.items ≡ replicate count []) }
{
    let mut lists = Vec::new(alloc);
    for _ in 0..count {
        lists.push(Vec::new(alloc))?;
    }
    Ok(lists)
}

/// Adds the ways that a join gives its line: out of the one segment on to the other, and back.
fn push_ways_by(
    lists: &mut Vec<Vec<Way>>,
    places: &[u32],
    round: &[SegId],
    join: Join,
) -> Result<(), NoMemory>
    requires places { TellPlaces round.now places.now }
    requires few { length round.now ≤ 20000 }
    requires each { length lists.old.items ≡ length round.now }
    requires join { IsBetween round.now join }
    ensures lists { OnOk result (way_lists lists.new.items ≡ with_ways_by round.now join (way_lists lists.old.items)) }
    ensures each { OnOk result (length lists.new.items ≡ length round.now) }
{
    push_way(lists, places, round, join.line, join.e, join.f)?;
    push_way(lists, places, round, join.line, join.f, join.e)
}

/// Adds the way of a line out of `e` on to `f`.
fn push_way(
    lists: &mut Vec<Vec<Way>>,
    places: &[u32],
    round: &[SegId],
    line: LineId,
    e: SegId,
    f: SegId,
) -> Result<(), NoMemory>
    requires places { TellPlaces round.now places.now }
    requires few { length round.now ≤ 20000 }
    requires each { length lists.old.items ≡ length round.now }
    requires from { Contains round.now e }
    requires to { Contains round.now f }
    ensures lists { OnOk result (way_lists lists.new.items ≡ with_way round.now line e f (way_lists lists.old.items)) }
    ensures each { OnOk result (length lists.new.items ≡ length round.now) }
{
    push_at(lists, place_told(places, e), way(places, round, e, line, f))
}

/// Adds a way to the list at a place.
fn push_at(lists: &mut Vec<Vec<Way>>, place: usize, way: Way) -> Result<(), NoMemory>
    requires { place < length lists.old.items }
    ensures lists { OnOk result (way_lists lists.new.items
        ≡ slice_set (way_lists lists.old.items) place (slice_index_or (way_lists lists.old.items) place [] ++ way ∷ [])) }
    ensures each { OnOk result (length lists.new.items ≡ length lists.old.items) }
{
    let ways = &mut lists[place];
    ways.push(way)?;
    Ok(())
}

/// The way of a line out of `e` on to `f`.
fn way(places: &[u32], round: &[SegId], e: SegId, line: LineId, f: SegId) -> Way
    requires places { TellPlaces round.now places.now }
    requires few { length round.now ≤ 20000 }
    requires from { Contains round.now e }
    requires to { Contains round.now f }
    ensures { result ≡ way round.now e line f }
{
    let turn = (place_told(places, f) + round.len() - place_told(places, e)) % round.len();
    Way { line, to: f, turn }
}

/// The list at the place that the table tells of a segment.
pub(crate) fn ways_of<'a>(lists: &'a [Vec<Way>], places: &[u32], s: SegId) -> &'a [Way]
    requires known { s.0 < length places.now }
    requires within { slice_index places.now s.0 < length lists.now }
    ensures { result.now ≡ slice_index_or (way_lists lists.now) (slice_index places.now s.0) [] }
{
    lists[place_told(places, s)].as_slice()
}
