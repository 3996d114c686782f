//! The terms of a part by segment, kind and line.

ghost use mathlib.Core.Bool.{beq};
ghost use Rattle.std.specs.Prelude.{◌≡◌, ◌≢◌, ◌<◌, ◌≤◌, ◌==◌, ◌&&◌, ◌||◌, ◌++◌, [], ◌∷◌, length, IfSome, OnOk, Option, position, if◌then◌else◌};
ghost use Rattle.order_check.specs.declared.spot.Spot.{Spot};
ghost use Rattle.order_check.specs.Spots.{is_at, is_either, is_spot, listed, pair_term, spot_term, term_lists, with_term, AreTwo, IsSpotTable};

use indexmap::IndexSet;
use map_base::{LineId, NoMemory, SegId};
use order_model::Term;
use std::alloc::Global;

/// A line on a segment, with the Aparts there, or with the other terms.
#[derive(Clone, Copy, Debug, PartialEq, Eq, Hash)]
pub(crate) struct Spot {
    /// The segment.
    pub(crate) seg: SegId,
    /// Whether its terms are Aparts.
    pub(crate) apart: bool,
    /// The line.
    pub(crate) line: LineId,
}

/// A term at a spot.
#[derive(Clone, Copy, Debug)]
pub(crate) struct SpotTerm {
    /// Its place among the terms of its part.
    pub(crate) place: u32,
    /// Its line that isn't the spot's.
    pub(crate) other: LineId,
}

/// The terms at each spot, on its segment, of its kind and of its line, in their order. A spot where there is none isn't
/// listed.
#[derive(Drop)]
pub(crate) struct SpotTable {
    /// The spots.
    pub(crate) spots: IndexSet<Spot>,
    /// The terms at each.
    pub(crate) lists: Vec<Vec<SpotTerm>>,
}

/// A table in which no spot is listed.
pub(crate) fn no_spots(alloc: Global) -> SpotTable
    ensures { IsSpotTable [] result.spots.keys (term_lists result.lists.items) }
{
    SpotTable {
        spots: IndexSet::new(alloc),
        lists: Vec::new(alloc),
    }
}

/// The place of a spot in the table.
pub(crate) fn place_of(table: &SpotTable, spot: Spot) -> Option<usize>
    ensures place { result ≡ position (is_spot spot) table.now.spots.keys }
    ensures within { IfSome result (λ k. k < length table.now.spots.keys) }
{
    table.spots.get_index_of(&spot)
}

/// Lists the term at a place at each of its spots.
pub(crate) fn list_term(
    alloc: Global,
    table: &mut SpotTable,
    place: u32,
    term: Term,
) -> Result<(), NoMemory>
    requires each { length table.old.lists.items ≡ length table.old.spots.keys }
    requires two { AreTwo term }
    ensures each { OnOk result (length table.new.lists.items ≡ length table.new.spots.keys) }
    ensures listed { OnOk result ((u : Spot) → listed table.new.spots.keys (term_lists table.new.lists.items) u
        ≡ listed table.old.spots.keys (term_lists table.old.lists.items) u ++ (if is_at u term then spot_term place u term ∷ [] else [])) }
{
    match term {
        Term::Side {
            seg,
            first,
            second,
            ..
        } => {
            list_on(alloc, table, place, seg, false, first, second)?;
            Ok(())
        }
        Term::Link {
            seg,
            other,
            a,
            b,
            ..
        } => {
            list_on_both(alloc, table, place, seg, other, false, a, b)?;
            Ok(())
        }
        Term::Apart {
            seg,
            other,
            a,
            b,
            ..
        } => {
            list_on_both(alloc, table, place, seg, other, true, a, b)?;
            Ok(())
        }
    }
}

/// Lists a term at two lines of two segments.
fn list_on_both(
    alloc: Global,
    table: &mut SpotTable,
    place: u32,
    seg: SegId,
    other: SegId,
    apart: bool,
    a: LineId,
    b: LineId,
) -> Result<(), NoMemory>
    requires each { length table.old.lists.items ≡ length table.old.spots.keys }
    requires differ { a.0 ≢ b.0 }
    requires two { seg.0 ≢ other.0 }
    ensures each { OnOk result (length table.new.lists.items ≡ length table.new.spots.keys) }
    ensures listed { OnOk result ((u : Spot) → listed table.new.spots.keys (term_lists table.new.lists.items) u
        ≡ listed table.old.spots.keys (term_lists table.old.lists.items) u
        ++ (if (seg.0 == u.seg.0 || other.0 == u.seg.0) && (beq apart u.apart && is_either a b u.line) then pair_term place a b u ∷ [] else [])) }
{
    list_on(alloc, table, place, seg, apart, a, b)?;
    list_on(alloc, table, place, other, apart, a, b)?;
    Ok(())
}

/// Lists a term at two lines of a segment.
fn list_on(
    alloc: Global,
    table: &mut SpotTable,
    place: u32,
    seg: SegId,
    apart: bool,
    a: LineId,
    b: LineId,
) -> Result<(), NoMemory>
    requires each { length table.old.lists.items ≡ length table.old.spots.keys }
    requires differ { a.0 ≢ b.0 }
    ensures each { OnOk result (length table.new.lists.items ≡ length table.new.spots.keys) }
    ensures listed { OnOk result ((u : Spot) → listed table.new.spots.keys (term_lists table.new.lists.items) u
        ≡ listed table.old.spots.keys (term_lists table.old.lists.items) u
        ++ (if seg.0 == u.seg.0 && (beq apart u.apart && is_either a b u.line) then pair_term place a b u ∷ [] else [])) }
{
    list_at(
        alloc,
        table,
        Spot {
            seg,
            apart,
            line: a,
        },
        SpotTerm { place, other: b },
    )?;
    list_at(
        alloc,
        table,
        Spot {
            seg,
            apart,
            line: b,
        },
        SpotTerm { place, other: a },
    )?;
    Ok(())
}

/// Lists a term at a spot.
fn list_at(alloc: Global, table: &mut SpotTable, spot: Spot, t: SpotTerm) -> Result<(), NoMemory>
    requires each { length table.old.lists.items ≡ length table.old.spots.keys }
    ensures each { OnOk result (length table.new.lists.items ≡ length table.new.spots.keys) }
    ensures listed { OnOk result ((u : Spot) → listed table.new.spots.keys (term_lists table.new.lists.items) u
        ≡ listed table.old.spots.keys (term_lists table.old.lists.items) u ++ (if is_spot spot u then t ∷ [] else [])) }
{
    let (k, _) = table.spots.insert_full(spot)?;
    add_to(alloc, &mut table.lists, k, t)?;
    Ok(())
}

/// Adds a term to the list at a place; behind the last one a new one begins with it.
fn add_to(
    alloc: Global,
    lists: &mut Vec<Vec<SpotTerm>>,
    k: usize,
    t: SpotTerm,
) -> Result<(), NoMemory>
    requires { k ≤ length lists.old.items }
    ensures { OnOk result (term_lists lists.new.items ≡ with_term (term_lists lists.old.items) k t) }
{
    if k == lists.len() {
        let mut list = Vec::new(alloc);
        list.push(t)?;
        lists.push(list)?;
        return Ok(());
    }
    lists[k].push(t)?;
    Ok(())
}
