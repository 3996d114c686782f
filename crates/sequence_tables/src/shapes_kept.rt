//! The shapes that are kept: those of at least two points.

ghost use Rattle.std.specs.Prelude.{◌≡◌, ◌≤◌, ◌<◌, ◌^◌, ◌++◌, ◌∷◌, [], false, length, map, nat_le, unwrap_or, IfOk, OnOk, All, if◌then◌else◌};
ghost use Rattle.table_rows.specs.Ids.{is_among, place_among};
ghost use Rattle.sequence_tables.specs.KeptShapes.{point_there, shape_at, kept_ids, shapes_of_ids, AreEachNew};

use map_base::{NoMemory, Sequence};
use ordered_entries::OrderedEntries;
use std::alloc::Global;
use table_rows::{Ids, Slices, small};
use transit_feed::Shape;

/// Shapes with their ids.
#[derive(Drop)]
pub(crate) struct KeptShapes<'a> {
    pub(crate) ids: Ids<'a>,
    pub(crate) shapes: Vec<Shape>,
}

/// The points at some places.
fn points_at(
    alloc: Global,
    places: &[u32],
    points: &[(i64, i64)],
) -> Result<Vec<(i64, i64)>, NoMemory>
    requires { All (λ place. place < length points.now) places.now }
    ensures { IfOk result (λ found. found.items ≡ map (point_there points.now) places.now) }
{
    let mut found = Vec::with_capacity(alloc, places.len())?;
    for k in 0..places.len() {
        found.push(points[places[k] as usize])?;
    }
    Ok(found)
}

/// Keeps the shape whose points stand at some places, where there are at least two.
fn keep<'a>(
    alloc: Global,
    kept: &mut KeptShapes<'a>,
    id: &'a [u8],
    places: &[u32],
    points: &[(i64, i64)],
) -> Result<(), NoMemory>
    requires new { is_among id.now kept.old.ids ≡ false }
    requires within { All (λ place. place < length points.now) places.now }
    ensures ids { OnOk result (kept.new.ids ≡ (if nat_le 2 (length places.now) then kept.old.ids ++ id.now ∷ [] else kept.old.ids)) }
    ensures shapes { OnOk result (kept.new.shapes.items ≡ (if nat_le 2 (length places.now) then kept.old.shapes.items ++ shape_at points.now places.now ∷ [] else kept.old.shapes.items)) }
{
    if 2 <= places.len() {
        let points = Sequence::of(points_at(alloc, places, points)?);
        kept.ids.note(id)?;
        kept.shapes.push(Shape { points })?;
    }
    Ok(())
}

/// The place of an id, or 0.
fn key_of(named: &Ids, id: &[u8]) -> u32
    requires { length named.now ≤ 2 ^ 32 }
    ensures { result ≡ unwrap_or (place_among named.now id.now) 0 }
{
    small(named.place_of(id)).unwrap_or(0)
}

/// The shapes of ids that are kept, with these ids.
pub(crate) fn kept_shapes<'a>(
    alloc: Global,
    named: &Ids,
    ids: &Slices<'a>,
    ordered: &OrderedEntries,
    points: &[(i64, i64)],
) -> Result<KeptShapes<'a>, NoMemory>
    requires few { length named.now ≤ 2 ^ 32 }
    requires new { AreEachNew ids.now }
    requires counted { length points.now ≡ length ordered.now }
    ensures ids { IfOk result (λ kept. kept.ids ≡ kept_ids named.now ordered.now ids.now) }
    ensures shapes { IfOk result (λ kept. kept.shapes.items ≡ shapes_of_ids named.now ordered.now points.now ids.now) }
{
    let mut kept = KeptShapes {
        ids: Ids::new(alloc),
        shapes: Vec::new(alloc),
    };
    for k in 0..ids.len() {
        let id = ids.at(k);
        let places = ordered.places_of(key_of(named, id));
        keep(alloc, &mut kept, id, places, points)?;
    }
    Ok(kept)
}

/// The place of each id among those that are kept.
pub(crate) fn places_among(
    alloc: Global,
    kept: &Ids,
    ids: &Slices,
) -> Result<Vec<Option<u32>>, NoMemory>
    requires { length kept.now ≤ 2 ^ 32 }
    ensures { IfOk result (λ places. places.items ≡ map (place_among kept.now) ids.now) }
{
    let mut places = Vec::with_capacity(alloc, ids.len())?;
    for k in 0..ids.len() {
        places.push(small(kept.place_of(ids.at(k))))?;
    }
    Ok(places)
}
