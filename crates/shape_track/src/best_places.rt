//! The best places of one station, as far as they cost no more than a limit.

ghost use Rattle.std.specs.Prelude.{◌≡◌, ◌+◌, ◌-◌, ◌*◌, ◌/◌, ◌^◌, ◌<◌, ◌≤◌, IfOk, IfSome, OnOk, All, length, unsigned_abs, ◌-ℤ◌};
ghost use Rattle.std.specs.Bool.{MatchBool};
ghost use Rattle.fixed_plane.specs.Plane.{IsInPlane};
ghost use Rattle.shape_track.specs.BestPlaces.{AddsPlace, AreSeen, AreWithin, IsCheap, IsCostFrom, IsDear, IsDescent, IsFalling, IsPlaceFrom, IsRow, LeadsOn, apart_of, entry_at};

use fixed_plane::dist2;
use map_base::{NoMemory, Point};
use std::alloc::Global;

/// How many looks at samples a row may take, and one for each eight samples.
const MOST_LOOKS: usize = 512;

/// How many places a row may have.
const MOST_PLACES: usize = 512;

/// A place, and the least cost of a station that is placed there and of the later ones.
#[derive(Clone, Copy, Debug)]
pub(crate) struct BestPlace {
    pub(crate) place: usize,
    pub(crate) cost: u64,
}

/// How far is looked for places.
#[derive(Clone, Copy, Debug)]
pub(crate) struct Reach {
    /// What costs more is left out, in square decimetres.
    pub(crate) limit: u64,
    /// What is further away than this along an axis costs more than the limit, in decimetres.
    pub(crate) radius: u64,
    /// How far a sample is from the next along an axis, at most, in decimetres.
    pub(crate) gap: u64,
    ghost low: { limit ≤ 2 ^ 62 },
    ghost far: { limit < (radius + 1) * (radius + 1) },
    ghost some: { 0 < gap },
}

/// The best places of a station, falling: each costs no more than those behind it, and no more than the limit.
/// `later` are those of the later stations. There are none where too many samples come into
/// question.
pub(crate) fn best_places_of(
    alloc: Global,
    samples: &[Point],
    station: Point,
    later: &[BestPlace],
    reach: Reach,
) -> Result<Option<Vec<BestPlace>>, NoMemory>
    requires samples_in_plane { All IsInPlane samples.now }
    requires station_in_plane { IsInPlane station }
    requires gaps { AreWithin reach.gap samples.now }
    requires later { IsRow (length samples.now) reach.limit later.now }
    ensures row { IfOk result (λ made. IfSome made (λ row. IsRow (length samples.now) reach.limit row.items)) }
    ensures led { IfOk result (λ made. IfSome made (λ row. LeadsOn samples.now station reach.limit later.now row.items)) }
{
    let mut descent = Descent {
        row: Vec::new(alloc),
        place: samples.len(),
        seen: 0,
    };
    'looks: for _ in 0..MOST_LOOKS + samples.len() / 8 {
        if descent.place == 0 {
            return Ok(Some(descent.row));
        }
        if descent.row.len() > MOST_PLACES {
            return Ok(None);
        }
        descent.step(samples, station, later, reach)?;
    }
    Ok(None)
}

/// The best places of a station, as far as its places are gone through.
#[derive(Drop)]
struct Descent {
    row: Vec<BestPlace>,
    /// The place from which on they are gone through.
    place: usize,
    /// How many of the later places are no lower.
    seen: usize,
}

impl Descent {
    /// Goes through one more place, and through those before it that are too far away.
    fn step(
        &mut self,
        samples: &[Point],
        station: Point,
        later: &[BestPlace],
        reach: Reach,
    ) -> Result<(), NoMemory>
        requires samples_in_plane { All IsInPlane samples.now }
        requires station_in_plane { IsInPlane station }
        requires gaps { AreWithin reach.gap samples.now }
        requires later { IsRow (length samples.now) reach.limit later.now }
        requires some { 0 < self.old.place }
        requires before { IsDescent samples.now station reach.limit later.now self.old.row.items self.old.place self.old.seen }
        ensures { OnOk result (IsDescent samples.now station reach.limit later.now self.new.row.items self.new.place self.new.seen) }
    {
        let place = self.place - 1;
        let sample = samples[place];
        let apart = apart(station, sample);
        if apart > reach.radius {
            self.place = place_past(place, apart, reach);
            return Ok(());
        }
        self.seen = seen_from(later, self.seen, place);
        let rest = cost_seen(later, self.seen, place);
        add(
            &mut self.row,
            place,
            dist2(station, sample),
            rest,
            reach.limit,
        )?;
        self.place = place;
        Ok(())
    }
}

/// The place from which on all up to this one are too far away, where this one is so far away.
fn place_past(place: usize, apart: u64, reach: Reach) -> usize
    requires far { reach.radius < apart }
    ensures { result ≡ place - (apart - reach.radius - 1) / reach.gap }
{
    let places = (apart - reach.radius - 1) / reach.gap;
    place.saturating_sub(places as usize)
}

/// Adds a place, the distance to whose sample has this square, unless it costs more than the limit or the last one.
fn add(
    row: &mut Vec<BestPlace>,
    place: usize,
    square: u64,
    rest: Option<u64>,
    limit: u64,
) -> Result<(), NoMemory>
    requires square { square ≤ 720000000000000000 }
    requires rest { IfSome rest (λ cost. cost ≤ limit) }
    requires limit { limit ≤ 2 ^ 62 }
    ensures { OnOk result (AddsPlace row.old.items row.new.items place square rest limit) }
{
    let Some(rest) = rest else {
        return Ok(());
    };
    let cost = square + rest;
    if is_dear(row, cost, limit) {
        return Ok(());
    }
    row.push(BestPlace { place, cost })?;
    Ok(())
}

/// Whether a cost is above the limit, or above that of the last place.
fn is_dear(row: &[BestPlace], cost: u64, limit: u64) -> bool
    ensures { MatchBool result (IsDear row.now cost limit) (IsCheap row.now cost limit) }
{
    if cost > limit {
        return true;
    }
    let count = row.len();
    if count == 0 {
        return false;
    }
    cost > row[count - 1].cost
}

/// How many places of a row, from the first on, are no lower than a floor, where so many are known to be.
fn seen_from(row: &[BestPlace], seen: usize, floor: usize) -> usize
    requires seen { AreSeen row.now floor seen }
    ensures seen { AreSeen row.now floor result }
    ensures whole { result < length row.now → (entry_at row.now result).place < floor }
{
    for next in seen..row.len() {
        if row[next].place < floor {
            return next;
        }
    }
    row.len()
}

/// The least cost from a floor on, where so many places are no lower.
fn cost_seen(row: &[BestPlace], seen: usize, floor: usize) -> Option<u64>
    requires falling { IsFalling row.now }
    requires seen { AreSeen row.now floor seen }
    requires whole { seen < length row.now → (entry_at row.now seen).place < floor }
    ensures { IsCostFrom row.now floor result }
{
    if seen == 0 {
        None
    } else {
        Some(row[seen - 1].cost)
    }
}

/// The place of a row that is the first one from a floor on.
pub(crate) fn place_from(row: &[BestPlace], floor: usize) -> Option<usize>
    requires falling { IsFalling row.now }
    ensures { IsPlaceFrom row.now floor result }
{
    let seen = seen_from(row, 0, floor);
    if seen == 0 {
        None
    } else {
        Some(row[seen - 1].place)
    }
}

/// How far two points are apart, along the axis along which that is more.
pub(crate) fn apart(a: Point, b: Point) -> u64
    requires a_in_plane { IsInPlane a }
    requires b_in_plane { IsInPlane b }
    ensures value { result ≡ apart_of a b }
    ensures within { result ≤ 600000000 }
{
    distance(a.x, b.x).max(distance(a.y, b.y))
}

/// How far one coordinate is from another.
fn distance(from: i64, to: i64) -> u64
    requires from_in_plane { unsigned_abs from ≤ 300000000 }
    requires to_in_plane { unsigned_abs to ≤ 300000000 }
    ensures value { result ≡ unsigned_abs (to -ℤ from) }
    ensures within { result ≤ 600000000 }
{
    (to - from).unsigned_abs()
}
