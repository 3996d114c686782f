//! Least costs of placing stations, from the last station to the first.

ghost use Rattle.std.specs.Prelude.{◌≡◌, ℕ, ◌+◌, ◌-◌, ◌*◌, ◌^◌, ◌<◌, ◌≤◌, min, IfOk, length, All, nat_le, slice_set, true, false};
ghost use Rattle.fixed_plane.specs.Plane.{IsInPlane};
ghost use Rattle.std.specs.Option.{option_map_or};
ghost use Rattle.fixed_plane.specs.Measures.{dist2_of};
ghost use Rattle.shape_track.specs.Sweeps.{AreBounded, IsSweptDown, taken_at};

use bit_flags::Flags;
use fixed_plane::dist2;
use map_base::{NoMemory, Point};
use std::alloc::Global;

/// Goes through the places of one station, from the last sample down to the first. `costs` has for each
/// place the least cost of the later stations from there on, and afterwards that of this station too. The
/// answer has for each place whether the station is best placed there, among the places from there on.
/// `later` stations were gone through before.
pub(crate) fn swept(
    alloc: Global,
    samples: &[Point],
    station: Point,
    later: usize,
    costs: &mut [u128],
) -> Result<Flags, NoMemory>
    requires samples_in_plane { All IsInPlane samples.now }
    requires station_in_plane { IsInPlane station }
    requires count { length costs.old ≡ length samples.now }
    requires bounded { AreBounded later costs.old }
    ensures count { IfOk result (λ row. length row ≡ length samples.now) }
    ensures bounded { IfOk result (λ _. AreBounded (later + 1) costs.new) }
    ensures swept { IfOk result (λ row. IsSweptDown samples.now station costs.old costs.new row 0) }
{
    let mut row = Flags::none(alloc, samples.len())?;
    let mut next = None;
    for place in (0..samples.len()).rev() {
        let here = cost(station, samples[place], costs[place], later);
        let (least, taken) = lesser(here, next);
        costs[place] = least;
        put(&mut row, place, taken);
        next = Some(least);
    }
    Ok(row)
}

/// Writes down at a place that is not raised whether it is taken.
fn put(row: &mut Flags, place: usize, taken: bool)
    requires within { place < length row.old }
    requires lowered { taken_at row.old place ≡ false }
    ensures { row.new ≡ slice_set row.old place taken }
{
    if taken {
        row.raise(place);
    }
}

/// What it costs to place a station at a sample, and the later ones for `rest`.
fn cost(station: Point, sample: Point, rest: u128, later: usize) -> u128
    requires station_in_plane { IsInPlane station }
    requires sample_in_plane { IsInPlane sample }
    requires bounded { rest ≤ later * 720000000000000000 }
    ensures value { result ≡ dist2_of station sample + rest }
    ensures bounded { result ≤ (later + 1) * 720000000000000000 }
{
    u128::from(dist2(station, sample)) + rest
}

/// The lesser of the cost here and that of a later place, and whether it is the cost here.
fn lesser(here: u128, next: Option<u128>) -> (u128, bool)
    ensures least { result.0 ≡ option_map_or (λ cost. min here cost) next here }
    ensures taken { result.1 ≡ option_map_or (λ cost. nat_le here cost) next true }
{
    match next {
        None => (here, true),
        Some(cost) => {
            if here <= cost {
                (here, true)
            } else {
                (cost, false)
            }
        }
    }
}
