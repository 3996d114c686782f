//! Costs that are offered to the spots from which others are reached.

ghost use Rattle.std.specs.Prelude.{◌≡◌, ◌+◌, ◌*◌, ◌<◌, ◌≤◌, ◌^◌, ◌==◌, ◌&&◌, OnOk, Some, true, length};
ghost use Rattle.octi_grid.specs.Ways.{CanStep, are_one, reverse_of};
ghost use Rattle.state_search.specs.Searching.{AreLowered, IsLowered};
ghost use Rattle.grid_board.specs.Boards.{is_inside};
ghost use Rattle.walk_search.specs.Spots.{IsSpot, number_of_spot, spot_of, spots_of};
ghost use Rattle.walk_search.specs.Asking.{question};
ghost use Rattle.walk_search.specs.Moves.{direction, ends_of, group_of, is_end, space_of, start_at, starts_of};
ghost use Rattle.walk_search.specs.Offers.{arrival_offers, back_offers, end_offers, offers_at_end, passing_offers, seat_offer, seat_offers, spot_offers, start_offers};
ghost use Rattle.walk_search.specs.Routes.{allows};
ghost use Rattle.state_search.specs.Rows.{IsRowOffered};

use crate::asked::{Asked, START, turn_from};
use crate::directions::direction;
use crate::seats::are_one;
use crate::spots::Spot;
use map_base::NoMemory;
use octi_grid::{Dir, GridPoint, step_cost};
use state_search::{Known, Place, Queue, Row, lower, lower_in};

/// A cost is offered to a spot.
fn offer(
    asked: &Asked,
    spot: Spot,
    cost: u64,
    known: &mut Known,
    queue: &mut Queue,
) -> Result<(), NoMemory>
    requires spot { IsSpot (question asked.now).board.bounds spot }
    requires cost { cost < 2 ^ 40 }
    requires each { length known.old ≡ spots_of (question asked.now).board.bounds + 1 }
    ensures each { OnOk result (length known.new ≡ spots_of (question asked.now).board.bounds + 1) }
    ensures lowered { OnOk result (IsLowered ((space_of (question asked.now)).ahead (number_of_spot (question asked.now).board.bounds spot)) known.old known.new queue.old queue.new (number_of_spot (question asked.now).board.bounds spot) cost) }
{
    let number = asked.number_of(spot);
    lower(
        known,
        queue,
        number,
        cost,
        asked.ahead_at(spot.at, spot.arrival),
    )
}

/// Offers to each spot where a walk may end what it costs to end there.
pub(crate) fn offer_ends(
    asked: &Asked,
    known: &mut Known,
    queue: &mut Queue,
) -> Result<(), NoMemory>
    requires each { length known.old ≡ spots_of (question asked.now).board.bounds + 1 }
    ensures each { OnOk result (length known.new ≡ spots_of (question asked.now).board.bounds + 1) }
    ensures lowered { OnOk result (AreLowered (space_of (question asked.now)).ahead known.old known.new queue.old queue.new (end_offers (question asked.now) (10 * length (ends_of (question asked.now))))) }
{
    for k in 0..10 * asked.end_count() {
        offer_ends_at(asked, asked.end(k / 10), k % 10, known, queue)?;
    }
    Ok(())
}

/// The same for a group of walks at a point, if they may end there.
fn offer_ends_at(
    asked: &Asked,
    p: GridPoint,
    group: u8,
    known: &mut Known,
    queue: &mut Queue,
) -> Result<(), NoMemory>
    requires inside { is_inside (question asked.now).board p ≡ true }
    requires group { group < 10 }
    requires each { length known.old ≡ spots_of (question asked.now).board.bounds + 1 }
    ensures each { OnOk result (length known.new ≡ spots_of (question asked.now).board.bounds + 1) }
    ensures lowered { OnOk result (AreLowered (space_of (question asked.now)).ahead known.old known.new queue.old queue.new (offers_at_end (question asked.now) p group 8)) }
{
    if !asked.is_end(p, group) {
        return Ok(());
    }
    offer_ends_in(asked, p, group, known, queue)
}

/// The same where they may end.
fn offer_ends_in(
    asked: &Asked,
    p: GridPoint,
    group: u8,
    known: &mut Known,
    queue: &mut Queue,
) -> Result<(), NoMemory>
    requires ends { is_end (question asked.now) p group ≡ true }
    requires inside { is_inside (question asked.now).board p ≡ true }
    requires group { group < 10 }
    requires each { length known.old ≡ spots_of (question asked.now).board.bounds + 1 }
    ensures each { OnOk result (length known.new ≡ spots_of (question asked.now).board.bounds + 1) }
    ensures lowered { OnOk result (AreLowered (space_of (question asked.now)).ahead known.old known.new queue.old queue.new (offers_at_end (question asked.now) p group 8)) }
{
    let number = asked.place_of(p, group);
    let cost = asked.to_cost(p);
    let mut row = known.row(number);
    for arrival in 0..START {
        let ahead = asked.ahead_at(p, arrival);
        offer_end(
            asked,
            Place { number, ahead },
            arrival,
            cost,
            &mut row,
            queue,
        )?;
    }
    known.put(number, row)
}

/// The same for one direction of arrival, if a walk may come to its end in it.
fn offer_end(
    asked: &Asked,
    place: Place,
    arrival: u8,
    cost: u64,
    row: &mut Row,
    queue: &mut Queue,
) -> Result<(), NoMemory>
    requires arrival { arrival < 8 }
    requires whole { length row.old.costs ≡ 9 }
    requires place { place.number < 2 ^ 28 }
    requires cost { cost < 2 ^ 40 }
    requires ahead { place.ahead < 2 ^ 40 }
    ensures whole { OnOk result (length row.new.costs ≡ 9) }
    ensures offered { OnOk result (IsRowOffered (allows (question asked.now).to.ports (Some (reverse_of (direction arrival)))) place.number place.ahead row.old.costs row.new.costs queue.old queue.new arrival cost) }
{
    if !asked.allows_end(arrival) {
        return Ok(());
    }
    lower_in(row, queue, place, arrival, cost)
}

/// Offers to each spot from which a step or the choice of a seat leads to a spot what it costs by that step.
pub(crate) fn offer_back(
    asked: &Asked,
    at: u32,
    cost: u64,
    known: &mut Known,
    queue: &mut Queue,
) -> Result<(), NoMemory>
    requires at { at < spots_of (question asked.now).board.bounds + 1 }
    requires cost { cost < 2 ^ 39 }
    requires each { length known.old ≡ spots_of (question asked.now).board.bounds + 1 }
    ensures each { OnOk result (length known.new ≡ spots_of (question asked.now).board.bounds + 1) }
    ensures lowered { OnOk result (AreLowered (space_of (question asked.now)).ahead known.old known.new queue.old queue.new (spot_offers (question asked.now) (spot_of (question asked.now).board.bounds at) cost)) }
{
    match asked.spot_of(at) {
        None => Ok(()),
        Some(spot) => offer_from(asked, spot, cost, known, queue),
    }
}

/// The same for a spot.
fn offer_from(
    asked: &Asked,
    spot: Spot,
    cost: u64,
    known: &mut Known,
    queue: &mut Queue,
) -> Result<(), NoMemory>
    requires spot { IsSpot (question asked.now).board.bounds spot }
    requires cost { cost < 2 ^ 39 }
    requires each { length known.old ≡ spots_of (question asked.now).board.bounds + 1 }
    ensures each { OnOk result (length known.new ≡ spots_of (question asked.now).board.bounds + 1) }
    ensures lowered { OnOk result (AreLowered (space_of (question asked.now)).ahead known.old known.new queue.old queue.new (spot_offers (question asked.now) (Some spot) cost)) }
{
    if spot.arrival == START {
        return offer_seats(asked, spot, cost, known, queue);
    }
    let dir = direction(spot.arrival);
    let back = spot.at.step(dir.reverse());
    offer_step(asked, back, spot.group, dir, cost, known, queue)
}

/// Offers to what comes before the choice of a seat what a spot at a start costs with its seat.
fn offer_seats(
    asked: &Asked,
    spot: Spot,
    cost: u64,
    known: &mut Known,
    queue: &mut Queue,
) -> Result<(), NoMemory>
    requires cost { cost < 2 ^ 39 }
    requires each { length known.old ≡ spots_of (question asked.now).board.bounds + 1 }
    ensures each { OnOk result (length known.new ≡ spots_of (question asked.now).board.bounds + 1) }
    ensures lowered { OnOk result (AreLowered (space_of (question asked.now)).ahead known.old known.new queue.old queue.new (seat_offers (question asked.now) spot cost (length (starts_of (question asked.now))))) }
{
    for i in 0..asked.start_count() {
        offer_seat(asked, spot, cost, i, known, queue)?;
    }
    Ok(())
}

/// The same for one seat, if the spot is at that seat.
fn offer_seat(
    asked: &Asked,
    spot: Spot,
    cost: u64,
    i: u8,
    known: &mut Known,
    queue: &mut Queue,
) -> Result<(), NoMemory>
    requires i { i < length (starts_of (question asked.now)) }
    requires cost { cost < 2 ^ 39 }
    requires each { length known.old ≡ spots_of (question asked.now).board.bounds + 1 }
    ensures each { OnOk result (length known.new ≡ spots_of (question asked.now).board.bounds + 1) }
    ensures lowered { OnOk result (AreLowered (space_of (question asked.now)).ahead known.old known.new queue.old queue.new (seat_offer (question asked.now) spot cost i)) }
{
    if !starts_at(asked, spot, i) {
        return Ok(());
    }
    lower(
        known,
        queue,
        asked.before(),
        cost + (asked.start_cost(i) + 1),
        0,
    )
}

/// Whether a spot is that of a seat.
fn starts_at(asked: &Asked, spot: Spot, i: u8) -> bool
    requires { i < length (starts_of (question asked.now)) }
    ensures { result ≡ (are_one (start_at (question asked.now) i) spot.at && group_of (question asked.now) i == spot.group) }
{
    are_one(asked.start(i), spot.at) && asked.group_of(i) == spot.group
}

/// Offers to the spots at a point what it costs to go on by a step, if a step may be made there.
fn offer_step(
    asked: &Asked,
    p: GridPoint,
    group: u8,
    dir: Dir,
    cost: u64,
    known: &mut Known,
    queue: &mut Queue,
) -> Result<(), NoMemory>
    requires p { CanStep p }
    requires group { group < 10 }
    requires cost { cost < 2 ^ 39 }
    requires each { length known.old ≡ spots_of (question asked.now).board.bounds + 1 }
    ensures each { OnOk result (length known.new ≡ spots_of (question asked.now).board.bounds + 1) }
    ensures lowered { OnOk result (AreLowered (space_of (question asked.now)).ahead known.old known.new queue.old queue.new (back_offers (question asked.now) p group dir cost)) }
{
    if !asked.is_open(p, dir) {
        return Ok(());
    }
    offer_passing(asked, p, group, dir, cost, known, queue)?;
    offer_start(asked, p, group, dir, cost, known, queue)
}

/// Offers to the spots at a point, by each direction of arrival, if a walk may go on there.
fn offer_passing(
    asked: &Asked,
    p: GridPoint,
    group: u8,
    dir: Dir,
    cost: u64,
    known: &mut Known,
    queue: &mut Queue,
) -> Result<(), NoMemory>
    requires inside { is_inside (question asked.now).board p ≡ true }
    requires group { group < 10 }
    requires cost { cost < 2 ^ 39 }
    requires each { length known.old ≡ spots_of (question asked.now).board.bounds + 1 }
    ensures each { OnOk result (length known.new ≡ spots_of (question asked.now).board.bounds + 1) }
    ensures lowered { OnOk result (AreLowered (space_of (question asked.now)).ahead known.old known.new queue.old queue.new (passing_offers (question asked.now) p group dir cost)) }
{
    if !asked.is_passable(p) {
        return Ok(());
    }
    offer_arrivals(asked, p, group, dir, cost, known, queue)
}

/// The same where a walk may go on.
fn offer_arrivals(
    asked: &Asked,
    p: GridPoint,
    group: u8,
    dir: Dir,
    cost: u64,
    known: &mut Known,
    queue: &mut Queue,
) -> Result<(), NoMemory>
    requires inside { is_inside (question asked.now).board p ≡ true }
    requires group { group < 10 }
    requires cost { cost < 2 ^ 39 }
    requires each { length known.old ≡ spots_of (question asked.now).board.bounds + 1 }
    ensures each { OnOk result (length known.new ≡ spots_of (question asked.now).board.bounds + 1) }
    ensures lowered { OnOk result (AreLowered (space_of (question asked.now)).ahead known.old known.new queue.old queue.new (arrival_offers (question asked.now) p group dir cost 8)) }
{
    let number = asked.place_of(p, group);
    let step = u64::from(step_cost(dir));
    let mut row = known.row(number);
    for arrival in 0..START {
        let whole = cost + (step + turn_from(arrival, dir));
        let ahead = asked.ahead_at(p, arrival);
        lower_in(&mut row, queue, Place { number, ahead }, arrival, whole)?;
    }
    known.put(number, row)
}

/// Offers to the spot of a walk that starts at a point, if one may start there by this port.
fn offer_start(
    asked: &Asked,
    p: GridPoint,
    group: u8,
    dir: Dir,
    cost: u64,
    known: &mut Known,
    queue: &mut Queue,
) -> Result<(), NoMemory>
    requires inside { is_inside (question asked.now).board p ≡ true }
    requires group { group < 10 }
    requires cost { cost < 2 ^ 39 }
    requires each { length known.old ≡ spots_of (question asked.now).board.bounds + 1 }
    ensures each { OnOk result (length known.new ≡ spots_of (question asked.now).board.bounds + 1) }
    ensures lowered { OnOk result (AreLowered (space_of (question asked.now)).ahead known.old known.new queue.old queue.new (start_offers (question asked.now) p group dir cost)) }
{
    if !asked.allows_start(p, group, dir) {
        return Ok(());
    }
    let spot = Spot {
        at: p,
        arrival: START,
        group,
    };
    let whole = cost + (u64::from(step_cost(dir)) + turn_from(START, dir));
    offer(asked, spot, whole, known, queue)
}
