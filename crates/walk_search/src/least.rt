//! The least free walk between two ends.

ghost use Rattle.std.specs.Prelude.{◌≡◌, ◌≢◌, ◌<◌, ◌^◌, ◌↔◌, IfOk, IfSome, IsTrue, Some, length, true, false};
ghost use Rattle.state_search.specs.Searching.{IsKnownWithin};
ghost use Rattle.walk_search.specs.Routes.{if_within, route, IsRouteUpTo};
ghost use Rattle.grid_board.specs.Boards.{parts_of};
ghost use Rattle.walk_search.specs.Moves.{is_all_or_none};

use crate::asked::Asked;
use crate::ends::End;
use crate::search::note_costs;
use crate::spots::spots_of;
use crate::walk::walk;
use grid_board::Board;
use map_base::NoMemory;
use octi_grid::{GridPoint, Walk, walk_cost};
use state_search::Known;
use std::alloc::Global;

/// The least free walk between two nodes of a board that are both settled: it leaves the one and comes to the other by
/// allowed ports, where bit `d` of a mask allows the port of direction `d`. None where no free walk is.
pub fn least_walk(
    alloc: Global,
    board: &Board,
    from: GridPoint,
    from_ports: u8,
    to: GridPoint,
    to_ports: u8,
) -> Result<Option<Walk>, NoMemory>
    requires from { (parts_of board.now).is_node from ≡ true }
    requires to { (parts_of board.now).is_node to ≡ true }
    requires apart { from ≢ to }
    ensures { IfOk result (λ walk. walk ≡ route (parts_of board.now) (record { at = from; is_free = false; ports = from_ports }) (record { at = to; is_free = false; ports = to_ports })) }
{
    least_settled_walk(alloc, board, from, false, from_ports, to, false, to_ports)
}

/// The least free walk between seats of two nodes of a board: an end that is free may still be put on a seat beside its
/// home, at a cost, and has the mask 0 or 255. None where no free walk is.
pub fn least_settled_walk(
    alloc: Global,
    board: &Board,
    from: GridPoint,
    from_free: bool,
    from_ports: u8,
    to: GridPoint,
    to_free: bool,
    to_ports: u8,
) -> Result<Option<Walk>, NoMemory>
    requires from { (parts_of board.now).is_node from ≡ true }
    requires to { (parts_of board.now).is_node to ≡ true }
    requires apart { from ≢ to }
    requires from_mask { from_free ≡ true → is_all_or_none from_ports ≡ true }
    requires to_mask { to_free ≡ true → is_all_or_none to_ports ≡ true }
    ensures { IfOk result (λ walk. walk ≡ route (parts_of board.now) (record { at = from; is_free = from_free; ports = from_ports }) (record { at = to; is_free = to_free; ports = to_ports })) }
{
    let from = End {
        at: from,
        is_free: from_free,
        ports: from_ports,
    };
    let to = End {
        at: to,
        is_free: to_free,
        ports: to_ports,
    };
    least_between(alloc, board, from, to, None)
}

/// The least free walk between two nodes of a board that are both settled, if it costs at most so much; walks that cost
/// more are not looked for.
pub fn least_walk_within(
    alloc: Global,
    board: &Board,
    from: GridPoint,
    from_ports: u8,
    to: GridPoint,
    to_ports: u8,
    most: u64,
) -> Result<Option<Walk>, NoMemory>
    requires from { (parts_of board.now).is_node from ≡ true }
    requires to { (parts_of board.now).is_node to ≡ true }
    requires apart { from ≢ to }
    requires most { most < 2 ^ 63 }
    ensures { IfOk result (λ walk. walk ≡ if_within most (route (parts_of board.now) (record { at = from; is_free = false; ports = from_ports }) (record { at = to; is_free = false; ports = to_ports }))) }
{
    let from = End {
        at: from,
        is_free: false,
        ports: from_ports,
    };
    let to = End {
        at: to,
        is_free: false,
        ports: to_ports,
    };
    let found = least_between(alloc, board, from, to, Some(most + 1))?;
    Ok(within(found, most))
}

/// A walk, if it costs at most so much.
fn within(found: Option<Walk>, most: u64) -> Option<Walk>
    requires { IfSome found (λ walk. length walk.steps < 2 ^ 60) }
    ensures { result ≡ if_within most found }
{
    match found {
        None => None,
        Some(walk) => {
            if walk_cost(&walk) <= most {
                Some(walk)
            } else {
                None
            }
        }
    }
}

/// The least free walk between two ends, as far as its cost with its seats and one more is within a limit, if there is
/// one.
fn least_between(
    alloc: Global,
    board: &Board,
    from: End,
    to: End,
    limit: Option<u64>,
) -> Result<Option<Walk>, NoMemory>
    requires from { (parts_of board.now).is_node from.at ≡ true }
    requires to { (parts_of board.now).is_node to.at ≡ true }
    requires apart { from.at ≢ to.at }
    requires from_mask { from.is_free ≡ true → is_all_or_none from.ports ≡ true }
    requires to_mask { to.is_free ≡ true → is_all_or_none to.ports ≡ true }
    ensures found { IfOk result (λ walk. IsRouteUpTo limit from to (route (parts_of board.now) from to) walk) }
    ensures short { IfOk result (λ walk. IfSome walk (λ w. length w.steps < 2 ^ 60)) }
{
    let states = spots_of(board.bounds()) as usize + 1;
    let mut known = Known::none(alloc, states);
    let asked = Asked::new(alloc, board, from, to)?;
    note_costs(alloc, &asked, &mut known, limit)?;
    if !is_within(known.of(asked.before()), limit) {
        return Ok(None);
    }
    walk(alloc, &asked, &known)
}

/// Whether a cost is known and within a limit, if there is one.
fn is_within(cost: Option<u64>, limit: Option<u64>) -> bool
    ensures { IsTrue result ↔ IsKnownWithin cost limit }
{
    match cost {
        None => false,
        Some(known) => is_at_most(known, limit),
    }
}

/// Whether a known cost is within a limit, if there is one.
fn is_at_most(known: u64, limit: Option<u64>) -> bool
    ensures { IsTrue result ↔ IsKnownWithin (Some known) limit }
{
    match limit {
        None => true,
        Some(most) => known <= most,
    }
}
