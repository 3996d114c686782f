//! What orders cost, by tables of the places of lines.

ghost use Rattle.std.specs.Prelude.{◌≡◌, ◌<◌, ◌≤◌, length, sum_by, All, IfOk};
ghost use Rattle.order_model.specs.Problems.{IsOn, IsTerm};
ghost use Rattle.order_model.specs.Costs.{cost_of, AreOrders};
ghost use Rattle.order_model.specs.Places.{HavePlaces, place_by, are_adjacent, before_by, beside_by, is_met_by, cost_by, tables_of};

use crate::costs::weight_of;
use crate::places::places_of;
use crate::problem::Problem;
use crate::ranks::rank;
use crate::term::Term;
use map_base::{LineId, NoMemory, SegId, Sequence};
use order_values::Orders;
use std::alloc::Global;

/// What `cost` gives, by tables of the places of lines, which take memory: for problems with long lists. Errs where the
/// allocator has no room for them.
pub fn cost_by_tables(alloc: Global, problem: &Problem, orders: &Orders) -> Result<u64, NoMemory>
    requires { AreOrders problem.now.segs orders.now.lists }
    ensures { IfOk result (λ total. total ≡ cost_of problem.now.terms orders.now.lists) }
{
    let segs = problem.segs();
    let terms = problem.terms();
    let places = places_of(alloc, segs, orders.lists.as_slice())?;
    Ok(total_cost(terms, segs, places.as_slice()))
}

/// The sum of what the terms cost by the places of lines.
fn total_cost(terms: &[Term], segs: &[Sequence<LineId>], places: &[Vec<u32>]) -> u64
    requires terms { All (IsTerm segs.now) terms.now }
    requires places { HavePlaces segs.now (tables_of places.now) }
    requires few { length terms.now ≤ 4000000 }
    ensures { result ≡ sum_by (cost_by segs.now (tables_of places.now)) terms.now }
{
    let mut total: u64 = 0;
    for term in terms {
        total += cost_by(segs, places, *term);
    }
    total
}

/// What one term costs by the places of lines.
fn cost_by(segs: &[Sequence<LineId>], places: &[Vec<u32>], term: Term) -> u64
    requires term { IsTerm segs.now term }
    requires places { HavePlaces segs.now (tables_of places.now) }
    ensures value { result ≡ cost_by segs.now (tables_of places.now) term }
    ensures most { result ≤ 256000 }
{
    if is_met_by(segs, places, term) {
        u64::from(weight_of(term))
    } else {
        0
    }
}

/// Whether a term costs something by the places of lines.
fn is_met_by(segs: &[Sequence<LineId>], places: &[Vec<u32>], term: Term) -> bool
    requires term { IsTerm segs.now term }
    requires places { HavePlaces segs.now (tables_of places.now) }
    ensures { result ≡ is_met_by segs.now (tables_of places.now) term }
{
    match term {
        Term::Side {
            seg,
            first,
            second,
            ..
        } => before_by(segs, places, seg, second, first),
        Term::Link {
            seg,
            other,
            flip,
            a,
            b,
            ..
        } => {
            let before = before_by(segs, places, seg, a, b);
            let before_too = before_by(segs, places, other, a, b);
            flip == (before == before_too)
        }
        Term::Apart {
            seg,
            other,
            a,
            b,
            ..
        } => {
            let together = beside_by(segs, places, seg, a, b);
            let together_too = beside_by(segs, places, other, a, b);
            together != together_too
        }
    }
}

/// Whether by the places of lines one stands before another.
fn before_by(
    segs: &[Sequence<LineId>],
    places: &[Vec<u32>],
    seg: SegId,
    a: LineId,
    b: LineId,
) -> bool
    requires places { HavePlaces segs.now (tables_of places.now) }
    requires known { seg.0 < length segs.now }
    requires a_on { IsOn segs.now seg a }
    requires b_on { IsOn segs.now seg b }
    ensures { result ≡ before_by segs.now (tables_of places.now) seg a b }
{
    place_by(segs, places, seg, a) < place_by(segs, places, seg, b)
}

/// Whether by the places of lines two stand next to each other.
fn beside_by(
    segs: &[Sequence<LineId>],
    places: &[Vec<u32>],
    seg: SegId,
    a: LineId,
    b: LineId,
) -> bool
    requires places { HavePlaces segs.now (tables_of places.now) }
    requires known { seg.0 < length segs.now }
    requires a_on { IsOn segs.now seg a }
    requires b_on { IsOn segs.now seg b }
    ensures { result ≡ beside_by segs.now (tables_of places.now) seg a b }
{
    are_adjacent(
        place_by(segs, places, seg, a),
        place_by(segs, places, seg, b),
    )
}

/// Whether two places stand next to each other.
pub(crate) fn are_adjacent(i: u32, j: u32) -> bool
    ensures { result ≡ are_adjacent i j }
{
    if i < j { j - i == 1 } else { i - j == 1 }
}

/// The place of a line of a segment in the segment's order.
fn place_by(segs: &[Sequence<LineId>], places: &[Vec<u32>], seg: SegId, line: LineId) -> u32
    requires places { HavePlaces segs.now (tables_of places.now) }
    requires known { seg.0 < length segs.now }
    requires on { IsOn segs.now seg line }
    ensures { result ≡ place_by segs.now (tables_of places.now) seg line }
{
    let lines = segs[seg.0 as usize].as_slice();
    let found = places[seg.0 as usize].as_slice();
    found[rank(lines, line)]
}
