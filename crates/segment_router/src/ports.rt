//! Which ports of a node a segment may have.

ghost use Rattle.std.specs.Prelude.{◌≡◌, ◌<◌, ◌≤◌, ◌^◌, length, slice_index_or, [], if◌then◌else◌, IfSome, Some};
ghost use Rattle.octi_grid.specs.Ways.{number_of};
ghost use Rattle.segment_router.specs.Ports.{allowed_mask, distance_to, is_allowed, port_in, with_port};
ghost use Rattle.segment_router.specs.Tours.{as_tour, ends_well, tour_on, tour_past};

use graph_core::LineGraph;
use map_base::{NodeId, SegId};
use octi_grid::Dir;

/// The ports that a segment may have at a node beside those that other segments of it have, each once: bit `d` for the
/// direction `d`. The ports go once clockwise round the node in the order of its segments, and from each to the next
/// there is room for the segments between.
pub fn allowed_ports(graph: &LineGraph, n: NodeId, seg: SegId, taken: &[(SegId, Dir)]) -> u8
    requires { n.0 < length graph.now.kinds }
    ensures { result ≡ allowed_mask (slice_index_or graph.now.rounds n.0 []) (port_in taken.now) seg }
{
    let round = graph.round(n);
    allowed_bit(round, seg, Dir::N, taken)
        + allowed_bit(round, seg, Dir::NE, taken)
        + allowed_bit(round, seg, Dir::E, taken)
        + allowed_bit(round, seg, Dir::SE, taken)
        + allowed_bit(round, seg, Dir::S, taken)
        + allowed_bit(round, seg, Dir::SW, taken)
        + allowed_bit(round, seg, Dir::W, taken)
        + allowed_bit(round, seg, Dir::NW, taken)
}

/// The bit of a port, where it is allowed.
fn allowed_bit(round: &[SegId], seg: SegId, port: Dir, taken: &[(SegId, Dir)]) -> u8
    ensures bit { result ≡ (if is_allowed round.now (port_in taken.now) seg port then 2 ^ number_of port else 0) }
    ensures within { result ≤ 2 ^ number_of port }
{
    if is_allowed(round, seg, port, taken) {
        bit(port)
    } else {
        0
    }
}

/// The bit of a port.
fn bit(port: Dir) -> u8
    ensures { result ≡ 2 ^ number_of port }
{
    match port {
        Dir::N => 1,
        Dir::NE => 2,
        Dir::E => 4,
        Dir::SE => 8,
        Dir::S => 16,
        Dir::SW => 32,
        Dir::W => 64,
        Dir::NW => 128,
    }
}

/// A segment's place in its round, and its port.
#[derive(Clone, Copy, Debug, PartialEq, Eq)]
pub(crate) struct Stop {
    pub(crate) place: usize,
    pub(crate) port: Dir,
}

/// A tour of the stops of a round: the first and the last one, and how far clockwise the one is from the other.
#[derive(Clone, Copy, Debug, PartialEq, Eq)]
pub(crate) struct Tour {
    pub(crate) first: Stop,
    pub(crate) last: Stop,
    pub(crate) turned: u32,
}

/// Whether a segment may have a port.
fn is_allowed(round: &[SegId], seg: SegId, port: Dir, taken: &[(SegId, Dir)]) -> bool
    ensures { result ≡ is_allowed round.now (port_in taken.now) seg port }
{
    let mut tour = None;
    for (place, s) in round.iter().enumerate() {
        match goes_on(tour, place, port_with(seg, port, taken, *s)) {
            None => return false,
            Some(next) => tour = next,
        }
    }
    match tour {
        None => false,
        Some(tour) => closes(tour, round.len()),
    }
}

/// The tour at the next place of the round; none where it can't go on to the port there.
fn goes_on(tour: Option<Tour>, place: usize, port: Option<Dir>) -> Option<Option<Tour>>
    requires { IfSome tour (λ t. t.turned ≤ 8) }
    ensures tour { result ≡ tour_on tour place port }
    ensures within { IfSome result (λ next. IfSome next (λ t. t.turned ≤ 8)) }
{
    match port {
        None => Some(tour),
        Some(port) => match tour {
            None => Some(Some(begun_at(Stop { place, port }))),
            Some(tour) => gone_on(tour, Stop { place, port }),
        },
    }
}

/// A tour that begins at a stop.
fn begun_at(stop: Stop) -> Tour
    ensures { result ≡ record { first = stop; last = stop; turned = 0 } }
{
    Tour {
        first: stop,
        last: stop,
        turned: 0,
    }
}

/// The tour with one stop more; none where there is no room for the segments between, or it goes more than once round.
fn gone_on(tour: Tour, stop: Stop) -> Option<Option<Tour>>
    requires { tour.turned ≤ 8 }
    ensures tour { result ≡ as_tour (tour_past tour stop) }
    ensures within { IfSome result (λ next. IfSome next (λ t. t.turned ≤ 8)) }
{
    let gap = distance_to(tour.last.port, stop.port);
    let turned = tour.turned + gap;
    if stop.place.saturating_sub(tour.last.place) > gap as usize || turned > 8 {
        return None;
    }
    Some(Some(Tour {
        first: tour.first,
        last: stop,
        turned,
    }))
}

/// Whether the tour goes once round back to the first stop, with room for the segments between.
fn closes(tour: Tour, count: usize) -> bool
    requires turned { tour.turned ≤ 8 }
    requires first { tour.first.place ≤ count }
    requires last { tour.last.place ≤ count }
    ensures { result ≡ ends_well count (Some tour) [] }
{
    let gap = distance_to(tour.last.port, tour.first.port);
    let room = gap as usize;
    let back = count - tour.last.place;
    if back > room {
        return false;
    }
    if tour.first.place > room - back {
        return false;
    }
    tour.turned + gap == 8
}

/// How far clockwise the next of two ports is, in parts of 45 degrees: 8 from a port to itself.
fn distance_to(a: Dir, b: Dir) -> u32
    ensures value { result ≡ distance_to a b }
    ensures within { result ≤ 8 }
{
    u32::from((b.index() + 7 - a.index()) % 8 + 1)
}

/// The port of a segment beside a new one.
fn port_with(seg: SegId, port: Dir, taken: &[(SegId, Dir)], s: SegId) -> Option<Dir>
    ensures { result ≡ with_port seg port (port_in taken.now) s }
{
    if seg == s {
        return Some(port);
    }
    port_in(taken, s)
}

/// The port of a segment, by a list.
fn port_in(taken: &[(SegId, Dir)], s: SegId) -> Option<Dir>
    ensures { result ≡ port_in taken.now s }
{
    for known in taken {
        if known.0 == s {
            return Some(known.1);
        }
    }
    None
}
