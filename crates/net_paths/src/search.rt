//! The search for the least costs at which one point can be reached from others.

ghost use Rattle.std.specs.Prelude.{◌≡◌, ◌*◌, ◌<◌, ◌≤◌, ◌↔◌, Some, None, [], IsTrue, OnOk, length, replicate};
ghost use Rattle.std.specs.BinaryHeap.{IsHeap, heap_items};
ghost use Rattle.track_net.specs.Nets.{IsNet, Joins};
ghost use Rattle.net_paths.specs.Searching.{IsSearched, IsSpread, dearest, known_at, queue_cmp};

use crate::corridor::Corridor;
use crate::costs::cost_between;
use crate::known::Known;
use crate::queue::{Queue, lower, next};
use map_base::NoMemory;
use std::alloc::Global;
use track_net::Net;

/// How many points can wait before the queue grows.
const ROOM: usize = 32;

/// Notes, where nothing is known, the least costs at which `to` can be reached, as far as they are no greater than
/// that of `from`. The search goes from `to` outwards and ends where what waits costs more than `from` does.
pub(crate) fn note_costs_to(
    alloc: Global,
    net: &Net,
    corridor: &Corridor,
    from: u32,
    to: u32,
    known: &mut Known,
) -> Result<(), NoMemory>
    requires kept { IsNet net.now }
    requires from_in_range { from < length net.now.points }
    requires to_in_range { to < length net.now.points }
    requires joined { Joins net.now from to }
    requires nothing_known { known.old ≡ replicate (length net.now.points) None }
    ensures { OnOk result (IsSearched corridor.now net.now from to known.new) }
{
    let mut queue = Queue::with_capacity(alloc, ROOM)?;
    search(net, corridor, from, to, known, &mut queue)
}

/// Notes, where nothing is known, the least costs at which `to` can be reached, as far as they are no greater than that
/// of `from`, by a queue in which nothing waits.
fn search(
    net: &Net,
    corridor: &Corridor,
    from: u32,
    to: u32,
    known: &mut Known,
    queue: &mut Queue,
) -> Result<(), NoMemory>
    requires kept { IsNet net.now }
    requires from_in_range { from < length net.now.points }
    requires to_in_range { to < length net.now.points }
    requires joined { Joins net.now from to }
    requires nothing_known { known.old ≡ replicate (length net.now.points) None }
    requires nothing_waits { heap_items queue.old ≡ [] }
    requires order { IsHeap queue_cmp (heap_items queue.old) }
    ensures { OnOk result (IsSearched corridor.now net.now from to known.new) }
{
    lower(known, queue, to, 0)?;
    while let Some((cost, at)) = next(queue, known.of(from)) {
        if is_known(known.of(at), cost) {
            spread(net, corridor, at, cost, known, queue)?;
        }
    }
    Ok(())
}

/// Whether this cost is the known one.
fn is_known(known: Option<u128>, cost: u128) -> bool
    ensures { IsTrue result ↔ (known ≡ Some cost) }
{
    match known {
        None => false,
        Some(least) => least == cost,
    }
}

/// Follows each edge that leads to a point of a known cost: what it costs from its other end is noted there.
fn spread(
    net: &Net,
    corridor: &Corridor,
    at: u32,
    cost: u128,
    known: &mut Known,
    queue: &mut Queue,
) -> Result<(), NoMemory>
    requires kept { IsNet net.now }
    requires in_range { at < length net.now.points }
    requires cost_each { length known.old ≡ length net.now.points }
    requires known { known_at known.old at ≡ Some cost }
    requires bounded { cost ≤ dearest * 100000 }
    requires order { IsHeap queue_cmp (heap_items queue.old) }
    ensures order { OnOk result (IsHeap queue_cmp (heap_items queue.new)) }
    ensures spread { OnOk result (IsSpread corridor.now net.now at cost known.old (heap_items queue.old) known.new (heap_items queue.new)) }
{
    let here = corridor.place_of(net.point(at));
    for next in net.edges_of(at) {
        let step = cost_between(corridor, here, net.point(*next));
        lower(known, queue, *next, cost + step)?;
    }
    Ok(())
}
