//! The walk along known costs.

ghost use Rattle.std.specs.Prelude.{◌≡◌, ℕ, ◌+◌, ◌<◌, ◌↔◌, Some, IsTrue, IfOk, IfSome, IfNone, length};
ghost use Rattle.track_net.specs.Nets.{HasEdge, IsNet};
ghost use Rattle.net_paths.specs.Walking.{DifferBy, IsLeastStep, IsWalked, KeepsCost};

use crate::corridor::Corridor;
use crate::costs::cost_between;
use crate::known::Known;
use map_base::NoMemory;
use std::alloc::Global;
use track_net::Net;

/// Goes from a point along the known costs, each time to the least of the points to which an edge keeps the cost,
/// until no edge does.
pub(crate) fn walk(
    alloc: Global,
    net: &Net,
    corridor: &Corridor,
    known: &Known,
    from: u32,
) -> Result<Vec<u32>, NoMemory>
    requires kept { IsNet net.now }
    requires from_in_range { from < length net.now.points }
    requires cost_each { length known.now ≡ length net.now.points }
    ensures { IfOk result (λ path. IsWalked corridor.now net.now known.now from path.items) }
{
    let mut path = Vec::new(alloc);
    path.push(from)?;
    let mut at = from;
    while let Some(next) = next_point(net, corridor, known, at) {
        path.push(next)?;
        at = next;
    }
    Ok(path)
}

/// The least point to which an edge keeps the cost.
fn next_point(net: &Net, corridor: &Corridor, known: &Known, at: u32) -> Option<u32>
    requires kept { IsNet net.now }
    requires in_range { at < length net.now.points }
    requires cost_each { length known.now ≡ length net.now.points }
    ensures least { IfSome result (IsLeastStep corridor.now net.now known.now at) }
    ensures none { IfNone result ((other : ℕ) → HasEdge net.now at other → KeepsCost corridor.now net.now known.now at other → ⊥) }
{
    let here = corridor.place_of(net.point(at));
    for next in net.edges_of(at) {
        let cost = cost_between(corridor, here, net.point(*next));
        if differ_by(known.of(at), known.of(*next), cost) {
            return Some(*next);
        }
    }
    None
}

/// Whether two costs are known, and the one is greater than the other by this much.
fn differ_by(greater: Option<u128>, lesser: Option<u128>, by: u128) -> bool
    ensures { IsTrue result ↔ DifferBy greater lesser by }
{
    match greater {
        None => false,
        Some(whole) => match lesser {
            None => false,
            Some(rest) => is_sum(whole, by, rest),
        },
    }
}

/// Whether a number is the sum of two others.
fn is_sum(whole: u128, first: u128, second: u128) -> bool
    ensures { IsTrue result ↔ (whole ≡ first + second) }
{
    if whole < first {
        return false;
    }
    whole - first == second
}
