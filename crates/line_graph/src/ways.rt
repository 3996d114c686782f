//! The ways of stretches over a net.

ghost use Rattle.std.specs.Prelude.{◌≡◌, ◌≤◌, IfOk};
ghost use Rattle.line_graph.specs.StretchTables.{way_along, ways_over};
ghost use Rattle.line_graph.specs.Premises.{AreAsked, AreLed, IsAsked, IsLed};

use crate::stretches::{Stretch, Stretches};
use map_base::{NoMemory, Point, Sequence};
use net_paths::stretch_path;
use std::alloc::Global;
use track_net::Net;
use way_network::Way;

/// The ways of all stretches, in order. `near` is in decimetres.
pub(crate) fn ways_over(
    alloc: Global,
    table: &Stretches,
    net: &Net,
    near: u32,
) -> Result<Vec<Way>, NoMemory>
    requires asked { AreAsked net.now table.now }
    requires near_high { near ≤ 20000 }
    ensures ways { IfOk result (λ ways. ways.items ≡ ways_over near net.now table.now) }
    ensures led { IfOk result (λ _. AreLed near net.now table.now) }
{
    let mut ways = Vec::new(alloc);
    for place in 0..table.len() {
        let way = way_along(
            alloc,
            table.stretch(place),
            table.corridor(place),
            net,
            near,
        )?;
        ways.push(way)?;
    }
    Ok(ways)
}

/// The way of a stretch: its least path along its corridor, from the lower station.
fn way_along(
    alloc: Global,
    stretch: Stretch,
    corridor: &[Point],
    net: &Net,
    near: u32,
) -> Result<Way, NoMemory>
    requires asked { IsAsked net.now stretch corridor.now }
    requires near_high { near ≤ 20000 }
    ensures way { IfOk result (λ way. way ≡ way_along near net.now stretch corridor.now) }
    ensures led { IfOk result (λ _. IsLed near net.now stretch corridor.now) }
{
    let path = stretch_path(alloc, net, stretch.low, stretch.high, corridor, near)?;
    Ok(Way {
        line: stretch.line,
        points: Sequence::of(path),
    })
}
