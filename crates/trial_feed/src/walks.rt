//! The lines of a trial, drawn one after another.

ghost use Rattle.std.specs.Prelude.{◌≡◌, ◌≤◌, ◌<◌, IfOk, map, Vec};
ghost use Rattle.trial_feed.specs.Lines.{line, lines, stops_of};

use crate::draws::Draws;
use crate::lattice::{Place, line_count, side};
use map_base::NoMemory;
use std::alloc::Global;

/// The stops of a line, drawn on a lattice of this side.
fn line_of(alloc: Global, side: u32, draws: &mut Draws) -> Result<Vec<Place>, NoMemory>
    requires least { 0 < side }
    requires most { side ≤ 20 }
    ensures { IfOk result (λ stops. (stops.items, draws.new.state) ≡ line side draws.old.state) }
{
    let mut place = Place {
        east: (draws.next() % u64::from(side)) as u32,
        north: 0,
    };
    let mut stops = vec![in alloc; place]?;
    while place.is_inside(side) {
        place = place.after(draws.next());
        stops.push(place)?;
    }
    Ok(stops)
}

/// The lines of a trial, each as its stops.
pub fn lines_of(alloc: Global, trial: u32) -> Result<Vec<Vec<Place>>, NoMemory>
    ensures { IfOk result (λ drawn. stops_of drawn.items ≡ lines trial) }
{
    let side = side(trial);
    let mut draws = Draws {
        state: u64::from(trial),
    };
    let mut lines = Vec::new(alloc);
    for _number in 0..line_count(trial) {
        lines.push(line_of(alloc, side, &mut draws)?)?;
    }
    Ok(lines)
}
