//! Stretch paths.

ghost use Rattle.std.specs.Prelude.{◌≡◌, ◌<◌, ◌≤◌, IfOk, All};
ghost use Rattle.fixed_plane.specs.Plane.{IsInPlane};
ghost use Rattle.track_net.specs.Nets.{Joins};
ghost use Rattle.net_paths.specs.Choices.{stretch_path_of};
ghost use Rattle.net_paths.specs.Stretches.{IsStretchPath};

use crate::corridor::Corridor;
use crate::known::Known;
use crate::search::note_costs_to;
use crate::walk::walk;
use map_base::{NoMemory, Point};
use std::alloc::Global;
use track_net::Net;

/// The least path over a net between two of its points, as the list of their numbers from the lower one on. An
/// edge costs the square of its length where both its ends are nearer than four times `near` to some sample of the
/// corridor, else eight times that. Of the paths of the least cost it is the one whose list of numbers comes first
/// in the order of dictionaries. All lengths are in decimetres.
pub fn stretch_path(
    alloc: Global,
    net: &Net,
    from: u32,
    to: u32,
    corridor: &[Point],
    near: u32,
) -> Result<Vec<u32>, NoMemory>
    requires order { from < to }
    requires joined { Joins net.now from to }
    requires corridor_in_plane { All IsInPlane corridor.now }
    requires near_high { near ≤ 20000 }
    ensures path { IfOk result (λ path. IsStretchPath near corridor.now net.now from to path.items) }
    ensures chosen { IfOk result (λ path. path.items ≡ stretch_path_of near corridor.now net.now from to) }
{
    let mut known = Known::none(alloc, net.len())?;
    let corridor = Corridor::along(alloc, corridor, near)?;
    note_costs_to(alloc, net, &corridor, from, to, &mut known)?;
    walk(alloc, net, &corridor, &known, from)
}
