//! What edges cost along a corridor.

ghost use Rattle.std.specs.Prelude.{◌≡◌, ◌*◌, ◌≤◌};
ghost use Rattle.fixed_plane.specs.Plane.{IsInPlane};
ghost use Rattle.track_net.specs.Nearness.{FindsNear};
ghost use Rattle.net_paths.specs.Corridors.{edge_cost};
ghost use Rattle.net_paths.specs.Searching.{dearest};

use crate::corridor::{Corridor, Place};
use fixed_plane::dist2;
use map_base::Point;

/// What the edge between two points costs, either way: the square of its length where both lie in the corridor, else
/// eight times that.
pub(crate) fn cost_between(corridor: &Corridor, here: Place, there: Point) -> u128
    requires here_in_plane { IsInPlane here.point }
    requires there_in_plane { IsInPlane there }
    requires sample { FindsNear (4 * corridor.now.near) corridor.now.samples here.point here.sample }
    ensures there { result ≡ edge_cost corridor.now.near corridor.now.samples here.point there }
    ensures back { result ≡ edge_cost corridor.now.near corridor.now.samples there here.point }
    ensures within { result ≤ dearest }
{
    let square = u128::from(dist2(here.point, there));
    if corridor.holds_both(here, there) {
        square
    } else {
        8 * square
    }
}
