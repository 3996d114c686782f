//! Where a walk under way stands, and the numbers of these spots.

ghost use Rattle.std.specs.Prelude.{◌≡◌, ◌+◌, ◌*◌, ◌<◌, ◌≤◌, true};
ghost use Rattle.grid_board.specs.Boards.{contains, AreBounds};
ghost use Rattle.walk_search.specs.Spots.{number_of_place, number_of_spot, spot_of, spots_of};

use grid_board::Bounds;
use octi_grid::GridPoint;

/// Where a walk under way stands: its point; the number of the direction in which it came there, and 8 at its start;
/// and the group of walks that it is in.
#[derive(Clone, Copy, Debug, PartialEq, Eq)]
pub(crate) struct Spot {
    pub at: GridPoint,
    pub arrival: u8,
    pub group: u8,
}

/// How many spots there are within bounds.
pub(crate) fn spots_of(bounds: Bounds) -> u32
    requires { AreBounds bounds }
    ensures value { result ≡ spots_of bounds }
    ensures within { result ≤ 1440720090 }
{
    90 * bounds.cells()
}

/// The number of the place of a group of walks at a point.
pub(crate) fn number_of_place(bounds: Bounds, p: GridPoint, group: u8) -> u32
    requires bounds { AreBounds bounds }
    requires inside { contains bounds p ≡ true }
    requires group { group < 10 }
    ensures value { result ≡ number_of_place bounds p group }
    ensures within { result * 9 + 9 ≤ spots_of bounds }
{
    bounds.cell_of(p) * 10 + u32::from(group)
}

/// The number of a spot.
pub(crate) fn number_of_spot(bounds: Bounds, spot: Spot) -> u32
    requires bounds { AreBounds bounds }
    requires inside { contains bounds spot.at ≡ true }
    requires arrival { spot.arrival < 9 }
    requires group { spot.group < 10 }
    ensures value { result ≡ number_of_spot bounds spot }
    ensures within { result < spots_of bounds }
{
    number_of_place(bounds, spot.at, spot.group) * 9 + u32::from(spot.arrival)
}

/// The spot of a number, and none before a seat is chosen.
pub(crate) fn spot_of(bounds: Bounds, n: u32) -> Option<Spot>
    requires bounds { AreBounds bounds }
    requires within { n < spots_of bounds + 1 }
    ensures { result ≡ spot_of bounds n }
{
    if n == spots_of(bounds) {
        return None;
    }
    Some(Spot {
        at: bounds.point_of(n / 90),
        arrival: (n % 9) as u8,
        group: (n / 9 % 10) as u8,
    })
}
