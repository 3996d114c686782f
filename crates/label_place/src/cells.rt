//! The cells of a coarse grid.

ghost use Rattle.std.specs.Prelude.{◌≡◌, ◌≤◌, ◌<◌, unsigned_abs};
ghost use Rattle.svg_writer.specs.Elements.{AreBounds};
ghost use Rattle.label_place.specs.Grids.{line_of, cells_of};

use svg_writer::Bounds;

/// A cell.
#[derive(Clone, Copy, Debug, PartialEq, Eq, Hash)]
pub(crate) struct Cell {
    pub column: u64,
    pub row: u64,
}

/// The first and the last column and row of a box.
#[derive(Clone, Copy, Debug)]
pub(crate) struct Cells {
    pub left: u64,
    pub right: u64,
    pub top: u64,
    pub bottom: u64,
}

/// The cells of a box, where cells have this side.
pub(crate) fn cells_of(side: u64, b: Bounds) -> Cells
    requires side { 0 < side }
    requires bounds { AreBounds b }
    ensures value { result ≡ cells_of side b }
    ensures right { result.right < 4398046511104 }
    ensures bottom { result.bottom < 4398046511104 }
{
    Cells {
        left: line_of(side, b.left),
        right: line_of(side, b.right),
        top: line_of(side, b.top),
        bottom: line_of(side, b.bottom),
    }
}

/// The column or the row of a coordinate.
fn line_of(side: u64, z: i64) -> u64
    requires side { 0 < side }
    requires small { unsigned_abs z ≤ 1099511627776 }
    ensures value { result ≡ line_of side z }
    ensures small { result < 4398046511104 }
{
    let above = (z + 1099511627776) as u64;
    above / side
}
