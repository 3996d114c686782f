//! Points in square cells, of which some may be near.

ghost use Rattle.std.specs.Prelude.{◌≡◌, ℕ, ◌+◌, ◌%◌, ◌<◌, ◌≤◌, ◌++◌, ◌∷◌, [], IfOk, IfSome, OnOk, All, Contains, length, unsigned_abs, ℤ, if◌then◌else◌};
ghost use Rattle.fixed_plane.specs.Plane.{IsInPlane};
ghost use Rattle.track_net.specs.Nearness.{FindsNear, has_near, point_at};
ghost use Rattle.track_net.specs.Cells.{AreKept, FindsAround, cell_of, is_cell, listed};

use crate::cells::{Cell, cell_at, cell_beside};
use crate::nearness::{are_near, near_point};
use map_base::{NoMemory, Point};
use std::alloc::Global;
use std::collections::HashMap;
use std::marker::Model;

/// The points of each cell that has some.
pub(crate) type Kept = HashMap<Cell, Vec<Point>>;

/// Points by square cells of a size in decimetres, seen as the points and the size. It finds a point that is
/// near to a place without a look at those of far cells.
#[derive(Drop)]
pub struct PointCells {
    size: u32,
    points: Vec<Point>,
    cells: Kept,
}

impl Model for PointCells {
    ghost use Rattle.track_net.specs.Cells.{BucketParts};

    ghost Value = { BucketParts };

    ghost use Rattle.track_net.specs.Cells.{KeepPoints};

    ghost view = { λ b. record { points = b.points.items; size = b.size } };

    ghost invariant = { λ b. KeepPoints b.size b.points.items b.cells };
}

impl PointCells {
    /// Cells of a size, in decimetres, for these points.
    pub fn of(alloc: Global, points: &[Point], size: u32) -> Result<PointCells, NoMemory>
        requires in_plane { All IsInPlane points.now }
        requires some { 0 < size }
        ensures { IfOk result (λ cells. cells ≡ record { points = points.now; size = size }) }
    {
        let cells = kept_of(alloc, points, size)?;
        let points = points.to_vec(alloc)?;
        Ok(PointCells {
            size,
            points,
            cells,
        })
    }

    /// Whether some point is nearer to `at` than `within`. `within` is no more than the size.
    pub fn has_near(&self, at: Point, within: u32) -> bool
        requires at_in_plane { IsInPlane at }
        requires within { within ≤ self.now.size }
        ensures { result ≡ has_near within self.now.points at }
    {
        self.near_point(None, at, within).is_some()
    }

    /// A point that is nearer to `at` than `within`, if there is one. `within` is no more than the size. `first` is
    /// looked at first.
    pub fn near_point(&self, first: Option<Point>, at: Point, within: u32) -> Option<Point>
        requires at_in_plane { IsInPlane at }
        requires within { within ≤ self.now.size }
        requires first { IfSome first (Contains self.now.points) }
        ensures { FindsNear within self.now.points at result }
    {
        near_in_cells(&self.cells, &self.points, self.size, first, at, within)
    }
}

/// For each cell of a size, in decimetres, its points. Points that follow each other in one cell are kept at once.
pub(crate) fn kept_of(alloc: Global, points: &[Point], size: u32) -> Result<Kept, NoMemory>
    requires in_plane { All IsInPlane points.now }
    requires some { 0 < size }
    ensures { IfOk result (AreKept size points.now) }
{
    let mut cells = Kept::new(alloc);
    let mut next = 0;
    while next < points.len() {
        let cell = cell_at(points[next], size);
        let end = run_end(points, next, cell, size);
        keep_all(alloc, &mut cells, cell, &points[next..end])?;
        next = end;
    }
    Ok(cells)
}

/// Where the points end that follow one in its cell.
fn run_end(points: &[Point], start: usize, cell: Cell, size: u32) -> usize
    requires in_plane { All IsInPlane points.now }
    requires some { 0 < size }
    requires in_range { start < length points.now }
    requires cell { cell ≡ cell_of size (point_at points.now start) }
    ensures further { start < result }
    ensures within { result ≤ length points.now }
    ensures run { (k : ℕ) → start ≤ k → k < result → cell_of size (point_at points.now k) ≡ cell }
{
    for end in start + 1..points.len() {
        if !is_same(cell_at(points[end], size), cell) {
            return end;
        }
    }
    points.len()
}

/// Whether two cells are one.
fn is_same(a: Cell, b: Cell) -> bool
    ensures { result ≡ is_cell a b }
{
    if a.0 != b.0 {
        return false;
    }
    a.1 == b.1
}

/// Keeps points for a cell, after those that are kept for it.
fn keep_all(alloc: Global, cells: &mut Kept, cell: Cell, points: &[Point]) -> Result<(), NoMemory>
    ensures { OnOk result ((other : ℤ × ℤ) → listed cells.new other ≡ (if is_cell cell other then listed cells.old other ++ points.now else listed cells.old other)) }
{
    if let Some(kept) = cells.get_mut(&cell) {
        kept.extend_from_slice(points)?;
        return Ok(());
    }
    let kept = Vec::from_slice(alloc, points)?;
    cells.insert(cell, kept)?;
    Ok(())
}

/// Keeps a point for a cell, after those that are kept for it.
pub(crate) fn keep(
    alloc: Global,
    cells: &mut Kept,
    cell: Cell,
    point: Point,
) -> Result<(), NoMemory>
    ensures { OnOk result ((other : ℤ × ℤ) → listed cells.new other ≡ (if is_cell cell other then listed cells.old other ++ point ∷ [] else listed cells.old other)) }
{
    if let Some(points) = cells.get_mut(&cell) {
        points.push(point)?;
        return Ok(());
    }
    let mut points = Vec::new(alloc);
    points.push(point)?;
    cells.insert(cell, points)?;
    Ok(())
}

/// A point that is nearer to `at` than `within`, if there is one, where the cells, of a size no less, are those of the
/// points. `first` is looked at first.
pub(crate) fn near_in_cells(
    cells: &Kept,
    points: &[Point],
    size: u32,
    first: Option<Point>,
    at: Point,
    within: u32,
) -> Option<Point>
    requires in_plane { All IsInPlane points.now }
    requires at_in_plane { IsInPlane at }
    requires some { 0 < size }
    requires within { within ≤ size }
    requires theirs { AreKept size points.now cells.now }
    requires first { IfSome first (Contains points.now) }
    ensures { FindsNear within points.now at result }
{
    if let Some(point) = first {
        if are_near(point, at, within) {
            return first;
        }
    }
    near_around(cells, cell_at(at, size), at, within)
}

/// A point of a cell or of the cells around it that is nearer to `at` than `within`, if there is one. The cell itself
/// is looked at first.
fn near_around(cells: &Kept, center: Cell, at: Point, within: u32) -> Option<Point>
    requires at_in_plane { IsInPlane at }
    requires column { unsigned_abs center.0 ≤ 300000000 }
    requires row { unsigned_abs center.1 ≤ 300000000 }
    requires in_plane { (cell : ℤ × ℤ) → All IsInPlane (listed cells.now cell) }
    ensures { FindsAround within at cells.now center result }
{
    for i in 0..9 {
        let found = near_in_cell(cells, cell_beside(center, (i + 4) % 9), at, within);
        if found.is_some() {
            return found;
        }
    }
    None
}

/// A point of a cell that is nearer to `at` than `within`, if there is one.
fn near_in_cell(cells: &Kept, cell: Cell, at: Point, within: u32) -> Option<Point>
    requires at_in_plane { IsInPlane at }
    requires in_plane { All IsInPlane (listed cells.now cell) }
    ensures { FindsNear within (listed cells.now cell) at result }
{
    match cells.get(&cell) {
        None => None,
        Some(points) => near_point(points, at, within),
    }
}
