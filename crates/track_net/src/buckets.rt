//! Points in square cells, found by nearness.

ghost use Rattle.std.specs.Prelude.{◌≡◌, ◌^◌, ◌<◌, ◌≤◌, ◌++◌, ◌∷◌, [], IfOk, OnOk, All, filter, length, unsigned_abs, ℤ, if◌then◌else◌};
ghost use Rattle.std.specs.List.{flat_map, range_with_len};
ghost use Rattle.fixed_plane.specs.Plane.{IsInPlane};
ghost use Rattle.track_net.specs.Nearness.{HaveTheSame, is_nearer, numbers_near, point_at};
ghost use Rattle.track_net.specs.Cells.{cell_around, is_cell, listed};

use crate::cells::{Cell, cell_at, cell_beside};
use crate::nearness::are_near;
use map_base::{NoMemory, Point};
use std::alloc::Global;
use std::collections::HashMap;
use std::marker::Model;

/// The numbers of the points of each cell that has some.
type Cells = HashMap<Cell, Vec<u32>>;

/// Points by square cells of a size in decimetres, seen as the points and the size. It finds the points near to
/// a place without a look at those of far cells.
#[derive(Drop)]
pub struct Buckets {
    size: u32,
    points: Vec<Point>,
    cells: Cells,
}

impl Model for Buckets {
    ghost use Rattle.track_net.specs.Cells.{BucketParts};

    ghost Value = { BucketParts };

    ghost use Rattle.track_net.specs.Cells.{AreBuckets};

    ghost view = { λ b. record { points = b.points.items; size = b.size } };

    ghost invariant = { λ b. AreBuckets b.size b.points.items b.cells };
}

impl Buckets {
    /// Buckets of a size, in decimetres, for these points.
    pub fn of(alloc: Global, points: &[Point], size: u32) -> Result<Buckets, NoMemory>
        requires in_plane { All IsInPlane points.now }
        requires few { length points.now < 2 ^ 32 }
        requires some { 0 < size }
        ensures { IfOk result (λ buckets. buckets ≡ record { points = points.now; size = size }) }
    {
        let mut cells = Cells::new(alloc);
        for k in 0..points.len() {
            add(alloc, &mut cells, cell_at(points[k], size), k as u32)?;
        }
        let points = points.to_vec(alloc)?;
        Ok(Buckets {
            size,
            points,
            cells,
        })
    }

    /// The numbers of the points that are nearer to `at` than `within`, rising. `within` is no more than the size.
    pub fn near(&self, alloc: Global, at: Point, within: u32) -> Result<Vec<u32>, NoMemory>
        requires at_in_plane { IsInPlane at }
        requires within { within ≤ self.now.size }
        ensures numbers { IfOk result (λ numbers. numbers.items ≡ numbers_near within self.now.points at) }
        ensures in_range { IfOk result (λ numbers. All (λ k. k < length self.now.points) numbers.items) }
    {
        let mut numbers = Vec::new(alloc);
        self.find_near(at, within, &mut numbers)?;
        numbers.sort_unstable();
        numbers.dedup();
        Ok(numbers)
    }

    /// Leaves in `found` the numbers of the points that are nearer to `at` than `within`, in any order. `within` is no
    /// more than the size.
    pub(crate) fn find_near(
        &self,
        at: Point,
        within: u32,
        found: &mut Vec<u32>,
    ) -> Result<(), NoMemory>
        requires at_in_plane { IsInPlane at }
        requires within { within ≤ self.now.size }
        ensures { OnOk result (HaveTheSame found.new.items (numbers_near within self.now.points at)) }
    {
        let center = cell_at(at, self.size);
        found.clear();
        find_around(&self.cells, &self.points, center, at, within, found)
    }
}

/// Keeps a number for a cell, after those that are kept for it.
fn add(alloc: Global, cells: &mut Cells, cell: Cell, number: u32) -> Result<(), NoMemory>
    ensures { OnOk result ((other : ℤ × ℤ) → listed cells.new other ≡ (if is_cell cell other then listed cells.old other ++ number ∷ [] else listed cells.old other)) }
{
    if let Some(numbers) = cells.get_mut(&cell) {
        numbers.push(number)?;
        return Ok(());
    }
    let mut numbers = Vec::new(alloc);
    numbers.push(number)?;
    cells.insert(cell, numbers)?;
    Ok(())
}

/// Keeps the numbers of the points in a cell and the cells around it that are nearer to `at` than `within`, cell by
/// cell.
fn find_around(
    cells: &Cells,
    points: &[Point],
    center: Cell,
    at: Point,
    within: u32,
    found: &mut Vec<u32>,
) -> Result<(), NoMemory>
    requires in_plane { All IsInPlane points.now }
    requires at_in_plane { IsInPlane at }
    requires column { unsigned_abs center.0 ≤ 300000000 }
    requires row { unsigned_abs center.1 ≤ 300000000 }
    requires in_range { (cell : ℤ × ℤ) → All (λ k. k < length points.now) (listed cells.now cell) }
    ensures { OnOk result (found.new.items ≡ found.old.items ++ flat_map (λ i. filter (λ k. is_nearer within at (point_at points.now k)) (listed cells.now (cell_around center i))) (range_with_len 0 9)) }
{
    for i in 0..9 {
        keep_of_cell(cells, points, cell_beside(center, i), at, within, found)?;
    }
    Ok(())
}

/// Keeps the numbers of the points in a cell that are nearer to `at` than `within`.
fn keep_of_cell(
    cells: &Cells,
    points: &[Point],
    cell: Cell,
    at: Point,
    within: u32,
    found: &mut Vec<u32>,
) -> Result<(), NoMemory>
    requires in_plane { All IsInPlane points.now }
    requires at_in_plane { IsInPlane at }
    requires in_range { All (λ k. k < length points.now) (listed cells.now cell) }
    ensures { OnOk result (found.new.items ≡ found.old.items ++ filter (λ k. is_nearer within at (point_at points.now k)) (listed cells.now cell)) }
{
    match cells.get(&cell) {
        None => Ok(()),
        Some(numbers) => keep_near(numbers, points, at, within, found),
    }
}

/// Keeps the numbers of the points that are nearer to `at` than `within`.
fn keep_near(
    numbers: &[u32],
    points: &[Point],
    at: Point,
    within: u32,
    found: &mut Vec<u32>,
) -> Result<(), NoMemory>
    requires in_plane { All IsInPlane points.now }
    requires at_in_plane { IsInPlane at }
    requires in_range { All (λ k. k < length points.now) numbers.now }
    ensures { OnOk result (found.new.items ≡ found.old.items ++ filter (λ k. is_nearer within at (point_at points.now k)) numbers.now) }
{
    for k in numbers {
        if are_near(at, points[*k as usize], within) {
            found.push(*k)?;
        }
    }
    Ok(())
}
