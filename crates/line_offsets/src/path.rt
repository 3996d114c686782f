//! The path of a line beside a walk.

ghost use Rattle.std.specs.Prelude.{◌≡◌, ◌≤◌, ◌<◌, ◌*ℤ◌, ◌+ℤ◌, ◌-ℤ◌, pos, length, drop, unsigned_abs, IfOk, OnOk};
ghost use Rattle.line_offsets.specs.Shifts.{drawn_at, moved_at};
ghost use Rattle.line_offsets.specs.Paths.{line_path, line_path_at, path_start, path_start_at, path_end, path_end_at, corner_behind};

use crate::corner::Corner;
use crate::shift::{foot_of, turn_of};
use map_base::NoMemory;
use octi_grid::{GridPoint, Run, Walk, end_of, run_end};
use std::alloc::Global;

/// The corners of a line that is shifted k places to the right of a walk: its start, where the shifted lines meet at
/// each turn of the walk, and its end.
pub fn line_path(alloc: Global, walk: &Walk, k: i32) -> Result<Vec<Corner>, NoMemory>
    ensures { IfOk result (λ path. path.items ≡ line_path walk.now k) }
{
    let mut path = Vec::new(alloc);
    put_path(&mut path, walk, k)?;
    Ok(path)
}

/// Puts the path of the line k places to the right of a walk into `path`, in place of what it held.
pub fn put_path(path: &mut Vec<Corner>, walk: &Walk, k: i32) -> Result<(), NoMemory>
    ensures { OnOk result (path.new.items ≡ line_path walk.now k) }
{
    put_path_at(path, 100, walk, k)
}

/// Puts the path of the line k places to the right of a walk into `path`, in place of what it held, one grid step being
/// `pitch` units.
pub fn put_path_at(path: &mut Vec<Corner>, pitch: u32, walk: &Walk, k: i32) -> Result<(), NoMemory>
    requires { pitch ≤ 200 }
    ensures { OnOk result (path.new.items ≡ line_path_at pitch walk.now k) }
{
    path.clear();
    path.push(path_start_at(pitch, walk, k))?;
    let runs = walk.runs();
    let mut at = walk.start();
    for i in 0..runs.len() {
        at = run_end(at, runs[i]);
        path.push(corner_behind(pitch, at, runs, i, k))?;
    }
    Ok(())
}

/// Where the path of the line k places to the right of a walk starts.
pub fn path_start(walk: &Walk, k: i32) -> Corner
    ensures { result ≡ path_start walk.now k }
{
    path_start_at(100, walk, k)
}

/// Where the path of the line k places to the right of a walk starts, one grid step being `pitch` units.
pub fn path_start_at(pitch: u32, walk: &Walk, k: i32) -> Corner
    requires { pitch ≤ 200 }
    ensures { result ≡ path_start_at pitch walk.now k }
{
    moved_at(pitch, walk.start(), k, foot_of(walk.start_port()))
}

/// Where the path of the line k places to the right of a walk ends.
pub fn path_end(walk: &Walk, k: i32) -> Corner
    ensures { result ≡ path_end walk.now k }
{
    path_end_at(100, walk, k)
}

/// Where the path of the line k places to the right of a walk ends, one grid step being `pitch` units.
pub fn path_end_at(pitch: u32, walk: &Walk, k: i32) -> Corner
    requires { pitch ≤ 200 }
    ensures { result ≡ path_end_at pitch walk.now k }
{
    moved_at(pitch, end_of(walk), k, foot_of(walk.end_port().reverse()))
}

/// The corner to which run `i` leads, which ends at `at`.
fn corner_behind(pitch: u32, at: GridPoint, runs: &[Run], i: usize, k: i32) -> Corner
    requires pitch { pitch ≤ 200 }
    requires run { i < length runs.now }
    ensures { result ≡ corner_behind pitch k at (drop i runs.now) }
{
    let dir = runs[i].dir;
    match runs.get(i + 1) {
        Some(next) => moved_at(pitch, at, k, turn_of(dir, next.dir)),
        None => moved_at(pitch, at, k, foot_of(dir)),
    }
}

/// A grid point as it is drawn, moved k times by a way across and a way down.
fn moved_at(pitch: u32, p: GridPoint, k: i32, by: (i64, i64)) -> Corner
    requires pitch { pitch ≤ 200 }
    requires across { unsigned_abs by.0 ≤ 20 }
    requires down { unsigned_abs by.1 ≤ 20 }
    ensures { result ≡ moved_at pitch p k by }
{
    Corner {
        x: across(pitch, p.x, k, by.0),
        y: down(pitch, p.y, k, by.1),
    }
}

/// How far to the right a point lies whose grid point has this x, moved k times.
fn across(pitch: u32, x: i32, k: i32, by: i64) -> i64
    requires pitch { pitch ≤ 200 }
    requires by { unsigned_abs by ≤ 20 }
    ensures { result ≡ (pos pitch *ℤ x) +ℤ (k *ℤ by) }
{
    scaled(pitch, x) + times(k, by)
}

/// How far down a point lies whose grid point has this y, moved k times.
fn down(pitch: u32, y: i32, k: i32, by: i64) -> i64
    requires pitch { pitch ≤ 200 }
    requires by { unsigned_abs by ≤ 20 }
    ensures { result ≡ (k *ℤ by) -ℤ (pos pitch *ℤ y) }
{
    times(k, by) - scaled(pitch, y)
}

/// A grid point as it is drawn where one grid step is `pitch` units.
pub fn drawn_at(pitch: u32, p: GridPoint) -> Corner
    requires { pitch ≤ 200 }
    ensures value { result ≡ drawn_at pitch p }
    ensures x { unsigned_abs result.x ≤ 429496729600 }
    ensures y { unsigned_abs result.y ≤ 429496729600 }
{
    Corner {
        x: scaled(pitch, p.x),
        y: 0 - scaled(pitch, p.y),
    }
}

/// A coordinate as it is drawn.
fn scaled(pitch: u32, z: i32) -> i64
    requires { pitch ≤ 200 }
    ensures value { result ≡ pos pitch *ℤ z }
    ensures small { unsigned_abs result ≤ 429496729600 }
{
    i64::from(pitch) * i64::from(z)
}

/// k times a small number.
fn times(k: i32, by: i64) -> i64
    requires { unsigned_abs by ≤ 20 }
    ensures value { result ≡ k *ℤ by }
    ensures small { unsigned_abs result ≤ 42949672960 }
{
    i64::from(k) * by
}
