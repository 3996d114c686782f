//! Where the legend stands.

ghost use Rattle.std.specs.Prelude.{◌≡◌, ◌<◌, ◌≤◌, ◌+◌, ◌-◌, ◌*◌, ◌/◌, ◌%◌, nat_le, unsigned_abs, All, IfSome, Some};
ghost use Rattle.poster_layout.specs.Extents.{below, beyond, is_clear_at, is_no_wider, right_of, IsDrawnFrame, IsDrawnPoint, IsLegend, IsLegendPoint, IsNearFrame};
ghost use Rattle.poster_plan.specs.Legends.{frame_beside, column_for, corners_for, is_clear_of_all, legend_height, legend_of, legend_shape, legend_start, legend_width, outside, row_at, rows_for, widely};
ghost use Rattle.std.specs.List.{find, list_any};
ghost use Rattle.eight_sides.specs.Shapes.{meet, IsFar};
ghost use Rattle.poster_plan.specs.declared.plan.Mark.{Mark};
ghost use Rattle.poster_plan.specs.declared.plan.Piece.{Piece};
ghost use Rattle.poster_plan.specs.Placing.{meets_printed};
ghost use Rattle.poster_plan.specs.Signs.{mark_at, piece_at};

use crate::extent::{frame_with, length_of};
use eight_sides::{Frame, Interval, Shape, meet, upright, widened};
use line_offsets::Corner;
use name_places::{down, mark_at, piece_at, printed_shape, up};
use poster_plan::{Legend, Mark, Piece, Plan, Printed, TextWidth};

/// How many rows a column has where there are so many lines: at least 12, and at least twice the root of their number.
fn rows_for(lines: u32) -> u32
    requires { lines ≤ 1000 }
    ensures value { result ≡ rows_for lines }
    ensures some { 12 ≤ result }
{
    for rows in 12..64 {
        if are_enough(lines, rows) {
            return rows;
        }
    }
    64
}

/// Whether so many rows are at least twice the root of so many lines.
fn are_enough(lines: u32, rows: u32) -> bool
    requires lines { lines ≤ 1000 }
    requires rows { rows ≤ 64 }
    ensures { result ≡ nat_le (4 * lines) (rows * rows) }
{
    4 * lines <= square(rows)
}

/// The square of a number.
fn square(n: u32) -> u32
    requires { n ≤ 64 }
    ensures { result ≡ n * n }
{
    n * n
}

/// How wide the legend is.
fn legend_width(lines: u32, widest: TextWidth) -> u64
    requires { lines ≤ 1000 }
    ensures value { result ≡ legend_width lines widest }
    ensures small { result ≤ 1500000000000 }
{
    let columns = columns_for(lines, rows_for(lines));
    times(column_for(widest), columns).saturating_sub(60)
}

/// How many columns so many lines fill.
fn columns_for(lines: u32, rows: u32) -> u64
    requires lines { lines ≤ 1000 }
    requires rows { 12 ≤ rows }
    ensures value { result ≡ (lines + rows - 1) / rows }
    ensures small { result ≤ 85 }
{
    (u64::from(lines) + u64::from(rows) - 1) / u64::from(rows)
}

/// How far so many columns reach.
fn times(column: u64, columns: u64) -> u64
    requires column { column ≤ 17179869334 }
    requires columns { columns ≤ 1000 }
    ensures value { result ≡ column * columns }
    ensures small { result ≤ 17179869334 * columns }
{
    column * columns
}

/// How high it is.
fn legend_height(lines: u32) -> u64
    requires { lines ≤ 1000 }
    ensures value { result ≡ legend_height lines }
    ensures small { result ≤ 45000 }
{
    (45 * u64::from(lines.min(rows_for(lines)))).saturating_sub(15)
}

/// How far its columns stand apart.
fn column_for(widest: TextWidth) -> u64
    ensures value { result ≡ column_for widest }
    ensures small { result ≤ 17179869334 }
{
    widest.number() + 150
}

/// The legend of so many lines, whose widest name is so wide, at a pitch with these names; none of no lines.
pub fn legend_of(
    pitch: u32,
    plan: &Plan,
    printed: &[Printed],
    lines: u32,
    widest: TextWidth,
) -> Option<Legend>
    requires pitch { pitch ≤ 200 }
    requires lines { lines ≤ 1000 }
    ensures value { result ≡ legend_of pitch plan.now printed.now lines widest }
    ensures near { IfSome result IsLegend }
{
    if lines == 0 {
        return None;
    }
    let width = legend_width(lines, widest);
    let height = legend_height(lines);
    let start = legend_start(pitch, plan, printed, width, height);
    Some(Legend {
        start,
        column: column_for(widest),
        rows: rows_for(lines),
    })
}

/// Its upper left point: in the first corner of the map that is clear, else beside the map.
fn legend_start(pitch: u32, plan: &Plan, printed: &[Printed], width: u64, height: u64) -> Corner
    requires pitch { pitch ≤ 200 }
    requires width { width ≤ 1500000000000 }
    requires height { height ≤ 45000 }
    ensures value { result ≡ legend_start pitch plan.now printed.now width height }
    ensures near { IsLegendPoint result }
{
    let frame = frame_with(pitch, plan, printed);
    let corners = corners_for(frame, width, height);
    first_clear(pitch, plan, printed, width, height, &corners).unwrap_or(outside(frame))
}

/// The first of these points at which it is clear.
fn first_clear(
    pitch: u32,
    plan: &Plan,
    printed: &[Printed],
    width: u64,
    height: u64,
    corners: &[Corner],
) -> Option<Corner>
    requires pitch { pitch ≤ 200 }
    requires width { width ≤ 1500000000000 }
    requires height { height ≤ 45000 }
    requires corners { All IsLegendPoint corners.now }
    ensures value { result ≡ find (is_clear_at pitch plan.now printed.now width height) corners.now }
    ensures near { IfSome result IsLegendPoint }
{
    for corner in corners {
        if is_clear_of_all(pitch, plan, printed, legend_shape(width, height, *corner)) {
            return Some(*corner);
        }
    }
    None
}

/// Its upper left point in each corner of a frame.
fn corners_for(f: Frame, width: u64, height: u64) -> [Corner; 4]
    requires frame { IsNearFrame f }
    requires width { width ≤ 1500000000000 }
    requires height { height ≤ 45000 }
    ensures { result ≡ corners_for f width height }
{
    let right = down(f.across.greatest, width);
    let low = down(f.down.greatest, height);
    [
        Corner {
            x: right,
            y: f.down.least,
        },
        Corner {
            x: f.across.least,
            y: f.down.least,
        },
        Corner { x: right, y: low },
        Corner {
            x: f.across.least,
            y: low,
        },
    ]
}

/// From a number so far on, and 30 further on each side.
fn widely(z: i64, long: u64) -> Interval
    requires z { unsigned_abs z ≤ 2199023255552 }
    requires long { long ≤ 1500000000000 }
    ensures value { result ≡ widely z long }
    ensures far { IsFar result }
{
    Interval {
        least: down(z, 30),
        greatest: up(z, long + 30),
    }
}

/// What it takes up, widened by 30 on each side.
fn legend_shape(width: u64, height: u64, start: Corner) -> Shape
    requires start { IsLegendPoint start }
    requires width { width ≤ 1500000000000 }
    requires height { height ≤ 45000 }
    ensures { result ≡ legend_shape width height start }
{
    let across = widely(start.x, width);
    let low = widely(start.y, height);
    upright(across, low)
}

/// Whether it keeps clear of all stations, straight pieces and printed names.
fn is_clear_of_all(pitch: u32, plan: &Plan, printed: &[Printed], shape: Shape) -> bool
    requires { pitch ≤ 200 }
    ensures { result ≡ is_clear_of_all pitch plan.now printed.now shape }
{
    if meets_mark(pitch, plan.marks.as_slice(), shape) {
        return false;
    }
    if meets_piece(pitch, plan.pieces.as_slice(), shape) {
        return false;
    }
    !meets_printed(pitch, plan, printed, shape)
}

/// Whether a shape meets a station.
fn meets_mark(pitch: u32, marks: &[Mark], shape: Shape) -> bool
    requires { pitch ≤ 200 }
    ensures { result ≡ list_any (λ (m : Mark). meet shape (mark_at pitch m)) marks.now }
{
    for mark in marks {
        if meet(shape, mark_at(pitch, *mark)) {
            return true;
        }
    }
    false
}

/// Whether a shape meets a straight piece.
fn meets_piece(pitch: u32, pieces: &[Piece], shape: Shape) -> bool
    requires { pitch ≤ 200 }
    ensures { result ≡ list_any (λ (p : Piece). meet shape (piece_at pitch p)) pieces.now }
{
    for piece in pieces {
        if meet(shape, piece_at(pitch, *piece)) {
            return true;
        }
    }
    false
}

/// Whether a shape meets a printed name.
fn meets_printed(pitch: u32, plan: &Plan, printed: &[Printed], shape: Shape) -> bool
    requires { pitch ≤ 200 }
    ensures { result ≡ meets_printed pitch plan.now printed.now shape }
{
    for name in printed {
        if meet(shape, printed_shape(pitch, plan, *name)) {
            return true;
        }
    }
    false
}

/// Beside the map: to the right of one that is no wider than it is high, and else below it.
fn outside(f: Frame) -> Corner
    requires { IsNearFrame f }
    ensures value { result ≡ outside f }
    ensures near { IsLegendPoint result }
{
    if is_no_wider(f) {
        return right_of(f);
    }
    below(f)
}

/// Whether a frame is no wider than it is high.
fn is_no_wider(f: Frame) -> bool
    requires { IsNearFrame f }
    ensures { result ≡ is_no_wider f }
{
    length_of(f.across) <= length_of(f.down)
}

/// To the right of a frame.
fn right_of(f: Frame) -> Corner
    requires { IsNearFrame f }
    ensures value { result ≡ right_of f }
    ensures near { IsLegendPoint result }
{
    Corner {
        x: up(f.across.greatest, 30),
        y: f.down.least,
    }
}

/// Below a frame.
fn below(f: Frame) -> Corner
    requires { IsNearFrame f }
    ensures value { result ≡ below f }
    ensures near { IsLegendPoint result }
{
    Corner {
        x: f.across.least,
        y: up(f.down.greatest, 30),
    }
}

/// Where row `i` of a legend is.
pub fn row_at(legend: Legend, i: u32) -> Corner
    requires legend { IsLegend legend }
    requires row { i ≤ 1000 }
    ensures value { result ≡ row_at legend i }
    ensures near { IsDrawnPoint result }
{
    let right = times(legend.column, column_of(i, legend.rows));
    let low = low_of(i, legend.rows);
    beyond(legend.start, right, low)
}

/// The column of row `i`.
fn column_of(i: u32, rows: u32) -> u64
    requires { 0 < rows }
    ensures value { result ≡ i / rows }
    ensures small { result ≤ i }
{
    u64::from(i / rows)
}

/// How far down row `i` is.
fn low_of(i: u32, rows: u32) -> u64
    requires rows { 0 < rows }
    requires row { i ≤ 1000 }
    ensures value { result ≡ 15 + 45 * (i % rows) }
    ensures small { result ≤ 45015 }
{
    15 + 45 * u64::from(i % rows)
}

/// So far to the right of where a legend starts, and so far below it.
fn beyond(start: Corner, across: u64, low: u64) -> Corner
    requires start { IsLegendPoint start }
    requires across { across ≤ 17179869334000 }
    requires low { low ≤ 45015 }
    ensures value { result ≡ beyond start across low }
    ensures x { unsigned_abs result.x ≤ unsigned_abs start.x + across }
    ensures y { unsigned_abs result.y ≤ unsigned_abs start.y + low }
{
    Corner {
        x: up(start.x, across),
        y: up(start.y, low),
    }
}

/// A frame that holds the legend of so many lines too.
pub fn frame_beside(f: Frame, lines: u32, widest: TextWidth, legend: Option<Legend>) -> Frame
    requires frame { IsNearFrame f }
    requires lines { lines ≤ 1000 }
    requires legend { IfSome legend IsLegend }
    ensures value { result ≡ frame_beside f lines widest legend }
    ensures drawn { IsDrawnFrame result }
{
    match legend {
        None => f,
        Some(placed) => frame_around(f, lines, widest, placed),
    }
}

/// A frame that holds this legend of so many lines too.
fn frame_around(f: Frame, lines: u32, widest: TextWidth, legend: Legend) -> Frame
    requires frame { IsNearFrame f }
    requires lines { lines ≤ 1000 }
    requires legend { IsLegend legend }
    ensures value { result ≡ frame_beside f lines widest (Some legend) }
    ensures drawn { IsDrawnFrame result }
{
    let width = legend_width(lines, widest);
    let height = legend_height(lines);
    let end = beyond(legend.start, width, height);
    let begun = widened(f, legend.start);
    widened(begun, end)
}
