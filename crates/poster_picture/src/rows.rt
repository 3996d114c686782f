//! The rows of the legend.

ghost use Rattle.std.specs.Prelude.{◌≡◌, ◌≤◌, ◌++◌, ◌+ℤ◌, pos, length, unsigned_abs, IfSome, OnOk, string_bytes};
ghost use Rattle.poster_rules.specs.Elements.{texts, Stroke, dark};
ghost use Rattle.poster_rules.specs.Posters.{apart_from, legend_elements, row_elements, rows_from, with_behind};
ghost use Rattle.poster_layout.specs.Extents.{IsDrawnPoint, IsLegend};

use crate::elements::{push_along, push_inked, push_row_name};
use crate::pieces::Ink;
use line_offsets::Corner;
use map_base::{LineId, NoMemory};
use name_widths::is_pale;
use poster_layout::row_at;
use poster_plan::Legend;
use svg_writer::{Names, colour_of, name_of};

/// Appends the rows of these lines, where there is a legend.
pub(crate) fn push_legend(
    text: &mut String,
    names: &Names,
    legend: Option<Legend>,
    lines: &[LineId],
) -> Result<(), NoMemory>
    requires few { length lines.now ≤ 1000 }
    requires legend { IfSome legend IsLegend }
    ensures { OnOk result (string_bytes text.new ≡ string_bytes text.old ++ texts (legend_elements names.now legend lines.now)) }
{
    match legend {
        None => Ok(()),
        Some(legend) => push_rows(text, names, legend, lines),
    }
}

/// Appends the rows of these lines.
fn push_rows(
    text: &mut String,
    names: &Names,
    legend: Legend,
    lines: &[LineId],
) -> Result<(), NoMemory>
    requires few { length lines.now ≤ 1000 }
    requires legend { IsLegend legend }
    ensures { OnOk result (string_bytes text.new ≡ string_bytes text.old ++ texts (rows_from names.now legend 0 lines.now)) }
{
    for i in 0..lines.len() {
        push_row(text, names, row_at(legend, i as u32), lines[i])?;
    }
    Ok(())
}

/// Appends a row at a point: a piece of the line, and its name.
fn push_row(text: &mut String, names: &Names, at: Corner, line: LineId) -> Result<(), NoMemory>
    requires { IsDrawnPoint at }
    ensures { OnOk result (string_bytes text.new ≡ string_bytes text.old ++ texts (row_elements names.now at line)) }
{
    let path = [at, apart_from(at, 60, 0)];
    push_stretch(text, &path, colour_of(names, line))?;
    push_row_name(text, apart_from(at, 90, 9), name_of(names, line))?;
    Ok(())
}

/// Appends a piece of a line of a colour, and what stands behind it where it is pale.
fn push_stretch(text: &mut String, path: &[Corner], colour: &[u8]) -> Result<(), NoMemory>
    ensures { OnOk result (string_bytes text.new ≡ string_bytes text.old ++ texts (with_behind colour.now (Stroke path.now dark 14) (Stroke path.now colour.now 12))) }
{
    if is_pale(colour) {
        push_inked(text, path, Ink::Dark, 14)?;
        push_along(text, path, colour, 12)?;
        return Ok(());
    }
    push_along(text, path, colour, 12)?;
    Ok(())
}

/// So far to the right of a point, and so far below it.
fn apart_from(c: Corner, x: u32, y: u32) -> Corner
    requires { IsDrawnPoint c }
    ensures { result ≡ apart_from c x y }
{
    Corner {
        x: further(c.x, x),
        y: further(c.y, y),
    }
}

/// A coordinate that is so much greater.
fn further(z: i64, by: u32) -> i64
    requires { unsigned_abs z ≤ 35184372088832 }
    ensures { result ≡ z +ℤ pos by }
{
    z + i64::from(by)
}
