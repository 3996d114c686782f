//! The elements of a poster, each a line (SVG 1.1).

ghost use Rattle.std.specs.Prelude.{◌≡◌, ◌≤◌, ◌++◌, ◌+ℤ◌, ◌-ℤ◌, pos, unsigned_abs, OnOk, string_bytes};
ghost use Rattle.poster_layout.specs.Extents.{IsDrawnFrame};
ghost use Rattle.poster_picture.specs.Inks.{ink_colour};
ghost use Rattle.poster_rules.specs.Elements.{element_text, view_place, view_size, Head, Ground, Opens, Closes, OnSegment, BehindOnSegment, AtNode, BehindAtNode, Station, Stroke, RowName, Tail, LinesGroup, StationsGroup, NamesGroup, LegendGroup};

use crate::pieces::{Ink, push_classes, push_ink, push_stroke, push_width};
use eight_sides::Frame;
use line_offsets::Corner;
use map_base::{LineId, NoMemory};
use name_places::down;
use svg_writer::{
    push_corner, push_escaped, push_ids, push_integer, push_natural, push_path, push_place,
    push_title,
};

/// Where the view of a frame begins, which is 60 units wider on each side.
fn view_place(f: Frame) -> Corner
    requires { IsDrawnFrame f }
    ensures { result ≡ view_place f }
{
    Corner {
        x: down(f.across.least, 60),
        y: down(f.down.least, 60),
    }
}

/// How wide and high it is.
fn view_size(f: Frame) -> Corner
    requires { IsDrawnFrame f }
    ensures { result ≡ view_size f }
{
    Corner {
        x: wide_length(f.across.least, f.across.greatest),
        y: wide_length(f.down.least, f.down.greatest),
    }
}

/// How far it is from one coordinate to another, with 60 more on each side.
fn wide_length(least: i64, greatest: i64) -> i64
    requires least { unsigned_abs least ≤ 4398046511104 }
    requires greatest { unsigned_abs greatest ≤ 4398046511104 }
    ensures { result ≡ (greatest -ℤ least) +ℤ pos 120 }
{
    greatest - least + 120
}

/// Appends the head.
pub(crate) fn push_head(text: &mut String, frame: Frame) -> Result<(), NoMemory>
    requires { IsDrawnFrame frame }
    ensures { OnOk result (string_bytes text.new ≡ string_bytes text.old ++ element_text (Head frame)) }
{
    text.push_str("<svg xmlns=\"http://www.w3.org/2000/svg\" version=\"1.1\" viewBox=\"")?;
    push_corner(text, view_place(frame))?;
    text.push_str(" ")?;
    push_corner(text, view_size(frame))?;
    text.push_str("\" font-family=\"Helvetica, Arial, sans-serif\">\n")?;
    Ok(())
}

/// Appends the white ground.
pub(crate) fn push_ground(text: &mut String, frame: Frame) -> Result<(), NoMemory>
    requires { IsDrawnFrame frame }
    ensures { OnOk result (string_bytes text.new ≡ string_bytes text.old ++ element_text (Ground frame)) }
{
    let size = view_size(frame);
    text.push_str("<rect x=\"")?;
    push_place(text, view_place(frame))?;
    text.push_str("\" width=\"")?;
    push_integer(text, size.x)?;
    text.push_str("\" height=\"")?;
    push_integer(text, size.y)?;
    text.push_str("\" fill=\"#ffffff\"/>\n")?;
    Ok(())
}

/// Appends the start of the group of lines.
pub(crate) fn open_lines(text: &mut String) -> Result<(), NoMemory>
    ensures { OnOk result (string_bytes text.new ≡ string_bytes text.old ++ element_text (Opens LinesGroup)) }
{
    text.push_str(
        "<g id=\"lines\" fill=\"none\" stroke-linejoin=\"round\" stroke-linecap=\"round\" stroke-width=\"12\">\n",
    )?;
    Ok(())
}

/// Appends the start of the group of stations.
pub(crate) fn open_stations(text: &mut String) -> Result<(), NoMemory>
    ensures { OnOk result (string_bytes text.new ≡ string_bytes text.old ++ element_text (Opens StationsGroup)) }
{
    text.push_str(
        "<g id=\"stations\" fill=\"none\" stroke-linejoin=\"round\" stroke-linecap=\"round\">\n",
    )?;
    Ok(())
}

/// Appends the start of the group of names.
pub(crate) fn open_names(text: &mut String) -> Result<(), NoMemory>
    ensures { OnOk result (string_bytes text.new ≡ string_bytes text.old ++ element_text (Opens NamesGroup)) }
{
    text.push_str("<g id=\"names\" font-size=\"30\" fill=\"#000000\">\n")?;
    Ok(())
}

/// Appends the start of the legend.
pub(crate) fn open_legend(text: &mut String) -> Result<(), NoMemory>
    ensures { OnOk result (string_bytes text.new ≡ string_bytes text.old ++ element_text (Opens LegendGroup)) }
{
    text.push_str("<g id=\"legend\" font-size=\"30\" fill=\"#000000\">\n")?;
    Ok(())
}

/// Appends the end of a group.
pub(crate) fn close_group(text: &mut String) -> Result<(), NoMemory>
    ensures { OnOk result (string_bytes text.new ≡ string_bytes text.old ++ element_text Closes) }
{
    text.push_str("</g>\n")?;
    Ok(())
}

/// Appends a line on a segment, with its name.
pub(crate) fn push_on_segment(
    text: &mut String,
    s: u32,
    line: LineId,
    path: &[Corner],
    colour: &[u8],
    name: &str,
) -> Result<(), NoMemory>
    ensures { OnOk result (string_bytes text.new ≡ string_bytes text.old ++ element_text (OnSegment s line.0 path.now colour.now name.now)) }
{
    text.push_str("<path class=\"s")?;
    push_ids(text, s, line.0)?;
    push_path(text, path)?;
    push_stroke(text, colour)?;
    push_title(text, name)?;
    Ok(())
}

/// Appends what stands behind a pale line on a segment.
pub(crate) fn push_behind_on_segment(
    text: &mut String,
    s: u32,
    line: LineId,
    path: &[Corner],
) -> Result<(), NoMemory>
    ensures { OnOk result (string_bytes text.new ≡ string_bytes text.old ++ element_text (BehindOnSegment s line.0 path.now)) }
{
    text.push_str("<path class=\"s")?;
    push_ids(text, s, line.0)?;
    push_path(text, path)?;
    push_ink(text, Ink::Dark)?;
    push_width(text, 14)?;
    Ok(())
}

/// Appends a line from segment to segment at a node.
pub(crate) fn push_at_node(
    text: &mut String,
    n: u32,
    line: LineId,
    path: &[Corner],
    colour: &[u8],
) -> Result<(), NoMemory>
    ensures { OnOk result (string_bytes text.new ≡ string_bytes text.old ++ element_text (AtNode n line.0 path.now colour.now)) }
{
    text.push_str("<path class=\"n")?;
    push_ids(text, n, line.0)?;
    push_path(text, path)?;
    push_stroke(text, colour)?;
    text.push_str("/>\n")?;
    Ok(())
}

/// Appends what stands behind a pale one.
pub(crate) fn push_behind_at_node(
    text: &mut String,
    n: u32,
    line: LineId,
    path: &[Corner],
) -> Result<(), NoMemory>
    ensures { OnOk result (string_bytes text.new ≡ string_bytes text.old ++ element_text (BehindAtNode n line.0 path.now)) }
{
    text.push_str("<path class=\"n")?;
    push_ids(text, n, line.0)?;
    push_path(text, path)?;
    push_ink(text, Ink::Dark)?;
    push_width(text, 14)?;
    Ok(())
}

/// Appends the start of a station: the lines that call there, and its name.
pub(crate) fn push_station(
    text: &mut String,
    n: u32,
    lines: &[LineId],
    name: &str,
) -> Result<(), NoMemory>
    ensures { OnOk result (string_bytes text.new ≡ string_bytes text.old ++ element_text (Station n lines.now name.now)) }
{
    text.push_str("<g class=\"n")?;
    push_natural(text, u64::from(n))?;
    push_classes(text, lines)?;
    text.push_str("\"><title>")?;
    push_escaped(text, name)?;
    text.push_str("</title>\n")?;
    Ok(())
}

/// Appends a stroke along a path.
pub(crate) fn push_along(
    text: &mut String,
    path: &[Corner],
    colour: &[u8],
    width: u32,
) -> Result<(), NoMemory>
    ensures { OnOk result (string_bytes text.new ≡ string_bytes text.old ++ element_text (Stroke path.now colour.now width)) }
{
    text.push_str("<path d=\"")?;
    push_path(text, path)?;
    push_stroke(text, colour)?;
    push_width(text, width)?;
    Ok(())
}

/// Appends a stroke along a path, in the colour of an ink.
pub(crate) fn push_inked(
    text: &mut String,
    path: &[Corner],
    ink: Ink,
    width: u32,
) -> Result<(), NoMemory>
    ensures { OnOk result (string_bytes text.new ≡ string_bytes text.old ++ element_text (Stroke path.now (ink_colour ink) width)) }
{
    text.push_str("<path d=\"")?;
    push_path(text, path)?;
    push_ink(text, ink)?;
    push_width(text, width)?;
    Ok(())
}

/// Appends the name of a line in the legend.
pub(crate) fn push_row_name(text: &mut String, place: Corner, name: &str) -> Result<(), NoMemory>
    ensures { OnOk result (string_bytes text.new ≡ string_bytes text.old ++ element_text (RowName place name.now)) }
{
    text.push_str("<text x=\"")?;
    push_place(text, place)?;
    text.push_str("\">")?;
    push_escaped(text, name)?;
    text.push_str("</text>\n")?;
    Ok(())
}

/// Appends the end.
pub(crate) fn push_tail(text: &mut String) -> Result<(), NoMemory>
    ensures { OnOk result (string_bytes text.new ≡ string_bytes text.old ++ element_text Tail) }
{
    text.push_str("</svg>\n")?;
    Ok(())
}
