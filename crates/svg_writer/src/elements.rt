//! The elements of a picture (SVG 1.1).

ghost use Rattle.std.specs.Prelude.{◌≡◌, ◌++◌, OnOk, string_bytes};
ghost use Rattle.svg_writer.specs.Elements.{element_text, circle_text, label_text, Head, OnSegment, AtNode, Marker, Label, Tail, AreBounds};

use crate::bounds::Bounds;
use crate::escaping::push_escaped;
use crate::pieces::{
    push_centre, push_ids, push_natural, push_path, push_place, push_quoted, push_stroke,
    push_title, push_view,
};
use crate::style::Style;
use line_offsets::Corner;
use map_base::NoMemory;

/// Appends the head.
pub(crate) fn push_head(text: &mut String, style: Style, bounds: Bounds) -> Result<(), NoMemory>
    requires { AreBounds bounds }
    ensures { OnOk result (string_bytes text.new ≡ string_bytes text.old ++ element_text style (Head bounds)) }
{
    text.push_str("<svg xmlns=\"http://www.w3.org/2000/svg\" version=\"1.1\" viewBox=\"")?;
    push_view(text, style, bounds)?;
    text.push_str("\">\n")?;
    Ok(())
}

/// Appends a line on a segment, with its name.
pub(crate) fn push_on_segment(
    text: &mut String,
    style: Style,
    seg: u32,
    line: u32,
    path: &[Corner],
    colour: &[u8],
    name: &str,
) -> Result<(), NoMemory>
    ensures { OnOk result (string_bytes text.new ≡ string_bytes text.old ++ element_text style (OnSegment seg line path.now colour.now name.now)) }
{
    text.push_str("<path class=\"s")?;
    push_ids(text, seg, line)?;
    push_path(text, path)?;
    push_stroke(text, style, colour)?;
    push_title(text, name)?;
    Ok(())
}

/// Appends a line from one segment to another at a node.
pub(crate) fn push_at_node(
    text: &mut String,
    style: Style,
    node: u32,
    line: u32,
    start: Corner,
    end: Corner,
    colour: &[u8],
) -> Result<(), NoMemory>
    ensures { OnOk result (string_bytes text.new ≡ string_bytes text.old ++ element_text style (AtNode node line start end colour.now)) }
{
    let path = [start, end];
    text.push_str("<path class=\"n")?;
    push_ids(text, node, line)?;
    push_path(text, &path)?;
    push_stroke(text, style, colour)?;
    text.push_str("/>\n")?;
    Ok(())
}

/// Appends the marker of a station.
pub(crate) fn push_marker(
    text: &mut String,
    style: Style,
    centre: Corner,
    radius: u64,
) -> Result<(), NoMemory>
    ensures { OnOk result (string_bytes text.new ≡ string_bytes text.old ++ element_text style (Marker centre radius)) }
{
    text.push_str("<circle cx=\"")?;
    push_centre(text, centre)?;
    push_circle(text, style, radius)?;
    Ok(())
}

/// Appends the radius of a marker, and how it is drawn.
fn push_circle(text: &mut String, style: Style, radius: u64) -> Result<(), NoMemory>
    ensures { OnOk result (string_bytes text.new ≡ string_bytes text.old ++ circle_text style radius) }
{
    text.push_str("\" r=\"")?;
    push_natural(text, radius)?;
    text.push_str("\" fill=\"#ffffff\" stroke=\"#000000\" stroke-width=\"")?;
    push_quoted(text, style.rim)?;
    text.push_str("/>\n")?;
    Ok(())
}

/// Appends the name of a station.
pub(crate) fn push_label(
    text: &mut String,
    style: Style,
    place: Corner,
    name: &str,
) -> Result<(), NoMemory>
    ensures { OnOk result (string_bytes text.new ≡ string_bytes text.old ++ element_text style (Label place name.now)) }
{
    text.push_str("<text x=\"")?;
    push_place(text, place)?;
    push_name(text, style, name)?;
    Ok(())
}

/// Appends the name of a station, and how it is written.
fn push_name(text: &mut String, style: Style, name: &str) -> Result<(), NoMemory>
    ensures { OnOk result (string_bytes text.new ≡ string_bytes text.old ++ label_text style name.now) }
{
    text.push_str("\" font-size=\"")?;
    push_quoted(text, style.font)?;
    text.push_str(">")?;
    push_escaped(text, name)?;
    text.push_str("</text>\n")?;
    Ok(())
}

/// Appends the end.
pub(crate) fn push_tail(text: &mut String, style: Style) -> Result<(), NoMemory>
    ensures { OnOk result (string_bytes text.new ≡ string_bytes text.old ++ element_text style Tail) }
{
    text.push_str("</svg>\n")?;
    Ok(())
}
