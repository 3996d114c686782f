//! What elements are made of.

ghost use Rattle.std.specs.Prelude.{◌≡◌, ◌*◌, ◌++◌, OnOk, codes, if◌then◌else◌, map, string_bytes};
ghost use Rattle.std.specs.List.{flat_map};
ghost use Rattle.std.specs.Fmt.{decimal};
ghost use Rattle.name_widths.specs.Colours.{is_faint};
ghost use Rattle.svg_writer.specs.Elements.{colour_text, place_text};
ghost use Rattle.poster_plan.specs.Places.{tenth};
ghost use Rattle.poster_rules.specs.Elements.{anchor_text, classes_text, dark, ending_text, name_text, size_text, spot_text, stroke_text, turn_text, turned_text, width_text};
ghost use Rattle.poster_rules.specs.Posters.{ending_of};
ghost use Rattle.poster_picture.specs.Inks.{ink_colour};

use line_offsets::Corner;
use map_base::{LineId, NoMemory};
use name_places::tenth;
use name_widths::is_faint;
use poster_plan::{Anchor, Spot, Step, Turn};
use svg_writer::{
    Names, colour_of, name_of, push_colour, push_corner, push_escaped, push_natural, push_place,
};

/// Appends a stroke's colour, to the end of its attribute.
pub(crate) fn push_stroke(text: &mut String, colour: &[u8]) -> Result<(), NoMemory>
    ensures { OnOk result (string_bytes text.new ≡ string_bytes text.old ++ stroke_text colour.now) }
{
    text.push_str("\" stroke=\"")?;
    push_colour(text, colour)?;
    text.push_str("\"")?;
    Ok(())
}

/// A colour that is the same on each poster.
#[derive(Clone, Copy)]
pub(crate) enum Ink {
    Black,
    White,
    /// Dark grey, which stands behind pale lines.
    Dark,
}

/// Appends a stroke's ink, to the end of its attribute.
pub(crate) fn push_ink(text: &mut String, ink: Ink) -> Result<(), NoMemory>
    ensures { OnOk result (string_bytes text.new ≡ string_bytes text.old ++ stroke_text (ink_colour ink)) }
{
    text.push_str(ink_text(ink))?;
    Ok(())
}

/// A stroke's ink, to the end of its attribute.
fn ink_text(ink: Ink) -> &'static str
    ensures { result.now ≡ stroke_text (ink_colour ink) }
{
    match ink {
        Ink::Black => "\" stroke=\"#000000\"",
        Ink::White => "\" stroke=\"#ffffff\"",
        Ink::Dark => "\" stroke=\"#444444\"",
    }
}

/// Appends a stroke's width, to the end of its line.
pub(crate) fn push_width(text: &mut String, width: u32) -> Result<(), NoMemory>
    ensures { OnOk result (string_bytes text.new ≡ string_bytes text.old ++ width_text width) }
{
    text.push_str(" stroke-width=\"")?;
    push_natural(text, u64::from(width))?;
    text.push_str("\"/>\n")?;
    Ok(())
}

/// Appends the classes of lines.
pub(crate) fn push_classes(text: &mut String, lines: &[LineId]) -> Result<(), NoMemory>
    ensures { OnOk result (string_bytes text.new ≡ string_bytes text.old ++ classes_text lines.now) }
{
    for line in lines {
        push_class(text, *line)?;
    }
    Ok(())
}

/// Appends the class of a line.
fn push_class(text: &mut String, line: LineId) -> Result<(), NoMemory>
    ensures { OnOk result (string_bytes text.new ≡ string_bytes text.old ++ (codes " l" ++ decimal line.0)) }
{
    text.push_str(" l")?;
    push_natural(text, u64::from(line.0))?;
    Ok(())
}

/// Appends the attributes of a name.
pub(crate) fn push_spot(text: &mut String, spot: Spot, step: Step) -> Result<(), NoMemory>
    ensures { OnOk result (string_bytes text.new ≡ string_bytes text.old ++ spot_text spot step) }
{
    push_turn(text, spot.turn, spot.at, step)?;
    text.push_str(anchor_text(spot.anchor))?;
    text.push_str(size_text(step))?;
    Ok(())
}

/// Appends where a text stands, and which way it runs.
fn push_turn(text: &mut String, turn: Turn, at: Corner, step: Step) -> Result<(), NoMemory>
    ensures { OnOk result (string_bytes text.new ≡ string_bytes text.old ++ turn_text turn at step) }
{
    match turn {
        Turn::Level => push_level(text, at),
        Turn::Rising => push_turned(text, at, "-45", step),
        Turn::Falling => push_turned(text, at, "45", step),
    }
}

/// Appends the point of a level text.
fn push_level(text: &mut String, at: Corner) -> Result<(), NoMemory>
    ensures { OnOk result (string_bytes text.new ≡ string_bytes text.old ++ (codes "<text x=\"" ++ (place_text at ++ codes "\""))) }
{
    text.push_str("<text x=\"")?;
    push_place(text, at)?;
    text.push_str("\"")?;
    Ok(())
}

/// Appends the point of a text that is turned by so many degrees, and how far its base line is below its middle line.
fn push_turned(text: &mut String, at: Corner, degrees: &str, step: Step) -> Result<(), NoMemory>
    ensures { OnOk result (string_bytes text.new ≡ string_bytes text.old ++ turned_text at degrees.now step) }
{
    text.push_str("<text transform=\"translate(")?;
    push_corner(text, at)?;
    text.push_str(") rotate(")?;
    text.push_str(degrees)?;
    text.push_str(")\" y=\"")?;
    push_natural(text, three_tenths(step))?;
    text.push_str("\"")?;
    Ok(())
}

/// Three tenths of the size of type.
fn three_tenths(step: Step) -> u64
    ensures { result ≡ 3 * tenth step }
{
    3 * u64::from(tenth(step))
}

/// Which part of a text stands at its point.
fn anchor_text(anchor: Anchor) -> &'static str
    ensures { result.now ≡ anchor_text anchor }
{
    match anchor {
        Anchor::Start => "",
        Anchor::Middle => " text-anchor=\"middle\"",
        Anchor::End => " text-anchor=\"end\"",
    }
}

/// The size of small type.
fn size_text(step: Step) -> &'static str
    ensures { result.now ≡ size_text step }
{
    match step {
        Step::Full => "",
        Step::Small => " font-size=\"20\"",
        Step::Over => " font-size=\"20\"",
    }
}

/// Appends a name with the lines that end there, to the end of its line.
pub(crate) fn push_name_text(
    text: &mut String,
    names: &Names,
    step: Step,
    name: &str,
    lines: &[LineId],
) -> Result<(), NoMemory>
    ensures { OnOk result (string_bytes text.new ≡ string_bytes text.old ++ name_text step name.now (map (ending_of names.now) lines.now)) }
{
    text.push_str(">")?;
    push_escaped(text, name)?;
    push_endings(text, names, step, lines)?;
    text.push_str("</text>\n")?;
    Ok(())
}

/// Appends the names of lines that end at a station.
fn push_endings(
    text: &mut String,
    names: &Names,
    step: Step,
    lines: &[LineId],
) -> Result<(), NoMemory>
    ensures { OnOk result (string_bytes text.new ≡ string_bytes text.old ++ flat_map (ending_text step) (map (ending_of names.now) lines.now)) }
{
    for line in lines {
        push_ending(text, names, step, *line)?;
    }
    Ok(())
}

/// Appends the name of a line that ends at a station.
fn push_ending(text: &mut String, names: &Names, step: Step, line: LineId) -> Result<(), NoMemory>
    ensures { OnOk result (string_bytes text.new ≡ string_bytes text.old ++ ending_text step (ending_of names.now line)) }
{
    text.push_str("<tspan dx=\"")?;
    push_natural(text, three_tenths(step))?;
    text.push_str("\" fill=\"")?;
    push_shade(text, colour_of(names, line))?;
    text.push_str("\" font-weight=\"bold\">")?;
    push_escaped(text, name_of(names, line))?;
    text.push_str("</tspan>")?;
    Ok(())
}

/// Appends a colour of type: dark grey in place of a faint one.
fn push_shade(text: &mut String, colour: &[u8]) -> Result<(), NoMemory>
    ensures { OnOk result (string_bytes text.new ≡ string_bytes text.old ++ colour_text (if is_faint colour.now then dark else colour.now)) }
{
    if is_faint(colour) {
        text.push_str("#444444")?;
        return Ok(());
    }
    push_colour(text, colour)?;
    Ok(())
}
