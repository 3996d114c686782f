//! What elements are made of.

ghost use Rattle.std.specs.Prelude.{◌≡◌, ◌++◌, ◌<◌, ◌≤◌, ◌*◌, ◌+ℤ◌, ◌-ℤ◌, pos, unsigned_abs, OnOk, string_bytes};
ghost use Rattle.std.specs.Fmt.{decimal, signed_decimal};
ghost use Rattle.std.specs.List.{flat_map};
ghost use Rattle.svg_writer.specs.Elements.{hex_byte, colour_text, corner_text, next_text, path_text, quoted, stroke_text, view_place, view_size, view_text, centre_text, place_text, ids_text, title_text, AreBounds};
ghost use Rattle.std.specs.Char.{digit_char};

use crate::bounds::Bounds;
use crate::escaping::push_escaped;
use crate::style::Style;
use itoa::Buffer;
use line_offsets::Corner;
use map_base::NoMemory;

/// Appends a number that is not negative.
pub fn push_natural(text: &mut String, number: u64) -> Result<(), NoMemory>
    ensures { OnOk result (string_bytes text.new ≡ string_bytes text.old ++ decimal number) }
{
    let mut digits = Buffer::new();
    text.push_str(digits.format(number))?;
    Ok(())
}

/// Appends a number.
pub fn push_integer(text: &mut String, number: i64) -> Result<(), NoMemory>
    ensures { OnOk result (string_bytes text.new ≡ string_bytes text.old ++ signed_decimal number) }
{
    let mut digits = Buffer::new();
    text.push_str(digits.format(number))?;
    Ok(())
}

/// Appends `x y`.
pub fn push_corner(text: &mut String, corner: Corner) -> Result<(), NoMemory>
    ensures { OnOk result (string_bytes text.new ≡ string_bytes text.old ++ corner_text corner) }
{
    push_integer(text, corner.x)?;
    text.push_str(" ")?;
    push_integer(text, corner.y)
}

/// Appends ` L x y`.
fn push_next(text: &mut String, corner: Corner) -> Result<(), NoMemory>
    ensures { OnOk result (string_bytes text.new ≡ string_bytes text.old ++ next_text corner) }
{
    text.push_str(" L ")?;
    push_corner(text, corner)
}

/// Appends the later corners of a path.
fn push_later(text: &mut String, corners: &[Corner]) -> Result<(), NoMemory>
    ensures { OnOk result (string_bytes text.new ≡ string_bytes text.old ++ flat_map next_text corners.now) }
{
    for corner in corners {
        push_next(text, *corner)?;
    }
    Ok(())
}

/// Appends `M x y L x y ..`.
pub fn push_path(text: &mut String, path: &[Corner]) -> Result<(), NoMemory>
    ensures { OnOk result (string_bytes text.new ≡ string_bytes text.old ++ path_text path.now) }
{
    match path {
        [] => Ok(()),
        [first, later @ ..] => {
            text.push_str("M ")?;
            push_corner(text, *first)?;
            push_later(text, later)
        }
    }
}

/// A digit, base 16.
fn hex_digit(value: u8) -> char
    requires { value < 16 }
    ensures { result ≡ digit_char value }
{
    if value < 10 {
        (b'0' + value) as char
    } else {
        (b'a' + (value - 10)) as char
    }
}

/// Appends two digits, base 16.
fn push_byte(text: &mut String, byte: u8) -> Result<(), NoMemory>
    ensures { OnOk result (string_bytes text.new ≡ string_bytes text.old ++ hex_byte byte) }
{
    text.push(hex_digit(byte / 16))?;
    text.push(hex_digit(byte % 16))?;
    Ok(())
}

/// Appends `#` and six digits.
pub fn push_colour(text: &mut String, colour: &[u8]) -> Result<(), NoMemory>
    ensures { OnOk result (string_bytes text.new ≡ string_bytes text.old ++ colour_text colour.now) }
{
    text.push_str("#")?;
    for byte in colour {
        push_byte(text, *byte)?;
    }
    Ok(())
}

/// Appends a number and a quote.
pub(crate) fn push_quoted(text: &mut String, number: u16) -> Result<(), NoMemory>
    ensures { OnOk result (string_bytes text.new ≡ string_bytes text.old ++ quoted number) }
{
    push_natural(text, u64::from(number))?;
    text.push_str("\"")?;
    Ok(())
}

/// Appends how lines are drawn, in a colour.
pub(crate) fn push_stroke(text: &mut String, style: Style, colour: &[u8]) -> Result<(), NoMemory>
    ensures { OnOk result (string_bytes text.new ≡ string_bytes text.old ++ stroke_text style colour.now) }
{
    text.push_str("\" fill=\"none\" stroke=\"")?;
    push_colour(text, colour)?;
    text.push_str("\" stroke-width=\"")?;
    push_quoted(text, style.stroke)?;
    Ok(())
}

/// Appends two numbers in the class of a path, to the beginning of its corners.
pub fn push_ids(text: &mut String, number: u32, line: u32) -> Result<(), NoMemory>
    ensures { OnOk result (string_bytes text.new ≡ string_bytes text.old ++ ids_text number line) }
{
    push_natural(text, u64::from(number))?;
    text.push_str(" l")?;
    push_natural(text, u64::from(line))?;
    text.push_str("\" d=\"")?;
    Ok(())
}

/// Appends the name of a line, to the end of its path.
pub fn push_title(text: &mut String, name: &str) -> Result<(), NoMemory>
    ensures { OnOk result (string_bytes text.new ≡ string_bytes text.old ++ title_text name.now) }
{
    text.push_str("><title>")?;
    push_escaped(text, name)?;
    text.push_str("</title></path>\n")?;
    Ok(())
}

/// Appends what the picture shows, wider on each side than the bounds: left, top, width and height.
pub(crate) fn push_view(text: &mut String, style: Style, bounds: Bounds) -> Result<(), NoMemory>
    requires { AreBounds bounds }
    ensures { OnOk result (string_bytes text.new ≡ string_bytes text.old ++ view_text style bounds) }
{
    push_corner(text, view_place(style, bounds))?;
    text.push_str(" ")?;
    push_corner(text, view_size(style, bounds))?;
    Ok(())
}

/// The upper left corner of what the picture shows.
fn view_place(style: Style, bounds: Bounds) -> Corner
    requires { AreBounds bounds }
    ensures { result ≡ view_place style bounds }
{
    Corner {
        x: lower(bounds.left, style.margin),
        y: lower(bounds.top, style.margin),
    }
}

/// A coordinate that is a margin less.
fn lower(low: i64, margin: u16) -> i64
    requires { unsigned_abs low ≤ 1099511627776 }
    ensures { result ≡ low -ℤ pos margin }
{
    low - i64::from(margin)
}

/// Its width and height.
fn view_size(style: Style, bounds: Bounds) -> Corner
    requires { AreBounds bounds }
    ensures { result ≡ view_size style bounds }
{
    Corner {
        x: wider(bounds.left, bounds.right, style.margin),
        y: wider(bounds.top, bounds.bottom, style.margin),
    }
}

/// How far it is from one coordinate to a greater one, with a margin more on each side.
fn wider(low: i64, high: i64, margin: u16) -> i64
    requires low { unsigned_abs low ≤ 1099511627776 }
    requires high { unsigned_abs high ≤ 1099511627776 }
    ensures { result ≡ (high -ℤ low) +ℤ pos (2 * margin) }
{
    high - low + 2 * i64::from(margin)
}

/// Appends where the centre of a marker is.
pub(crate) fn push_centre(text: &mut String, centre: Corner) -> Result<(), NoMemory>
    ensures { OnOk result (string_bytes text.new ≡ string_bytes text.old ++ centre_text centre) }
{
    push_integer(text, centre.x)?;
    text.push_str("\" cy=\"")?;
    push_integer(text, centre.y)
}

/// Appends where a name begins.
pub fn push_place(text: &mut String, place: Corner) -> Result<(), NoMemory>
    ensures { OnOk result (string_bytes text.new ≡ string_bytes text.old ++ place_text place) }
{
    push_integer(text, place.x)?;
    text.push_str("\" y=\"")?;
    push_integer(text, place.y)
}
