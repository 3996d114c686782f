//! Points and ids, appended to a text.

ghost use Rattle.std.specs.Prelude.{◌≡◌, ◌++◌, ◌∷◌, OnOk, string_bytes};
ghost use Rattle.std.specs.Fmt.{decimal};
ghost use Rattle.printed_text.specs.Printed.{point_line, printed_byte, printed_id, printed_point};

use map_base::{NoMemory, Point};
use std::fmt::Write;

/// Appends a line `X Y ID`. `numbers` is a buffer that is used anew for each line.
pub fn push_line(
    text: &mut Vec<u8>,
    numbers: &mut String,
    point: Point,
    id: &str,
) -> Result<(), NoMemory>
    ensures { OnOk result (text.new.items ≡ text.old.items ++ point_line point id.now) }
{
    let x = point.x;
    let y = point.y;
    numbers.clear();
    write!(numbers, "{x} {y} ")?;
    text.extend_from_slice(numbers.as_bytes())?;
    push_id(text, id.as_bytes())?;
    text.push(b'\n')?;
    Ok(())
}

/// Appends `X Y`. `numbers` is a buffer that is used anew.
pub fn push_point(text: &mut Vec<u8>, numbers: &mut String, point: Point) -> Result<(), NoMemory>
    ensures { OnOk result (text.new.items ≡ text.old.items ++ printed_point point) }
{
    let x = point.x;
    let y = point.y;
    numbers.clear();
    write!(numbers, "{x} {y}")?;
    text.extend_from_slice(numbers.as_bytes())?;
    Ok(())
}

/// Appends a space and a number. `numbers` is a buffer that is used anew.
pub fn push_number(text: &mut Vec<u8>, numbers: &mut String, number: u32) -> Result<(), NoMemory>
    ensures { OnOk result (text.new.items ≡ text.old.items ++ (32 ∷ decimal number)) }
{
    numbers.clear();
    write!(numbers, " {number}")?;
    text.extend_from_slice(numbers.as_bytes())?;
    Ok(())
}

/// Appends an id as it is printed.
pub fn push_id(text: &mut Vec<u8>, id: &[u8]) -> Result<(), NoMemory>
    ensures { OnOk result (text.new.items ≡ text.old.items ++ printed_id id.now) }
{
    for byte in id {
        push_byte(text, *byte)?;
    }
    Ok(())
}

/// Appends a byte of an id as it is printed: that of a control character becomes U+FFFD.
fn push_byte(text: &mut Vec<u8>, byte: u8) -> Result<(), NoMemory>
    ensures { OnOk result (text.new.items ≡ text.old.items ++ printed_byte byte) }
{
    if byte < 32 {
        text.extend_from_slice(&[239, 191, 189])?;
    } else {
        text.push(byte)?;
    }
    Ok(())
}
