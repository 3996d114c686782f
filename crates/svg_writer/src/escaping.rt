//! Names as they are written in a picture (XML 1.0, sections 2.2 and 2.4).

ghost use Rattle.std.specs.Prelude.{◌≡◌, ◌++◌, OnOk, IfOk, string_bytes};
ghost use Rattle.svg_writer.specs.Escaping.{is_allowed, escaped_char, escaped};

use map_base::{NoMemory, Text};
use std::alloc::Global;

/// A text with `&`, `<`, `>` and `"` named, and with U+FFFD in place of each character that XML 1.0 does not allow.
pub fn escape(alloc: Global, text: &Text) -> Result<Text, NoMemory>
    ensures { IfOk result (λ t. t ≡ escaped text.now) }
{
    let mut written = String::new(alloc);
    push_escaped(&mut written, text.as_str())?;
    Text::of(alloc, written.as_str())
}

/// Appends a name as it is written.
pub fn push_escaped(text: &mut String, name: &str) -> Result<(), NoMemory>
    ensures { OnOk result (string_bytes text.new ≡ string_bytes text.old ++ escaped name.now) }
{
    for c in name.chars() {
        push_char(text, c)?;
    }
    Ok(())
}

/// Appends a character as it is written.
fn push_char(text: &mut String, c: char) -> Result<(), NoMemory>
    ensures { OnOk result (string_bytes text.new ≡ string_bytes text.old ++ escaped_char c) }
{
    if c == '&' {
        text.push_str("&amp;")?;
    } else if c == '<' {
        text.push_str("&lt;")?;
    } else if c == '>' {
        text.push_str("&gt;")?;
    } else if c == '"' {
        text.push_str("&quot;")?;
    } else if is_allowed(c) {
        text.push(c)?;
    } else {
        text.push('\u{fffd}')?;
    }
    Ok(())
}

/// Whether XML 1.0 allows a character.
fn is_allowed(c: char) -> bool
    ensures { result ≡ is_allowed c }
{
    let code = c as u32;
    code == 0x9
        || code == 0xa
        || code == 0xd
        || (0x20 <= code && code <= 0xd7ff)
        || (0xe000 <= code && code <= 0xfffd)
        || 0x1_0000 <= code
}
