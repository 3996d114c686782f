//! Texts of a feed or of the command line, as messages show them.

use map_base::{NoMemory, Text};
use std::alloc::Global;

/// How many characters of a text are shown.
const SHOWN: usize = 80;

/// A text between quotes, as `plain` shows it.
pub fn quoted(alloc: Global, bytes: &[u8]) -> Result<String, NoMemory> {
    let text = plain(alloc, bytes)?;
    Ok(format!(in alloc; "\"{text}\"")?)
}

/// The first 80 characters of a text, as `plain_up_to` shows them.
pub fn plain(alloc: Global, bytes: &[u8]) -> Result<String, NoMemory> {
    plain_up_to(alloc, bytes, SHOWN)
}

/// The first `most` characters of a text, with `<TAB>` for a TAB, and U+FFFD for bytes that are no UTF-8 and for each
/// character that would control a terminal, that can't be seen, or that turns the direction of writing.
pub fn plain_up_to(alloc: Global, bytes: &[u8], most: usize) -> Result<String, NoMemory> {
    let text = String::from_utf8_lossy(alloc, bytes)?;
    let mut shown = String::new(alloc);
    for (place, character) in text.as_str().chars().enumerate() {
        if place == most {
            shown.push_str("..")?;
            break;
        }
        match character {
            '\t' => shown.push_str("<TAB>")?,
            _ => shown.push(visible(character))?,
        }
    }
    Ok(shown)
}

/// The character, or U+FFFD in place of one that would control a terminal or is not seen.
fn visible(character: char) -> char {
    if character.is_control() || is_unseen(character) {
        '\u{FFFD}'
    } else {
        character
    }
}

/// Whether a character has no width, or only turns the direction of writing or ends a line.
fn is_unseen(character: char) -> bool {
    match character {
        '\u{00AD}' | '\u{061C}' | '\u{FEFF}' => true,
        '\u{200B}'..='\u{200F}' => true,
        '\u{2028}'..='\u{202E}' => true,
        '\u{2060}'..='\u{2069}' => true,
        _ => false,
    }
}

/// Texts between quotes, with a comma between them: the first `most`, and how many more there are.
pub fn list_of(alloc: Global, texts: &[Text], most: usize) -> Result<String, NoMemory> {
    let mut list = String::new(alloc);
    for (place, text) in texts.iter().enumerate() {
        if place == most {
            let more = texts.len() - most;
            let rest = format!(in alloc; " and {more} more")?;
            list.push_str(rest.as_str())?;
            break;
        }
        if place > 0 {
            list.push_str(", ")?;
        }
        let text = quoted(alloc, text.as_str().as_bytes())?;
        list.push_str(text.as_str())?;
    }
    Ok(list)
}
