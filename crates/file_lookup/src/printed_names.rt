//! The names of a poster, by its text.

use crate::paths::bytes_at;
use map_base::{NoMemory, Text};
use std::alloc::Global;
use std::rt::Files;

/// The names of a poster.
#[derive(Drop)]
pub struct PosterNames {
    /// The names of stations that are printed nowhere, each once, in the order of their stations.
    pub left_out: Vec<Text>,
    /// How many names are printed.
    pub printed: usize,
    /// How many of these are small.
    pub small: usize,
    /// How many of the small ones lie over lines.
    pub over_lines: usize,
}

/// The names of the poster at a path; none where it can't be read again, or is no plain file.
#[inline(never)]
pub fn poster_names<R: Files + AllocGlobal>(
    rt: &R,
    poster: &str,
) -> Result<Option<PosterNames>, NoMemory> {
    let Some(bytes) = bytes_at(rt, poster)? else {
        return Ok(None);
    };
    match str::from_utf8(bytes.as_slice()) {
        Ok(text) => Ok(Some(names_in(rt.alloc(), text)?)),
        Err(_) => Ok(None),
    }
}

/// The names of a poster, by its text.
fn names_in(alloc: Global, poster: &str) -> Result<PosterNames, NoMemory> {
    let mut names = Names {
        printed: Vec::new(alloc),
        small: 0,
        over_lines: 0,
    };
    let (_, behind) = poster.split_once("<g id=\"names\"").unwrap_or((poster, ""));
    let (elements, _) = behind.split_once("</g>").unwrap_or((behind, ""));
    for element in elements.lines() {
        names.note(alloc, element)?;
    }
    Ok(PosterNames {
        left_out: left_out(alloc, poster, names.printed.as_slice())?,
        printed: names.printed.len(),
        small: names.small,
        over_lines: names.over_lines,
    })
}

/// The names that are printed, without their blanks and markup, and how many of them are small, and lie over lines.
#[derive(Drop)]
struct Names {
    printed: Vec<String>,
    small: usize,
    over_lines: usize,
}

impl Names {
    /// Notes a line of the names' group, where it is the element of a name. A name over lines has two elements, the
    /// first with an edge of white.
    fn note(&mut self, alloc: Global, element: &str) -> Result<(), NoMemory> {
        let Some(behind) = element.strip_prefix("<text ") else {
            return Ok(());
        };
        let Some((attributes, inside)) = behind.split_once('>') else {
            return Ok(());
        };
        if attributes.contains(" stroke=\"#ffffff\"") {
            self.over_lines = self.over_lines.saturating_add(1);
            return Ok(());
        }
        if attributes.contains(" font-size=\"20\"") {
            self.small = self.small.saturating_add(1);
        }
        self.printed.push(name_inside(alloc, inside)?)?;
        Ok(())
    }
}

/// The name inside its element, without blanks: what stands before its first mark, and behind that its second line, if
/// there is one. The names of lines that stand behind it have a colour of their own.
fn name_inside(alloc: Global, inside: &str) -> Result<String, NoMemory> {
    let mut name = String::new(alloc);
    for part in inside.split('<') {
        if name.is_empty() {
            push_squeezed(&mut name, part)?;
        } else if part.starts_with("tspan x=") {
            let (_, second) = part.split_once('>').unwrap_or((part, ""));
            push_squeezed(&mut name, second)?;
        }
    }
    Ok(name)
}

/// Puts a text behind another, without its blanks.
fn push_squeezed(squeezed: &mut String, text: &str) -> Result<(), NoMemory> {
    for word in text.split(' ') {
        squeezed.push_str(word)?;
    }
    Ok(())
}

/// The titles of a poster's stations that are no printed name, nor are so without their first word.
fn left_out(alloc: Global, poster: &str, printed: &[String]) -> Result<Vec<Text>, NoMemory> {
    let mut left_out = Vec::new(alloc);
    for element in poster.lines() {
        if let Some(title) = station_title(element) {
            if !is_printed(alloc, title, printed)? {
                push_once(&mut left_out, unescaped(alloc, title)?)?;
            }
        }
    }
    Ok(left_out)
}

/// Puts a name behind others, unless it is one of them.
fn push_once(names: &mut Vec<Text>, name: Text) -> Result<(), NoMemory> {
    if !names.iter().any(|other| other.as_str() == name.as_str()) {
        names.push(name)?;
    }
    Ok(())
}

/// The title of the group of a station, as it is written; none where it is empty, or the element is another one.
fn station_title(element: &str) -> Option<&str> {
    let behind = element.strip_prefix("<g class=\"n")?;
    let (_, behind) = behind.split_once("<title>")?;
    let (title, _) = behind.split_once("</title>")?;
    if title.is_empty() { None } else { Some(title) }
}

/// A text of a picture, without the names for what markup begins with.
fn unescaped(alloc: Global, text: &str) -> Result<Text, NoMemory> {
    let plain = text.replace(alloc, "&lt;", "<")?;
    let plain = plain.as_str().replace(alloc, "&gt;", ">")?;
    let plain = plain.as_str().replace(alloc, "&quot;", "\"")?;
    let plain = plain.as_str().replace(alloc, "&amp;", "&")?;
    Text::of(alloc, plain.as_str())
}

/// Whether a title is a printed name, or is one without its first word.
fn is_printed(alloc: Global, title: &str, printed: &[String]) -> Result<bool, NoMemory> {
    if has(alloc, title, printed)? {
        return Ok(true);
    }
    match title.split_once(' ') {
        Some((_, rest)) => has(alloc, rest, printed),
        None => Ok(false),
    }
}

/// Whether a name, without its blanks, is one of these.
fn has(alloc: Global, name: &str, printed: &[String]) -> Result<bool, NoMemory> {
    let mut squeezed = String::new(alloc);
    push_squeezed(&mut squeezed, name)?;
    Ok(
        printed
            .iter()
            .any(|other| other.as_str() == squeezed.as_str()),
    )
}
