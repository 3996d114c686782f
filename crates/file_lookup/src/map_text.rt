//! What a map shows, by its text.

use crate::drawn_types::each_once;
use map_base::NoMemory;
use std::alloc::Global;

/// What a map shows.
#[derive(Drop)]
pub struct MapText {
    /// The numbers of the lines that have a way, each once and rising.
    pub lines: Vec<u32>,
    /// How many of its stations have no name.
    pub nameless: usize,
}

/// What a map shows, by its text.
pub fn map_text(alloc: Global, picture: &str) -> Result<MapText, NoMemory> {
    let mut lines = Vec::new(alloc);
    let mut nameless = 0usize;
    for element in picture.lines() {
        if let Some(line) = line_of(element) {
            lines.push(line)?;
        }
        if element.starts_with("<text ") && element.ends_with("></text>") {
            nameless = nameless.saturating_add(1);
        }
    }
    Ok(MapText {
        lines: each_once(lines)?,
        nameless,
    })
}

/// The number of the line whose way over a segment an element shows.
fn line_of(element: &str) -> Option<u32> {
    let behind = element.strip_prefix("<path class=\"s")?;
    let (_, behind) = behind.split_once(" l")?;
    let (line, _) = behind.split_once('"')?;
    line.parse::<u32>().ok()
}
