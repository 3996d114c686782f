//! The draws of a session, by the file that it wrote.

use crate::paths::bytes_at;
use map_base::{NoMemory, Text};
use map_edits::next_line;
use std::alloc::Global;
use std::rt::Files;

/// The draws of a session.
#[derive(Drop)]
pub struct Draws {
    /// How many draws there are.
    pub all: usize,
    /// Those that are refused: the number of each, as it is written, and the line of its reason.
    pub refused: Vec<RefusedDraw>,
}

/// A draw that is refused.
#[derive(Drop)]
pub struct RefusedDraw {
    /// Its number, as it is written.
    pub number: Text,
    /// The line of its reason.
    pub reason: Text,
}

/// The draws that a session wrote to a path; none where they can't be read again, or the path is that of no plain
/// file.
#[inline(never)]
pub fn draws_at<R: Files + AllocGlobal>(rt: &R, out: &str) -> Result<Option<Draws>, NoMemory> {
    match bytes_at(rt, out)? {
        Some(bytes) => Ok(Some(draws_in(rt.alloc(), bytes.as_slice())?)),
        None => Ok(None),
    }
}

/// The draws that these bytes have, up to the first line that is none.
fn draws_in(alloc: Global, bytes: &[u8]) -> Result<Draws, NoMemory> {
    let mut draws = Draws {
        all: 0,
        refused: Vec::new(alloc),
    };
    let mut rest = bytes;
    for _ in 0..bytes.len() {
        let Some((line, behind)) = next_line(rest) else {
            break;
        };
        let Some(length) = draws.note(alloc, line)? else {
            break;
        };
        rest = from_place(behind, length);
    }
    Ok(draws)
}

impl Draws {
    /// Notes the first line of a draw. How many bytes of a map and a certificate follow; none where the line is no
    /// draw's.
    fn note(&mut self, alloc: Global, line: &[u8]) -> Result<Option<usize>, NoMemory> {
        let Some((number, told)) = draw_of(line) else {
            return Ok(None);
        };
        self.all = self.all.saturating_add(1);
        let Some(reason) = told.strip_prefix("refused: ") else {
            return Ok(length_of(told));
        };
        self.refused.push(RefusedDraw {
            number: Text::of(alloc, number)?,
            reason: Text::of(alloc, reason)?,
        })?;
        Ok(Some(0))
    }
}

/// The number of a draw, and what its line tells behind that.
fn draw_of(line: &[u8]) -> Option<(&str, &str)> {
    match str::from_utf8(line) {
        Ok(text) => text.strip_prefix("draw ")?.split_once(' '),
        Err(_) => None,
    }
}

/// How many bytes a draw has behind its line: those of its map and those of its certificate.
fn length_of(told: &str) -> Option<usize> {
    let (map, certificate) = told.split_once(' ')?;
    let map = map.parse::<usize>().ok()?;
    let certificate = certificate.parse::<usize>().ok()?;
    map.checked_add(certificate)
}

/// Bytes from a place on: none where there are not so many.
fn from_place(bytes: &[u8], place: usize) -> &[u8] {
    match bytes.split_at_checked(place) {
        Some((_, behind)) => behind,
        None => &[],
    }
}
