//! The known word that may be meant by one that is none.

use map_base::{NoMemory, Text};
use message_texts::{meant, quoted};
use std::alloc::Global;
use table_rows::bare;

/// The id that may be meant by a word that is none, as a question behind a message; empty where none is near, or the
/// word is an id.
pub(crate) fn question(alloc: Global, word: &[u8], ids: &[Text]) -> Result<String, NoMemory> {
    if ids.iter().any(|id| id.as_str().as_bytes() == word) {
        return Ok(String::new(alloc));
    }
    let Ok(word) = str::from_utf8(bare(word)) else {
        return Ok(String::new(alloc));
    };
    match meant(alloc, word, ids)? {
        Some(place) => asked(alloc, ids.get(place)),
        None => Ok(String::new(alloc)),
    }
}

/// The question whether a text is meant.
fn asked(alloc: Global, near: Option<&Text>) -> Result<String, NoMemory> {
    match near {
        Some(near) => {
            let near = quoted(alloc, near.as_str().as_bytes())?;
            Ok(format!(in alloc; " (did you mean {near}?)")?)
        }
        None => Ok(String::new(alloc)),
    }
}
