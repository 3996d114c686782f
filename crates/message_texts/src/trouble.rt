//! What is wrong with a line that is refused as an edit.

ghost use Rattle.std.specs.Prelude.{◌≡◌, IfOk, None};
ghost use Rattle.map_edits.specs.Grammar.{edit_in};
ghost use Rattle.message_texts.specs.Troubles.{Tells};

use crate::edit_word::EditWord;
use map_base::NoMemory;
use map_edits::{Edit, EditStop, read_edit};
use std::alloc::Global;

/// What is wrong with a line.
#[derive(Debug, Drop)]
pub enum Trouble {
    /// By itself nothing: it is this edit. So its line or station is not there, or it has nothing to undo.
    Reads(Edit),
    /// It is empty.
    Empty,
    /// Its words have spaces between them in place of TABs.
    Spaces(EditWord),
    /// Its first word begins no edit.
    Unknown,
    /// Too few or too many words stand behind this one.
    Count(EditWord, usize),
    /// A word behind this one is not what is due, or out of range.
    Value(EditWord),
}

/// What is wrong with a line, without its end, that is refused as an edit. It reads as an edit exactly where the edit is
/// told.
pub fn trouble_of(alloc: Global, line: &[u8]) -> Result<Trouble, NoMemory>
    ensures { IfOk result (Tells line.now) }
{
    match read_edit(alloc, line) {
        Ok(edit) => Ok(Trouble::Reads(edit)),
        Err(EditStop::BadEdit) => Ok(unread(line)),
        Err(EditStop::NoMemory) => Err(NoMemory),
    }
}

/// What is wrong with a line that does not read as an edit.
fn unread(line: &[u8]) -> Trouble
    requires { edit_in line.now ≡ None }
    ensures { Tells line.now result }
{
    if line.is_empty() {
        return Trouble::Empty;
    }
    let (first, arguments) = first_word(line, b'\t');
    if let Some(word) = edit_word(first) {
        let count = count_of(arguments, b'\t');
        if count == word.arguments() {
            return Trouble::Value(word);
        }
        return Trouble::Count(word, count);
    }
    let (first, _) = first_word(line, b' ');
    match edit_word(first) {
        Some(word) => Trouble::Spaces(word),
        None => Trouble::Unknown,
    }
}

/// The word of an edit that these bytes spell.
fn edit_word(bytes: &[u8]) -> Option<EditWord> {
    match str::from_utf8(bytes) {
        Ok(text) => EditWord::named(text),
        Err(_) => None,
    }
}

/// The bytes before the first separator, and those from it on.
fn first_word(line: &[u8], separator: u8) -> (&[u8], &[u8]) {
    for (place, byte) in line.iter().enumerate() {
        if *byte == separator {
            return line.split_at(place);
        }
    }
    line.split_at(line.len())
}

/// How many separators there are.
fn count_of(bytes: &[u8], separator: u8) -> usize {
    bytes.iter().filter(|byte| **byte == separator).count()
}
