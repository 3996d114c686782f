//! A line of a file of edits, or of a script, that is refused.

use crate::files::missing;
use crate::near_word::question;
use command_inputs::Inputs;
use file_lookup::{bytes_at, edits_path, ids_at, line_at};
use map_base::{NoMemory, Text};
use map_edits::Edit;
use message_texts::{EDIT_WORDS, EditWord, Trouble, list_of, quoted, trouble_of};
use std::alloc::Global;
use std::rt::Files;

/// How many first words of a line are named at most.
const TOLD: usize = 20;

/// The lines for the line of this number, counted from 1; 0 where there is no file.
pub(crate) fn bad_edit<R: Files + AllocGlobal>(
    rt: &R,
    inputs: &Inputs<'_>,
    line: u64,
) -> Result<String, NoMemory> {
    let alloc = rt.alloc();
    let path = edits_path(inputs);
    if line == 0 {
        return missing(rt, path);
    }
    let Some(bytes) = bytes_at(rt, path)? else {
        return Ok(String::new(alloc));
    };
    let Some(text) = line_at(bytes.as_slice(), line) else {
        return Ok(String::new(alloc));
    };
    let wrong = wrong_in(rt, inputs, text)?;
    let shown = quoted(alloc, path.as_bytes())?;
    let text = quoted(alloc, text)?;
    Ok(format!(in alloc; "octimap: {shown}, line {line}: {text}: {wrong}\n")?)
}

/// What is wrong in a line.
fn wrong_in<R: Files + AllocGlobal>(
    rt: &R,
    inputs: &Inputs<'_>,
    line: &[u8],
) -> Result<String, NoMemory> {
    let alloc = rt.alloc();
    if str::from_utf8(line).is_err() {
        return Ok(String::from_str(alloc, "the line is not UTF-8; save the file as UTF-8")?);
    }
    match trouble_of(alloc, line)? {
        Trouble::Reads(edit) => not_due(rt, inputs.feed, &edit),
        Trouble::Empty => Ok(String::from_str(alloc, "a line is empty; take it out")?),
        Trouble::Spaces(word) => spaces(alloc, word),
        Trouble::Unknown => unknown(alloc, line, !inputs.script.is_empty()),
        Trouble::Count(word, count) => wrong_count(alloc, word, count),
        Trouble::Value(word) => Ok(String::from_str(alloc, word.form())?),
    }
}

/// Spaces stand where TABs are due.
fn spaces(alloc: Global, word: EditWord) -> Result<String, NoMemory> {
    let form = word.form();
    Ok(format!(in alloc; "a TAB is due between two words, not spaces; {form}")?)
}

/// Too few or too many words.
fn wrong_count(alloc: Global, word: EditWord, count: usize) -> Result<String, NoMemory> {
    let form = word.form();
    let due = word.arguments();
    Ok(format!(in alloc;
        "words behind the first: {count}, and {due} are due, each after one TAB; {form}"
    )?)
}

/// The first word begins no edit, nor is it the draw of a script.
fn unknown(alloc: Global, line: &[u8], is_script: bool) -> Result<String, NoMemory> {
    let first = first_word(line);
    if is_script && first == b"draw".as_slice() {
        return Ok(String::from_str(alloc, "draw takes nothing")?);
    }
    if line.starts_with(b"\xEF\xBB\xBF".as_slice()) {
        return Ok(String::from_str(
            alloc,
            "the line begins with a byte order mark; save the file as UTF-8 without one",
        )?);
    }
    let words = first_words(alloc, is_script)?;
    let near = question(alloc, first, words.as_slice())?;
    let list = list_of(alloc, words.as_slice(), TOLD)?;
    match no_word(line) {
        Some(said) => Ok(format!(in alloc; "{said}; a line begins with its word: {list}")?),
        None => Ok(format!(in alloc; "no edit begins so{near}; a line begins with {list}")?),
    }
}

/// What is said of a line that begins with something else than a word.
fn no_word(line: &[u8]) -> Option<&'static str> {
    let first = line.first()?;
    match *first {
        b'#' => Some("there are no comments"),
        b' ' => Some("a space stands in front"),
        b'\t' => Some("a TAB stands in front"),
        _ => None,
    }
}

/// The words that a line may begin with.
fn first_words(alloc: Global, is_script: bool) -> Result<Vec<Text>, NoMemory> {
    let mut words = Vec::new(alloc);
    for word in EDIT_WORDS {
        words.push(Text::of(alloc, word.name())?)?;
    }
    if is_script {
        words.push(Text::of(alloc, "draw")?)?;
    }
    Ok(words)
}

/// What stands before the first TAB or space.
fn first_word(line: &[u8]) -> &[u8] {
    for (place, byte) in line.iter().enumerate() {
        if *byte == b'\t' || *byte == b' ' {
            return line.split_at(place).0;
        }
    }
    line
}

/// A line is an edit, but its line or station is not there, or there is nothing to undo.
fn not_due<R: Files + AllocGlobal>(rt: &R, feed: &str, edit: &Edit) -> Result<String, NoMemory> {
    let alloc = rt.alloc();
    match edit {
        Edit::Hide { line } => no_line(rt, feed, line),
        Edit::Show { line } => no_line(rt, feed, line),
        Edit::Colour { line, .. } => no_line(rt, feed, line),
        Edit::Importance { line, .. } => no_line(rt, feed, line),
        Edit::Rename { stop, .. } => no_station(rt, feed, stop),
        Edit::Move { stop, .. } => no_station(rt, feed, stop),
        Edit::Undo => Ok(String::from_str(alloc, "no edit is left to undo")?),
        _ => Ok(String::new(alloc)),
    }
}

/// No line that is drawn has this route id.
fn no_line<R: Files + AllocGlobal>(rt: &R, feed: &str, line: &Text) -> Result<String, NoMemory> {
    let alloc = rt.alloc();
    let path = format!(in alloc; "{feed}/routes.txt")?;
    let ids = ids_at(rt, path.as_str(), "route_id")?;
    let shown = quoted(alloc, line.as_str().as_bytes())?;
    if ids.iter().any(|id| id.as_str() == line.as_str()) {
        return Ok(format!(in alloc;
            "the route {shown} is not drawn; add its route_type to the key types"
        )?);
    }
    let near = question(alloc, line.as_str().as_bytes(), ids.as_slice())?;
    Ok(format!(in alloc; "routes.txt has no route_id {shown}{near}")?)
}

/// No station has this id.
fn no_station<R: Files + AllocGlobal>(rt: &R, feed: &str, stop: &Text) -> Result<String, NoMemory> {
    let alloc = rt.alloc();
    let path = format!(in alloc; "{feed}/stops.txt")?;
    let ids = ids_at(rt, path.as_str(), "stop_id")?;
    let shown = quoted(alloc, stop.as_str().as_bytes())?;
    if ids.iter().any(|id| id.as_str() == stop.as_str()) {
        return Ok(format!(in alloc; "{shown} is no station of its own; name its parent_station")?);
    }
    let near = question(alloc, stop.as_str().as_bytes(), ids.as_slice())?;
    Ok(format!(in alloc; "stops.txt has no stop_id {shown}{near}")?)
}
