//! The draws of a session that are refused.

use crate::limits::hint_of;
use crate::no_route::more_room;
use crate::spent::what_helps;
use command_inputs::Inputs;
use command_words::Command;
use file_lookup::{Draws, draws_at, settings_of};
use map_base::{LimitKind, NoMemory};
use std::alloc::Global;
use std::fmt::Write;
use std::rt::Files;

/// How many refused draws are told.
const TOLD: usize = 12;

/// The kinds of limits that end a draw.
const KINDS: [LimitKind; 9] = [
    LimitKind::Lines,
    LimitKind::Stations,
    LimitKind::Samples,
    LimitKind::NetPoints,
    LimitKind::Nodes,
    LimitKind::Segments,
    LimitKind::Cells,
    LimitKind::Terms,
    LimitKind::Places,
];

/// The lines for the draws that a session wrote to a path and that are refused: each with its reason, and what may help
/// for each kind of reason.
pub(crate) fn refused_draws<R: Files + AllocGlobal>(
    rt: &R,
    command: &Command<'_>,
    inputs: &Inputs<'_>,
    out: &str,
) -> Result<String, NoMemory> {
    let alloc = rt.alloc();
    let Some(draws) = draws_at(rt, out)? else {
        return Ok(String::new(alloc));
    };
    let mut text = draws_line(alloc, &draws)?;
    if has_reason(&draws, "no route") {
        let line = more_room(rt, command, &inputs.options)?;
        text.push_str(line.as_str())?;
    }
    if has_reason(&draws, "spent") {
        if let Some(chosen) = settings_of(rt, inputs)? {
            let line = what_helps(rt, command, inputs, &chosen)?;
            text.push_str(line.as_str())?;
        }
    }
    push_limits(&mut text, command, &draws)?;
    Ok(text)
}

/// The line that tells the refused draws, the first twelve with their reasons; empty where there are none.
fn draws_line(alloc: Global, draws: &Draws) -> Result<String, NoMemory> {
    let count = draws.refused.len();
    if count == 0 {
        return Ok(String::new(alloc));
    }
    let all = draws.all;
    let mut text = format!(in alloc; "octimap: draws that are refused: {count} of {all}: ")?;
    for (place, draw) in draws.refused.iter().enumerate() {
        if place == TOLD {
            text.push_str(" ..")?;
            break;
        }
        if place > 0 {
            text.push_str(", ")?;
        }
        let number = draw.number.as_str();
        let reason = draw.reason.as_str();
        write!(text, "{number} ({reason})")?;
    }
    text.push_str("\n")?;
    Ok(text)
}

/// Whether the reason of a refused draw begins with a word.
fn has_reason(draws: &Draws, word: &str) -> bool {
    draws
        .refused
        .iter()
        .any(|draw| draw.reason.as_str().starts_with(word))
}

/// Puts a line behind a text for each limit that a refused draw met.
fn push_limits(text: &mut String, command: &Command<'_>, draws: &Draws) -> Result<(), NoMemory> {
    for kind in KINDS {
        if meets(draws, kind) {
            let name = kind.name();
            let hint = hint_of(command, kind);
            write!(text, "octimap: {name}: {hint}\n")?;
        }
    }
    Ok(())
}

/// Whether a refused draw met this limit.
fn meets(draws: &Draws, kind: LimitKind) -> bool {
    draws
        .refused
        .iter()
        .any(|draw| is_limit(draw.reason.as_str(), kind))
}

/// Whether a reason is this limit.
fn is_limit(reason: &str, kind: LimitKind) -> bool {
    match reason.strip_prefix("limit: ") {
        Some(told) => told.starts_with(kind.name()),
        None => false,
    }
}
