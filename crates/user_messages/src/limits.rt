//! Where there is more of something than is worked on.

use crate::fewer_lines::{fewer_lines, is_import};
use crate::station_words::{far_line, farthest_line};
use command_inputs::Inputs;
use command_words::Command;
use file_lookup::stations_of;
use map_base::{Limit, LimitKind, NoMemory};
use message_texts::{graph_limit_hint, limit_hint};
use std::rt::Files;

/// There is more of something than is worked on.
pub(crate) fn above<R: Files + AllocGlobal>(
    rt: &R,
    command: &Command<'_>,
    inputs: &Inputs<'_>,
    limit: Limit,
) -> Result<String, NoMemory> {
    let alloc = rt.alloc();
    let kind = limit.what.name();
    let found = limit.found;
    let most = limit.most;
    let hint = hint_of(command, limit.what);
    let mut text = format!(in alloc;
        "octimap: {kind}: {found}, and {most} at most are worked on; {hint}\n"
    )?;
    if grows_with_the_ground(limit.what) && !is_import(command) {
        let line = wide_ground(rt, inputs)?;
        text.push_str(line.as_str())?;
    }
    Ok(text)
}

/// What may help where there is more of something than is worked on.
pub(crate) fn hint_of(command: &Command<'_>, what: LimitKind) -> &'static str {
    if is_import(command) {
        graph_limit_hint(what)
    } else {
        limit_hint(what)
    }
}

/// Whether there is more of something the farther stations lie apart.
fn grows_with_the_ground(what: LimitKind) -> bool {
    match what {
        LimitKind::Samples | LimitKind::NetPoints | LimitKind::Cells => true,
        _ => false,
    }
}

/// The stations far from all others, or else the two that lie farthest apart; empty where the feed can't be read again.
fn wide_ground<R: Files + AllocGlobal>(rt: &R, inputs: &Inputs<'_>) -> Result<String, NoMemory> {
    let alloc = rt.alloc();
    let Some(feed) = stations_of(rt, inputs)? else {
        return Ok(String::new(alloc));
    };
    let mut text = far_line(alloc, &feed)?;
    let line = farthest_line(alloc, &feed)?;
    text.push_str(line.as_str())?;
    Ok(text)
}

/// Memory ran out.
pub(crate) fn no_memory<R: Files + AllocGlobal>(
    rt: &R,
    command: &Command<'_>,
    inputs: &Inputs<'_>,
) -> Result<String, NoMemory> {
    let alloc = rt.alloc();
    let fewer = fewer_lines(rt, command, &inputs.options)?;
    Ok(format!(in alloc;
        "octimap: there is not enough memory for a network of this size; draw fewer lines ({fewer})\n"
    )?)
}
