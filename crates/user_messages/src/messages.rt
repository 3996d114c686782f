//! The lines for a user, by how a run ended.

use crate::bad_edit::bad_edit;
use crate::bad_graph::bad_graph;
use crate::bad_row::{BadRow, bad_row};
use crate::bad_settings::bad_settings;
use crate::done::done;
use crate::files::{unread, unwritten};
use crate::limits::{above, no_memory};
use crate::no_picture::no_picture;
use crate::no_route::no_route;
use crate::refuted::refuted;
use crate::spent::spent;
use asked_inputs::inputs_of;
use command_inputs::Inputs;
use command_words::{Command, command_of};
use disk_files::WriteError;
use map_base::NoMemory;
use run_status::Status;
use std::rt::Files;

/// The lines that standard error gets after a run of the program on these words that ended with this status, each with
/// an LF at its end: empty where nothing is to be said. `fault` is the last error of the system in writing, if there
/// was one.
pub fn message<R: Files + AllocGlobal + Clone + Drop>(
    rt: &R,
    words: &[String],
    status: &Status,
    fault: Option<WriteError<'_>>,
) -> Result<String, NoMemory> {
    match command_of(rt.alloc(), words) {
        Ok(command) => of_command(rt, &command, status, fault),
        Err(_) => Ok(String::new(rt.alloc())),
    }
}

/// The lines for a command that was read.
fn of_command<R: Files + AllocGlobal + Clone + Drop>(
    rt: &R,
    command: &Command<'_>,
    status: &Status,
    fault: Option<WriteError<'_>>,
) -> Result<String, NoMemory> {
    let inputs = inputs_of(command);
    match status {
        Status::Done => done(rt, command, &inputs),
        Status::WriteFault => unwritten(rt.alloc(), command, fault),
        Status::BadEdit { line } => bad_edit(rt, &inputs, *line),
        Status::NoRoute { .. } | Status::Spent { .. } | Status::Limit(_) | Status::NoMemory => {
            of_size(rt, command, &inputs, status)
        }
        _ => of_inputs(rt, &inputs, status),
    }
}

/// The lines where a network is too large or too dense for its settings. A trial has none that could be set.
fn of_size<R: Files + AllocGlobal>(
    rt: &R,
    command: &Command<'_>,
    inputs: &Inputs<'_>,
    status: &Status,
) -> Result<String, NoMemory> {
    if let Command::Trial { .. } = command {
        return Ok(String::new(rt.alloc()));
    }
    match status {
        Status::NoRoute { seg } => no_route(rt, command, inputs, *seg),
        Status::Spent { branches, .. } => spent(rt, command, inputs, *branches),
        Status::Limit(limit) => above(rt, command, inputs, *limit),
        _ => no_memory(rt, command, inputs),
    }
}

/// The lines where what a command reads is all that matters.
fn of_inputs<R: Files + AllocGlobal + Clone + Drop>(
    rt: &R,
    inputs: &Inputs<'_>,
    status: &Status,
) -> Result<String, NoMemory> {
    let alloc = rt.alloc();
    match status {
        Status::BadRow { table, row, why } => {
            let (table, row, why) = (*table, *row, *why);
            bad_row(rt, inputs.feed, BadRow { table, row, why })
        }
        Status::Refuted(item) => refuted(rt, inputs, item),
        Status::Missing { path } => no_picture(rt, path.as_str()),
        Status::ReadFault { path } => unread(rt, path.as_str()),
        Status::BadSettings(why) => bad_settings(rt, &inputs.options, why),
        Status::BadGraph(why) => bad_graph(rt, inputs.script, *why),
        Status::Done
        | Status::Usage
        | Status::WriteFault
        | Status::NoRoute { .. }
        | Status::BadEdit { .. }
        | Status::Spent { .. }
        | Status::Limit(_)
        | Status::NoMemory => Ok(String::new(alloc)),
    }
}
