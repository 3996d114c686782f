//! What a run that went well left out.

use crate::blank_map::blank_map;
use crate::poster_lines::poster_lines;
use crate::refused_draws::refused_draws;
use crate::route_lines::{not_on_map, types_left_out};
use crate::station_words::far_line;
use command_inputs::Inputs;
use command_paths::Picture;
use command_words::Command;
use file_lookup::{has_far_stations, stations_of};
use map_base::NoMemory;
use std::alloc::Global;
use std::rt::Files;

/// How many lines are told at most.
const MOST: usize = 8;

/// The lines for a run that went well, those that weigh most first: that the map shows nothing, or else what is not on
/// it. Eight lines at most.
pub(crate) fn done<R: Files + AllocGlobal>(
    rt: &R,
    command: &Command<'_>,
    inputs: &Inputs<'_>,
) -> Result<String, NoMemory> {
    let alloc = rt.alloc();
    let blank = blank_map(rt, command, inputs)?;
    if !blank.is_empty() {
        return Ok(blank);
    }
    let text = match command {
        Command::Make { files, .. } => of_map(rt, inputs, files.map.picture)?,
        Command::Improve { files, .. } => of_map(rt, inputs, files.picture)?,
        Command::Graph { .. } | Command::Export { .. } => types_left_out(rt, inputs)?,
        Command::Session { out, .. } => of_session(rt, command, inputs, out)?,
        Command::Depict {
            kind: Picture::Poster,
            out,
            ..
        } => poster_lines(rt, out)?,
        _ => String::new(alloc),
    };
    first_lines(alloc, text.as_str())
}

/// The lines for a map that was written to a path.
fn of_map<R: Files + AllocGlobal>(
    rt: &R,
    inputs: &Inputs<'_>,
    picture: &str,
) -> Result<String, NoMemory> {
    let mut text = types_left_out(rt, inputs)?;
    let line = of_far_stations(rt, inputs)?;
    text.push_str(line.as_str())?;
    let lines = not_on_map(rt, inputs, picture)?;
    text.push_str(lines.as_str())?;
    Ok(text)
}

/// The lines for a session whose draws were written to a path.
fn of_session<R: Files + AllocGlobal>(
    rt: &R,
    command: &Command<'_>,
    inputs: &Inputs<'_>,
    out: &str,
) -> Result<String, NoMemory> {
    let mut text = refused_draws(rt, command, inputs, out)?;
    let lines = types_left_out(rt, inputs)?;
    text.push_str(lines.as_str())?;
    Ok(text)
}

/// A line for stations of the map that lie far from all others. All tables are read only where the feed has such
/// stations.
fn of_far_stations<R: Files + AllocGlobal>(
    rt: &R,
    inputs: &Inputs<'_>,
) -> Result<String, NoMemory> {
    let alloc = rt.alloc();
    if !has_far_stations(rt, inputs.feed)? {
        return Ok(String::new(alloc));
    }
    match stations_of(rt, inputs)? {
        Some(feed) => far_line(alloc, &feed),
        None => Ok(String::new(alloc)),
    }
}

/// The first eight lines of a text.
fn first_lines(alloc: Global, text: &str) -> Result<String, NoMemory> {
    let mut first = String::new(alloc);
    for line in text.lines().take(MOST) {
        first.push_str(line)?;
        first.push_str("\n")?;
    }
    Ok(first)
}
