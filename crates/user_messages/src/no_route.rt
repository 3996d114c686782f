//! No grid gives each segment a way.

use crate::fewer_lines::is_import;
use crate::set_keys::{is_map, is_plain_make, is_set, set_value};
use crate::station_words::{far_off_line, node_name};
use command_inputs::Inputs;
use command_paths::Options;
use command_words::Command;
use file_lookup::{Network, network_of};
use map_base::{NoMemory, SegId};
use std::alloc::Global;
use std::rt::Files;

/// How many directions the grid has.
const DIRECTIONS: usize = 8;

/// The lines for the first segment without a way: between which stations it lies, and what may do.
pub(crate) fn no_route<R: Files + AllocGlobal>(
    rt: &R,
    command: &Command<'_>,
    inputs: &Inputs<'_>,
    seg: SegId,
) -> Result<String, NoMemory> {
    let alloc = rt.alloc();
    let mut text = String::new(alloc);
    let mut most = 0;
    if let Some(network) = network_of(rt, command, inputs)? {
        let line = between(alloc, &network, seg)?;
        text.push_str(line.as_str())?;
        let line = far_off_line(alloc, &network)?;
        text.push_str(line.as_str())?;
        most = meeting(&network, seg);
    }
    let hint = hint(rt, command, &inputs.options, most)?;
    text.push_str(hint.as_str())?;
    Ok(text)
}

/// Between which stations a segment lies, and whether more segments meet there than have room.
fn between(alloc: Global, network: &Network, seg: SegId) -> Result<String, NoMemory> {
    if seg.0 >= network.graph.segs() {
        return Ok(String::new(alloc));
    }
    let (low, up) = network.graph.ends(seg);
    let one = node_name(alloc, network, low)?;
    let other = node_name(alloc, network, up)?;
    let crowd = crowd(alloc, meeting(network, seg))?;
    Ok(format!(in alloc;
        "octimap: on no grid that was tried is there a free way from {one} to {other}{crowd}\n"
    )?)
}

/// How many segments meet at an end of a segment, at that where more do.
fn meeting(network: &Network, seg: SegId) -> usize {
    if seg.0 >= network.graph.segs() {
        return 0;
    }
    let (low, up) = network.graph.ends(seg);
    network.meeting(low).max(network.meeting(up))
}

/// What is said where more segments meet at an end than have room.
fn crowd(alloc: Global, most: usize) -> Result<String, NoMemory> {
    if most > DIRECTIONS {
        return Ok(format!(in alloc;
            "; {most} segments meet at one of them, and the grid has eight directions"
        )?);
    }
    Ok(String::new(alloc))
}

/// What may do, where so many segments meet at an end.
fn hint<R: Files + AllocGlobal>(
    rt: &R,
    command: &Command<'_>,
    options: &Options<'_>,
    most: usize,
) -> Result<String, NoMemory> {
    if most > DIRECTIONS {
        return Ok(String::from_str(rt.alloc(), fewer_there(is_import(command)))?);
    }
    more_room(rt, command, options)
}

/// What may do where lines have too little room: keys that give more of it, by what is not set already, or fewer lines.
pub(crate) fn more_room<R: Files + AllocGlobal>(
    rt: &R,
    command: &Command<'_>,
    options: &Options<'_>,
) -> Result<String, NoMemory> {
    let alloc = rt.alloc();
    let mut text = String::new(alloc);
    text.push_str(smaller_cell(rt, options)?)?;
    if lacks_tries(rt, options)? {
        text.push_str(as_map(rt, command, options)?)?;
        return Ok(text);
    }
    if is_import(command) {
        text.push_str("octimap: place stations farther apart, or leave out lines\n")?;
        return Ok(text);
    }
    let line = in_feed(rt, options)?;
    text.push_str(line.as_str())?;
    Ok(text)
}

/// Whether fewer grids are tried than `map` tries, and the user set no other number of them.
fn lacks_tries<R: Files + AllocGlobal>(rt: &R, options: &Options<'_>) -> Result<bool, NoMemory> {
    if is_map(rt, options)? {
        return Ok(false);
    }
    let finest = is_set(rt, options, "finest")?;
    let spread = is_set(rt, options, "spread")?;
    Ok(!finest || !spread)
}

/// How finer grids and room for a dense centre are asked for, as `map` has them.
fn as_map<R: Files + AllocGlobal>(
    rt: &R,
    command: &Command<'_>,
    options: &Options<'_>,
) -> Result<&'static str, NoMemory> {
    if is_plain_make(rt, command, options)? {
        return Ok(
            "octimap: `octimap map` in place of make tries finer grids, and gives a dense centre room\n",
        );
    }
    Ok(
        "octimap: --set 'method=\"map\"' tries finer grids, and gives a dense centre room, as `octimap map` does\n",
    )
}

/// What may do where more segments meet than have room, on each grid.
fn fewer_there(is_import: bool) -> &'static str {
    if is_import {
        "octimap: leave out lines there\n"
    } else {
        "octimap: hide lines there (edits with hide), or try another near\n"
    }
}

/// What is said of the side of a grid cell that the user set; empty where none is set.
fn smaller_cell<R: Files + AllocGlobal>(
    rt: &R,
    options: &Options<'_>,
) -> Result<&'static str, NoMemory> {
    let cell = set_value(rt, options, "cell")?;
    if cell.is_empty() || cell.as_str() == "0" {
        return Ok("");
    }
    Ok("octimap: a smaller cell, or 0, has more room\n")
}

/// What may do for the map of a feed.
fn in_feed<R: Files + AllocGlobal>(rt: &R, options: &Options<'_>) -> Result<String, NoMemory> {
    let alloc = rt.alloc();
    let near = if is_set(rt, options, "near")? {
        ""
    } else {
        "a larger near joins ways that lie side by side, as --set near=1000; "
    };
    let types = if is_set(rt, options, "types")? {
        ""
    } else {
        "the key types, or "
    };
    Ok(format!(in alloc; "octimap: {near}fewer lines have more room ({types}edits with hide)\n")?)
}
