//! Where the search for line orders took more branch nodes than its budget.

use crate::fewer_lines::fewer_lines;
use crate::set_keys::{is_map, is_plain_make};
use crate::station_words::node_name;
use command_inputs::Inputs;
use command_paths::Options;
use command_words::Command;
use file_lookup::{Network, network_of, settings_of};
use map_base::NoMemory;
use map_method::{Claim, MapSettings, Search};
use std::alloc::Global;
use std::rt::Files;

/// The most lines that a segment may have where it is searched by dual prices.
const WIDEST: usize = 16;

/// The greatest budget.
const MOST: u32 = 100_000;

/// The lines where the search for the orders of a part met so many branch nodes.
pub(crate) fn spent<R: Files + AllocGlobal>(
    rt: &R,
    command: &Command<'_>,
    inputs: &Inputs<'_>,
    branches: u32,
) -> Result<String, NoMemory> {
    let alloc = rt.alloc();
    let budget = branches.saturating_sub(1);
    let mut text = format!(in alloc;
        "octimap: no line orders were proved best within {budget} branch nodes, the key budget\n"
    )?;
    let line = match settings_of(rt, inputs)? {
        Some(chosen) => match too_wide(rt, command, inputs, &chosen)? {
            Some(line) => line,
            None => what_helps(rt, command, inputs, &chosen)?,
        },
        None => String::new(alloc),
    };
    text.push_str(line.as_str())?;
    Ok(text)
}

/// The line where a segment has more lines than are searched by dual prices, though these are asked for: only fewer
/// lines help there.
fn too_wide<R: Files + AllocGlobal>(
    rt: &R,
    command: &Command<'_>,
    inputs: &Inputs<'_>,
    chosen: &MapSettings,
) -> Result<Option<String>, NoMemory> {
    if chosen.method.search == Search::Live {
        return Ok(None);
    }
    let Some(network) = network_of(rt, command, inputs)? else {
        return Ok(None);
    };
    let fewer = fewer_lines(rt, command, &inputs.options)?;
    wide_line(rt.alloc(), &network, fewer)
}

/// The same, of a network.
fn wide_line(alloc: Global, network: &Network, fewer: &str) -> Result<Option<String>, NoMemory> {
    let Some((seg, lines)) = network.widest() else {
        return Ok(None);
    };
    if lines <= WIDEST || seg.0 >= network.graph.segs() {
        return Ok(None);
    }
    let (low, up) = network.graph.ends(seg);
    let one = node_name(alloc, network, low)?;
    let other = node_name(alloc, network, up)?;
    Ok(Some(format!(in alloc;
        "octimap: {lines} lines run side by side from {one} to {other}: orders of more than {WIDEST} take too many branch \
        nodes, and only fewer lines help ({fewer})\n"
    )?))
}

/// The line that says what may help, by what is not set already.
pub(crate) fn what_helps<R: Files + AllocGlobal>(
    rt: &R,
    command: &Command<'_>,
    inputs: &Inputs<'_>,
    chosen: &MapSettings,
) -> Result<String, NoMemory> {
    let alloc = rt.alloc();
    let is_live = chosen.method.search == Search::Live;
    let mut text = String::from_str(alloc, "octimap: what may help: ")?;
    if is_live {
        text.push_str(other_search(rt, command, &inputs.options)?)?;
    }
    if chosen.method.claim == Claim::Best {
        text.push_str(bound_words(is_live))?;
    }
    if chosen.settings.budget < MOST {
        text.push_str("a greater budget, by --set budget=100000; ")?;
    }
    let fewer = fewer_lines(rt, command, &inputs.options)?;
    text.push_str("fewer lines (")?;
    text.push_str(fewer)?;
    text.push_str(")\n")?;
    Ok(text)
}

/// How another search is asked for than the live one.
fn other_search<R: Files + AllocGlobal>(
    rt: &R,
    command: &Command<'_>,
    options: &Options<'_>,
) -> Result<&'static str, NoMemory> {
    if is_map(rt, options)? {
        return Ok("the search by prices, by --set 'search=\"dual\"'; ");
    }
    if is_plain_make(rt, command, options)? {
        return Ok("`octimap map` in place of make; ");
    }
    Ok("the search of `octimap map`, by --set 'method=\"map\"'; ")
}

/// How good orders with a bound are asked for.
fn bound_words(is_live: bool) -> &'static str {
    if is_live {
        "good orders with a proved bound, by --set 'search=\"dual\"' --set 'proof=\"bound\"'; "
    } else {
        "good orders with a proved bound, by --set 'proof=\"bound\"'; "
    }
}
