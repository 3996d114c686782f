//! Routes of a feed that are not drawn, and stations without a name, where a map shows some.

use crate::blank_map::list_with;
use crate::set_keys::is_set;
use command_inputs::Inputs;
use file_lookup::{RouteTypes, each_once, nameless_stations, not_shown, route_types};
use map_base::{NoMemory, Text};
use message_texts::{is_guided, list_of, plain_type, vehicle_name};
use std::alloc::Global;
use std::fmt::Write;
use std::rt::Files;

/// How many ids are told.
const TOLD: usize = 5;

/// How many types of routes are told in words.
const TYPES: usize = 12;

/// The lines for routes of types that are not drawn, where some of the feed are: first those on rails or cables. Where
/// the user set the types, those alone that say the same as one that is drawn, as an extended type beside a plain one.
pub(crate) fn types_left_out<R: Files + AllocGlobal>(
    rt: &R,
    inputs: &Inputs<'_>,
) -> Result<String, NoMemory> {
    let alloc = rt.alloc();
    let Some(types) = route_types(rt, inputs)? else {
        return Ok(String::new(alloc));
    };
    if types.drawn.is_empty() {
        return Ok(String::new(alloc));
    }
    let is_chosen = is_set(rt, &inputs.options, "types")?;
    let guided = left_out(alloc, &types, is_chosen, true)?;
    let other = left_out(alloc, &types, is_chosen, false)?;
    let mut text = guided_line(alloc, &types, guided.as_slice())?;
    let line = other_line(alloc, &types, guided.as_slice(), other.as_slice())?;
    text.push_str(line.as_str())?;
    Ok(text)
}

/// The types of the routes that are left out and are to be told, of those on rails or cables or of all others: one for
/// each route, rising.
fn left_out(
    alloc: Global,
    types: &RouteTypes,
    is_chosen: bool,
    guided: bool,
) -> Result<Vec<u32>, NoMemory> {
    let mut told = Vec::new(alloc);
    for kind in &types.left_out {
        let is_told = !is_chosen || says_the_same(types.drawn.as_slice(), *kind);
        if is_told && is_guided(*kind) == guided {
            told.push(*kind)?;
        }
    }
    Ok(told)
}

/// Whether one of these types says the same of a route as another.
fn says_the_same(types: &[u32], kind: u32) -> bool {
    let plain = plain_type(kind);
    types.iter().any(|other| plain_type(*other) == plain)
}

/// The line for routes on rails or cables; empty where there are none.
fn guided_line(alloc: Global, types: &RouteTypes, guided: &[u32]) -> Result<String, NoMemory> {
    if guided.is_empty() {
        return Ok(String::new(alloc));
    }
    let counts = counts_of(alloc, guided)?;
    let list = list_with(alloc, types.drawn.as_slice(), guided)?;
    Ok(format!(in alloc;
        "octimap: routes on rails or cables that are not drawn: {counts}; to draw them, add --set 'types=[{list}]'\n"
    )?)
}

/// The line for all other routes; empty where there are none.
fn other_line(
    alloc: Global,
    types: &RouteTypes,
    guided: &[u32],
    other: &[u32],
) -> Result<String, NoMemory> {
    if other.is_empty() {
        return Ok(String::new(alloc));
    }
    let counts = counts_of(alloc, other)?;
    let mut all = guided.to_vec(alloc)?;
    all.extend_from_slice(other)?;
    let list = list_with(alloc, types.drawn.as_slice(), all.as_slice())?;
    let (first, too) = if guided.is_empty() {
        ("routes", "")
    } else {
        ("other routes", " too")
    };
    Ok(format!(in alloc;
        "octimap: {first} that are not drawn: {counts}; to draw them{too}, add --set 'types=[{list}]'\n"
    )?)
}

/// How many routes there are of each of these types, which rise: the first twelve types.
fn counts_of(alloc: Global, types: &[u32]) -> Result<String, NoMemory> {
    let kinds = each_once(types.to_vec(alloc)?)?;
    let mut text = String::new(alloc);
    for (place, kind) in kinds.iter().enumerate() {
        if place == TYPES {
            text.push_str(" ..")?;
            break;
        }
        if place > 0 {
            text.push_str(", ")?;
        }
        let count = types.iter().filter(|other| **other == *kind).count();
        push_count(&mut text, count, *kind)?;
    }
    Ok(text)
}

/// Puts how many routes there are of a type behind a text.
fn push_count(text: &mut String, count: usize, kind: u32) -> Result<(), NoMemory> {
    write!(text, "{count} of type {kind}")?;
    let name = vehicle_name(kind);
    if !name.is_empty() {
        write!(text, " ({name})")?;
    }
    Ok(())
}

/// The lines for routes of a type that is drawn that the map of this path has no way for, and for its stations without
/// a name.
pub(crate) fn not_on_map<R: Files + AllocGlobal>(
    rt: &R,
    inputs: &Inputs<'_>,
    picture: &str,
) -> Result<String, NoMemory> {
    let alloc = rt.alloc();
    let Some(found) = not_shown(rt, inputs, picture)? else {
        return Ok(String::new(alloc));
    };
    let mut text = wayless_line(alloc, found.routes.as_slice())?;
    if found.nameless > 0 {
        let ids = nameless_stations(rt, inputs.feed)?;
        let line = nameless_line(alloc, found.nameless, ids.as_slice())?;
        text.push_str(line.as_str())?;
    }
    Ok(text)
}

/// The line for routes that have no way; empty where there are none.
fn wayless_line(alloc: Global, routes: &[Text]) -> Result<String, NoMemory> {
    if routes.is_empty() {
        return Ok(String::new(alloc));
    }
    let count = routes.len();
    let list = list_of(alloc, routes, TOLD)?;
    Ok(format!(in alloc;
        "octimap: routes without a trip between two stations, which are not drawn: {count}; route_id {list}\n"
    )?)
}

/// The line for stations without a name.
fn nameless_line(alloc: Global, count: usize, ids: &[Text]) -> Result<String, NoMemory> {
    if ids.is_empty() {
        return Ok(format!(in alloc;
            "octimap: stations of the map without a name: {count}; edits with rename give names\n"
        )?);
    }
    let list = list_of(alloc, ids, TOLD)?;
    Ok(format!(in alloc;
        "octimap: stations of the map without a name: {count}; edits with rename give names; stops.txt has no stop_name \
        for stop_id {list}\n"
    )?)
}
