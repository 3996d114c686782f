//! A map that was made, and shows nothing.

use command_inputs::Inputs;
use command_words::Command;
use file_lookup::{RouteTypes, begins_with, each_once, route_types};
use map_base::NoMemory;
use message_texts::quoted;
use std::alloc::Global;
use std::fmt::Write;
use std::rt::Files;

/// How the certificate of a graph without nodes begins.
const OF_NOTHING: &[u8] = b"octimap 1\ngraph 0 0 0\n";

/// How a graph file without nodes begins.
const NO_FEATURES: &[u8] = b"{\"features\":[]";

/// How many types of routes are told: as many as may be drawn.
const TOLD: usize = 100;

/// The lines for a map that was made and shows nothing, and for a picture, a graph or a script's draws that do: which
/// routes the feed has, and what to do. Empty for all other commands, and for all other maps.
pub(crate) fn blank_map<R: Files + AllocGlobal>(
    rt: &R,
    command: &Command<'_>,
    inputs: &Inputs<'_>,
) -> Result<String, NoMemory> {
    match command {
        Command::Make { files, .. } => of_file(rt, files.map.certificate, OF_NOTHING, inputs),
        Command::Improve { files, .. } => of_file(rt, files.certificate, OF_NOTHING, inputs),
        Command::Import { graph, files, .. } => of_graph_file(rt, graph, files.certificate),
        Command::Depict { certificate, .. } => of_file(rt, certificate, OF_NOTHING, inputs),
        Command::Export { out, .. } => of_file(rt, out, NO_FEATURES, inputs),
        Command::Graph { .. } | Command::Session { .. } => of_routes(rt, inputs),
        _ => Ok(String::new(rt.alloc())),
    }
}

/// The lines for a map, a picture or a graph file, where a file begins as that of nothing does.
fn of_file<R: Files + AllocGlobal>(
    rt: &R,
    path: &str,
    begin: &[u8],
    inputs: &Inputs<'_>,
) -> Result<String, NoMemory> {
    if begins_with(rt, path, begin) {
        routes_line(rt, inputs)
    } else {
        Ok(String::new(rt.alloc()))
    }
}

/// The line for the map of a graph file, by the certificate that was written.
fn of_graph_file<R: Files + AllocGlobal>(
    rt: &R,
    graph: &str,
    certificate: &str,
) -> Result<String, NoMemory> {
    let alloc = rt.alloc();
    if !begins_with(rt, certificate, OF_NOTHING) {
        return Ok(String::new(alloc));
    }
    let shown = quoted(alloc, graph.as_bytes())?;
    Ok(format!(in alloc; "octimap: the map shows nothing: {shown} has no nodes\n")?)
}

/// Which routes the feed has, and what to do.
fn routes_line<R: Files + AllocGlobal>(rt: &R, inputs: &Inputs<'_>) -> Result<String, NoMemory> {
    let alloc = rt.alloc();
    match route_types(rt, inputs)? {
        Some(types) => types_line(alloc, &types),
        None => Ok(format!(in alloc;
            "octimap: the map shows nothing: each route is of a type that is not drawn, has no trip between two stations, \
            or is hidden\n"
        )?),
    }
}

/// The lines for a graph that was printed, and for the draws of a script: where no route is of a type that is drawn.
fn of_routes<R: Files + AllocGlobal>(rt: &R, inputs: &Inputs<'_>) -> Result<String, NoMemory> {
    let alloc = rt.alloc();
    let Some(types) = route_types(rt, inputs)? else {
        return Ok(String::new(alloc));
    };
    if types.drawn.is_empty() {
        types_line(alloc, &types)
    } else {
        Ok(String::new(alloc))
    }
}

/// Which types the routes have that are not drawn, and what to do.
fn types_line(alloc: Global, types: &RouteTypes) -> Result<String, NoMemory> {
    if types.left_out.is_empty() {
        let why = if types.drawn.is_empty() {
            "routes.txt has no routes"
        } else {
            "each route of a type that is drawn has no trip between two stations, or is hidden"
        };
        return Ok(format!(in alloc; "octimap: the map shows nothing: {why}\n")?);
    }
    let count = types.left_out.len();
    let kinds = each_once(types.left_out.as_slice().to_vec(alloc)?)?;
    let left_out = list_of_types(alloc, kinds.as_slice())?;
    let all = list_with(alloc, types.drawn.as_slice(), kinds.as_slice())?;
    Ok(format!(in alloc;
        "octimap: the map shows nothing: each route is of a type that is not drawn, has no trip between two stations, or \
        is hidden\n\
        octimap: routes in routes.txt that are not drawn: {count}; their types: {left_out}; to draw them, add --set \
        'types=[{all}]'\n"
    )?)
}

/// The types of two lists, each once and rising, with a comma between them: the first hundred.
pub(crate) fn list_with(alloc: Global, some: &[u32], more: &[u32]) -> Result<String, NoMemory> {
    let mut types = some.to_vec(alloc)?;
    types.extend_from_slice(more)?;
    let types = each_once(types)?;
    list_of_types(alloc, types.as_slice())
}

/// Types with a comma between them: the first hundred.
fn list_of_types(alloc: Global, types: &[u32]) -> Result<String, NoMemory> {
    let mut list = String::new(alloc);
    for (place, number) in types.iter().take(TOLD).enumerate() {
        if place > 0 {
            list.push_str(", ")?;
        }
        write!(list, "{number}")?;
    }
    Ok(list)
}
