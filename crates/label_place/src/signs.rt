//! Markers with their names.

ghost use Rattle.std.specs.Prelude.{◌≡◌, ◌≤◌, ◌<◌, length, IfOk, IfErr};
ghost use Rattle.std.specs.Str.{chars};
ghost use Rattle.label_place.specs.Places.{node_name, sign_of};
ghost use Rattle.label_place.specs.Signs.{IsSign};

use crate::place::Sign;
use graph_core::{LineGraph, NodeKind};
use map_base::{NoMemory, NodeId};
use octi_grid::Drawing;
use svg_writer::{Names, centre_of, radius_of, station_name};

/// The marker of a node, and how many characters its name has.
pub(crate) fn sign_of(
    graph: &LineGraph,
    names: &Names,
    drawing: &Drawing,
    n: NodeId,
) -> Result<Sign, NoMemory>
    requires node { n.0 < length graph.now.kinds }
    requires lines { length graph.now.lines ≡ length graph.now.ends }
    ensures value { IfOk result (λ s. s ≡ sign_of names.now graph.now drawing.now.walks n.0) }
    ensures small { IfOk result IsSign }
{
    let centre = centre_of(graph, drawing, n);
    let radius = radius_of(graph, n)?;
    let letters = letters_of(node_name(names, graph.kind(n)))?;
    Ok(Sign {
        centre,
        radius,
        letters,
    })
}

/// The name of a node: none where it is no station.
fn node_name<'a>(names: &'a Names, kind: NodeKind) -> &'a str
    ensures { result.now ≡ node_name names.now kind }
{
    match kind {
        NodeKind::Station(station) => station_name(names, station.0),
        NodeKind::Junction => "",
    }
}

/// How many characters a name has. One of more than 4,294,967,295, longer than any file may be, has no room.
fn letters_of(name: &str) -> Result<u32, NoMemory>
    ensures value { IfOk result (λ n. n ≡ length (chars name.now)) }
    ensures small { IfOk result (λ n. n ≤ 4294967295) }
    ensures longer { IfErr result (λ _. 4294967295 < length (chars name.now)) }
{
    let count = count_of(name);
    if count > 4_294_967_295 {
        return Err(NoMemory);
    }
    Ok(count as u32)
}

/// How many characters a text has.
fn count_of(text: &str) -> usize
    ensures { result ≡ length (chars text.now) }
{
    text.chars().count()
}
