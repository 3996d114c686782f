//! The labelled map.

ghost use Rattle.std.specs.Prelude.{◌≡◌, ◌<◌, ◌∷◌, [], length, fold, IfOk};
ghost use Rattle.svg_writer.specs.Elements.{AreBounds};
ghost use Rattle.label_place.specs.Boxes.{hull};
ghost use Rattle.label_place.specs.Places.{boxes_from};
ghost use Rattle.label_place.specs.Labelled.{frame_of, labelled_text, spot_of, spots_from};

use crate::boxes::hull;
use crate::place::{Place, box_at, text_at};
use crate::placing::places;
use crate::signs::sign_of;
use graph_core::LineGraph;
use line_offsets::Corner;
use map_base::{NoMemory, NodeId};
use octi_grid::Drawing;
use order_values::Orders;
use std::alloc::Global;
use svg_writer::{Bounds, Names, bounds_of, picture_with};

/// The picture of a line graph as SVG 1.1, with each station's name at its place, and none where it has no place. It shows
/// all grid points of its walks and the boxes of all names.
pub fn labelled(
    alloc: Global,
    graph: &LineGraph,
    names: &Names,
    drawing: &Drawing,
    orders: &Orders,
) -> Result<Vec<u8>, NoMemory>
    ensures { IfOk result (λ text. text.items ≡ labelled_text names.now graph.now drawing.now.walks orders.now.lists) }
{
    let places = places(alloc, graph, names, drawing)?;
    let frame = frame_of(graph, names, drawing, places.as_slice())?;
    let spots = spots_of(alloc, graph, names, drawing, places.as_slice())?;
    picture_with(
        alloc,
        graph,
        names,
        drawing,
        orders,
        frame,
        spots.as_slice(),
    )
}

/// The least box that holds all grid points of walks and the boxes of names at these places, one for each node.
fn frame_of(
    graph: &LineGraph,
    names: &Names,
    drawing: &Drawing,
    places: &[Option<Place>],
) -> Result<Bounds, NoMemory>
    requires { length places.now ≡ length graph.now.kinds }
    ensures value { IfOk result (λ b. b ≡ frame_of names.now graph.now drawing.now.walks places.now) }
    ensures small { IfOk result AreBounds }
{
    let mut frame = bounds_of(drawing.walks.as_slice());
    for n in 0..graph.nodes() {
        frame = frame_with(frame, graph, names, drawing, NodeId(n), places[n as usize])?;
    }
    Ok(frame)
}

/// Bounds, widened to hold the box of a node's name, if it has a place.
fn frame_with(
    frame: Bounds,
    graph: &LineGraph,
    names: &Names,
    drawing: &Drawing,
    n: NodeId,
    place: Option<Place>,
) -> Result<Bounds, NoMemory>
    requires frame { AreBounds frame }
    requires node { n.0 < length graph.now.kinds }
    requires lines { length graph.now.lines ≡ length graph.now.ends }
    ensures value { IfOk result (λ b. b ≡ fold hull frame (boxes_from names.now graph.now drawing.now.walks n.0 (place ∷ []))) }
    ensures small { IfOk result AreBounds }
{
    match place {
        None => Ok(frame),
        Some(place) => {
            let sign = sign_of(graph, names, drawing, n)?;
            Ok(hull(frame, box_at(sign, place)))
        }
    }
}

/// Where names begin at these places, one for each node.
fn spots_of(
    alloc: Global,
    graph: &LineGraph,
    names: &Names,
    drawing: &Drawing,
    places: &[Option<Place>],
) -> Result<Vec<Option<Corner>>, NoMemory>
    requires { length places.now ≡ length graph.now.kinds }
    ensures { IfOk result (λ spots. spots.items ≡ spots_from names.now graph.now drawing.now.walks 0 places.now) }
{
    let mut spots = Vec::new(alloc);
    for n in 0..graph.nodes() {
        spots.push(spot_of(graph, names, drawing, NodeId(n), places[n as usize])?)?;
    }
    Ok(spots)
}

/// Where the name of a node begins, if it has a place.
fn spot_of(
    graph: &LineGraph,
    names: &Names,
    drawing: &Drawing,
    n: NodeId,
    place: Option<Place>,
) -> Result<Option<Corner>, NoMemory>
    requires node { n.0 < length graph.now.kinds }
    requires lines { length graph.now.lines ≡ length graph.now.ends }
    ensures { IfOk result (λ spot. spot ≡ spot_of names.now graph.now drawing.now.walks n.0 place) }
{
    match place {
        None => Ok(None),
        Some(place) => {
            let sign = sign_of(graph, names, drawing, n)?;
            Ok(Some(text_at(sign, place)))
        }
    }
}
