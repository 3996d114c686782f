//! A place for each name.

ghost use Rattle.std.specs.Prelude.{◌≡◌, ◌<◌, length, IfOk, OnOk};
ghost use Rattle.std.specs.List.{find};
ghost use Rattle.label_place.specs.Places.{all_places, places_of};
ghost use Rattle.label_place.specs.Grids.{Adds, IsLinked};
ghost use Rattle.label_place.specs.Signs.{areas, boxes_at, is_free, IsSign, Takes, TakesFree};

use crate::filling::{put_markers, put_walks, side_of};
use crate::grid::Grid;
use crate::place::{Place, Sign, box_at};
use crate::signs::sign_of;
use crate::things::Thing;
use graph_core::{LineGraph, NodeKind};
use map_base::{NoMemory, NodeId};
use octi_grid::Drawing;
use std::alloc::Global;
use svg_writer::Names;

/// The place of each node's name, in node order: none for a junction, and none where all eight places are taken. A place
/// is taken where the name's box shares a point with the box of an earlier name or with the square of a marker, or comes
/// nearer to a walk than seven units for each of its lines. Names are as wide as `picture` writes them: twelve units for
/// each character.
pub fn places(
    alloc: Global,
    graph: &LineGraph,
    names: &Names,
    drawing: &Drawing,
) -> Result<Vec<Option<Place>>, NoMemory>
    ensures exact { IfOk result (λ places. places.items ≡ places_of names.now graph.now drawing.now.walks) }
    ensures each { IfOk result (λ places. length places.items ≡ length graph.now.kinds) }
{
    let mut grid = Grid::none(alloc, side_of(graph));
    put_markers(&mut grid, graph, drawing)?;
    put_walks(&mut grid, graph, drawing)?;
    let mut found = Vec::new(alloc);
    for n in 0..graph.nodes() {
        found.push(take_place(&mut grid, graph, names, drawing, NodeId(n))?)?;
    }
    Ok(found)
}

/// The first place of a node's name that is free, if it is a station and there is one. Its box is put into the table.
fn take_place(
    grid: &mut Grid,
    graph: &LineGraph,
    names: &Names,
    drawing: &Drawing,
    n: NodeId,
) -> Result<Option<Place>, NoMemory>
    requires linked { IsLinked grid.old }
    requires node { n.0 < length graph.now.kinds }
    requires lines { length graph.now.lines ≡ length graph.now.ends }
    ensures { IfOk result (Takes grid.old grid.new names.now graph.now drawing.now.walks n.0) }
{
    match graph.kind(n) {
        NodeKind::Junction => Ok(None),
        NodeKind::Station(_) => {
            let sign = sign_of(graph, names, drawing, n)?;
            take_first_free(grid, sign)
        }
    }
}

/// The first place at which a name meets nothing in a table, if there is one. Its box is put into the table.
fn take_first_free(grid: &mut Grid, sign: Sign) -> Result<Option<Place>, NoMemory>
    requires linked { IsLinked grid.old }
    requires sign { IsSign sign }
    ensures { IfOk result (TakesFree grid.old grid.new sign) }
{
    let place = first_free(grid, sign);
    put_box(grid, sign, place)?;
    Ok(place)
}

/// Puts the box of a name at a place, if it has one.
fn put_box(grid: &mut Grid, sign: Sign, place: Option<Place>) -> Result<(), NoMemory>
    requires linked { IsLinked grid.old }
    requires sign { IsSign sign }
    ensures { OnOk result (Adds grid.old grid.new (areas (boxes_at sign place))) }
{
    match place {
        None => Ok(()),
        Some(place) => grid.put(Thing::Area(box_at(sign, place))),
    }
}

/// The first place at which a name meets nothing in a table.
fn first_free(grid: &Grid, sign: Sign) -> Option<Place>
    requires linked { IsLinked grid.now }
    requires sign { IsSign sign }
    ensures { result ≡ find (is_free grid.now sign) all_places }
{
    let all = [
        Place::NE,
        Place::SE,
        Place::NW,
        Place::SW,
        Place::E,
        Place::W,
        Place::N,
        Place::S,
    ];
    for place in &all {
        if is_free(grid, sign, *place) {
            return Some(*place);
        }
    }
    None
}

/// Whether a name meets nothing in a table at a place.
fn is_free(grid: &Grid, sign: Sign, place: Place) -> bool
    requires linked { IsLinked grid.now }
    requires sign { IsSign sign }
    ensures { result ≡ is_free grid.now sign place }
{
    !grid.meets(box_at(sign, place))
}
