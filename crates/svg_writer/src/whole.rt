//! The whole picture.

ghost use Rattle.std.specs.Prelude.{◌≡◌, ◌++◌, List, IfOk, OnOk, string_bytes};
ghost use Rattle.svg_writer.specs.Courses.{AreInReach};
ghost use Rattle.svg_writer.specs.Elements.{element_text, texts, AreBounds, Head};
ghost use Rattle.svg_writer.specs.Picture.{all_joins, all_lines, all_markers, elements, picture_text, placed_text};

use crate::bounds::Bounds;
use crate::drawable::Drawn;
use crate::elements::{push_head, push_tail};
use crate::grid::GridDrawing;
use crate::lines::{push_all_joins, push_all_lines};
use crate::names::Names;
use crate::scene::Scene;
use crate::stations::{push_all_labels, push_all_markers, push_placed_labels};
use crate::style::{Style, grid_style};
use crate::walked::bounds_of;
use graph_core::LineGraph;
use line_offsets::Corner;
use map_base::NoMemory;
use octi_grid::Drawing;
use order_values::Orders;
use std::alloc::Global;

/// The picture of a line graph as SVG 1.1 in a style, with a drawing, an order for each of its segments, and names that
/// hold each of its stations and lines. It shows the bounds `frame`, and in order: each line of each segment, each line
/// from segment to segment at each node, the markers of stations, and their names.
pub fn picture_of<D: Drawn>(
    alloc: Global,
    style: Style,
    graph: &LineGraph,
    names: &Names,
    drawn: &D,
    orders: &Orders,
    frame: Bounds,
) -> Result<Vec<u8>, NoMemory>
    requires reach { AreInReach (D.Reaches drawn.now) orders.now.lists }
    requires frame { AreBounds frame }
    ensures { IfOk result (λ text. text.items ≡ texts style (elements style names.now graph.now (D.courses drawn.now) orders.now.lists frame)) }
{
    let scene = Scene {
        style,
        graph,
        names,
        drawn,
        orders,
    };
    let mut text = String::new(alloc);
    push_map(alloc, &mut text, &scene, frame)?;
    push_all_labels(&mut text, &scene)?;
    push_tail(&mut text, style)?;
    Ok(text.into_bytes())
}

/// The picture of a line graph on the grid, with a walk for each of its segments.
pub fn picture(
    alloc: Global,
    graph: &LineGraph,
    names: &Names,
    drawing: &Drawing,
    orders: &Orders,
) -> Result<Vec<u8>, NoMemory>
    ensures { IfOk result (λ text. text.items ≡ picture_text names.now graph.now drawing.now.walks orders.now.lists) }
{
    let drawn = GridDrawing { graph, drawing };
    let frame = bounds_of(drawing.walks.as_slice());
    picture_of(alloc, grid_style(), graph, names, &drawn, orders, frame)
}

/// The picture of a line graph on the grid within the bounds `frame`, where the names of stations begin at `spots`, one
/// for each node: a name with no place is left off.
pub fn picture_with(
    alloc: Global,
    graph: &LineGraph,
    names: &Names,
    drawing: &Drawing,
    orders: &Orders,
    frame: Bounds,
    spots: &[Option<Corner>],
) -> Result<Vec<u8>, NoMemory>
    requires { AreBounds frame }
    ensures { IfOk result (λ text. text.items ≡ placed_text names.now graph.now drawing.now.walks orders.now.lists frame spots.now) }
{
    let style = grid_style();
    let drawn = GridDrawing { graph, drawing };
    let scene = Scene {
        style,
        graph,
        names,
        drawn: &drawn,
        orders,
    };
    let mut text = String::new(alloc);
    push_map(alloc, &mut text, &scene, frame)?;
    push_placed_labels(&mut text, &scene, spots)?;
    push_tail(&mut text, style)?;
    Ok(text.into_bytes())
}

/// Appends all but the names and the end: the head with these bounds, the lines, and the markers.
fn push_map<D: Drawn>(
    alloc: Global,
    text: &mut String,
    scene: &Scene<'_, D>,
    frame: Bounds,
) -> Result<(), NoMemory>
    requires reach { AreInReach (D.Reaches scene.now.drawn.now) scene.now.orders.now.lists }
    requires frame { AreBounds frame }
    ensures { OnOk result (string_bytes text.new ≡ string_bytes text.old ++ (element_text scene.now.style (Head frame)
        ++ (texts scene.now.style (all_lines scene.now.names.now scene.now.graph.now (D.courses scene.now.drawn.now) scene.now.orders.now.lists)
        ++ (texts scene.now.style (all_joins scene.now.names.now scene.now.graph.now (D.courses scene.now.drawn.now) scene.now.orders.now.lists)
        ++ texts scene.now.style (all_markers scene.now.style scene.now.graph.now (D.courses scene.now.drawn.now)))))) }
{
    push_head(text, scene.style, frame)?;
    push_all_lines(alloc, text, scene)?;
    push_all_joins(text, scene)?;
    push_all_markers(text, scene)?;
    Ok(())
}
