//! The whole geographic map.

ghost use Rattle.std.specs.Prelude.{◌≡◌, All, IfOk};
ghost use Rattle.order_model.specs.Costs.{AreOrders};
ghost use Rattle.geo_lines.specs.Courses.{IsCourse};
ghost use Rattle.geo_map.specs.GeoMap.{geographic_text};

use crate::frame::bounds_of;
use crate::plane::PlaneDrawing;
use crate::style::plane_style;
use graph_core::LineGraph;
use map_base::{NoMemory, Point, Sequence};
use order_values::Orders;
use std::alloc::Global;
use svg_writer::{Names, picture_of};

/// The geographic map of a line graph as SVG 1.1, with a course and an order for each of its segments, and names that hold
/// each of its stations and lines.
pub fn geographic(
    alloc: Global,
    graph: &LineGraph,
    names: &Names,
    lines: &[Sequence<Point>],
    orders: &Orders,
) -> Result<Vec<u8>, NoMemory>
    requires courses { All IsCourse lines.now }
    requires ordered { AreOrders graph.now.lines orders.now.lists }
    ensures { IfOk result (λ map. map.items ≡ geographic_text names.now graph.now lines.now orders.now.lists) }
{
    let _nodes = graph.nodes();
    let drawn = PlaneDrawing {
        alloc,
        graph,
        lines,
    };
    let frame = bounds_of(lines);
    picture_of(alloc, plane_style(), graph, names, &drawn, orders, frame)
}
