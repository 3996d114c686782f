//! The poster as a whole.

ghost use Rattle.std.specs.Prelude.{◌≡◌, ◌≤◌, ◌++◌, length, IfOk, IfSome, OnOk, string_bytes};
ghost use Rattle.graph_core.specs.Consistent.{IsConsistent};
ghost use Rattle.poster_graph.specs.Words.{AreTextsOf};
ghost use Rattle.poster_layout.specs.Extents.{IsDrawnFrame, IsLegend};
ghost use Rattle.poster_plan.specs.Legends.{legend_of};
ghost use Rattle.poster_rules.specs.Elements.{texts};
ghost use Rattle.poster_rules.specs.Plans.{lines_shown, widest};
ghost use Rattle.poster_rules.specs.Posters.{elements_with, poster_text};
ghost use Rattle.poster_picture.specs.Parts.{legend_part, map_part, names_part};
ghost use Rattle.poster_picture.specs.Sheets.{plain};

use crate::elements::{
    close_group, open_legend, open_lines, open_names, open_stations, push_ground, push_head,
    push_tail,
};
use crate::lines::{push_all_joins, push_all_lines};
use crate::names::push_all_names;
use crate::rows::push_legend;
use crate::sheet::Sheet;
use crate::stations::push_all_stations;
use eight_sides::Frame;
use graph_core::LineGraph;
use map_base::{LineId, NoMemory, Sequence};
use octi_grid::Drawing;
use order_values::Orders;
use poster_graph::{Served, Texts, lines_shown, plan_of, texts_of, widest};
use poster_layout::{frame_beside, frame_with, layout_of, legend_of};
use poster_plan::{Legend, Plan, Printed};
use std::alloc::Global;
use svg_writer::Names;

/// The poster of a line graph (SVG 1.1), with the lines that call at each of its nodes, rising.
pub fn poster(
    alloc: Global,
    graph: &LineGraph,
    names: &Names,
    drawing: &Drawing,
    orders: &Orders,
    callers: &Sequence<Sequence<LineId>>,
) -> Result<Vec<u8>, NoMemory>
    ensures { IfOk result (λ text. text.items ≡ poster_text names.now graph.now drawing.now.walks orders.now.lists callers.now) }
{
    let words = texts_of(alloc, graph, names)?;
    let served = Served {
        graph,
        names,
        drawing,
        callers,
    };
    let plan = plan_of(alloc, served, &words)?;
    let layout = layout_of(alloc, &plan)?;
    let sheet = Sheet {
        graph,
        names,
        drawing,
        orders,
        callers,
        pitch: layout.pitch,
    };
    let text = write_sheet(alloc, sheet, &plan, &words, layout.printed.as_slice())?;
    Ok(text)
}

/// The text of a sheet, with these names. A line graph has no more than 1,000 lines: for more there is no room.
fn write_sheet(
    alloc: Global,
    sheet: Sheet<'_>,
    plan: &Plan,
    words: &Texts<'_>,
    printed: &[Printed],
) -> Result<Vec<u8>, NoMemory>
    requires pitch { sheet.pitch ≤ 200 }
    requires graph { IsConsistent sheet.graph.now }
    requires words { AreTextsOf sheet.names.now sheet.graph.now words.now }
    ensures { IfOk result (λ text. text.items ≡ texts (elements_with (plain sheet.entry) plan.now printed.now (lines_shown (length sheet.entry.names.now.lines) sheet.entry.graph.now) (legend_of sheet.entry.pitch plan.now printed.now (length (lines_shown (length sheet.entry.names.now.lines) sheet.entry.graph.now)) (widest sheet.entry.names.now (lines_shown (length sheet.entry.names.now.lines) sheet.entry.graph.now))))) }
{
    let lines = lines_shown(alloc, sheet.names.lines.as_slice().len(), sheet.graph)?;
    if lines.len() > 1000 {
        return Err(NoMemory);
    }
    let widest = widest(sheet.names, lines.as_slice())?;
    let count = lines.len() as u32;
    let legend = legend_of(sheet.pitch, plan, printed, count, widest);
    let map = frame_with(sheet.pitch, plan, printed);
    let frame = frame_beside(map, count, widest, legend);
    let mut text = String::new(alloc);
    push_map(alloc, &mut text, sheet, frame)?;
    push_names(alloc, &mut text, sheet, plan, words, printed)?;
    push_end(&mut text, sheet.names, legend, lines.as_slice())?;
    Ok(text.into_bytes())
}

/// Appends the head, the ground, lines and stations.
fn push_map(
    alloc: Global,
    text: &mut String,
    sheet: Sheet<'_>,
    frame: Frame,
) -> Result<(), NoMemory>
    requires pitch { sheet.pitch ≤ 200 }
    requires frame { IsDrawnFrame frame }
    ensures { OnOk result (string_bytes text.new ≡ string_bytes text.old ++ texts (map_part (plain sheet.entry) frame)) }
{
    push_head(text, frame)?;
    push_ground(text, frame)?;
    open_lines(text)?;
    push_all_lines(alloc, text, sheet)?;
    push_all_joins(text, sheet)?;
    close_group(text)?;
    open_stations(text)?;
    push_all_stations(alloc, text, sheet)?;
    close_group(text)?;
    Ok(())
}

/// Appends the names.
fn push_names(
    alloc: Global,
    text: &mut String,
    sheet: Sheet<'_>,
    plan: &Plan,
    words: &Texts<'_>,
    printed: &[Printed],
) -> Result<(), NoMemory>
    requires pitch { sheet.pitch ≤ 200 }
    requires graph { IsConsistent sheet.graph.now }
    requires words { AreTextsOf sheet.names.now sheet.graph.now words.now }
    ensures { OnOk result (string_bytes text.new ≡ string_bytes text.old ++ texts (names_part (plain sheet.entry) plan.now printed.now)) }
{
    open_names(text)?;
    push_all_names(alloc, text, sheet, plan, words, printed)?;
    close_group(text)?;
    Ok(())
}

/// Appends the legend and the end.
fn push_end(
    text: &mut String,
    names: &Names,
    legend: Option<Legend>,
    lines: &[LineId],
) -> Result<(), NoMemory>
    requires few { length lines.now ≤ 1000 }
    requires legend { IfSome legend IsLegend }
    ensures { OnOk result (string_bytes text.new ≡ string_bytes text.old ++ texts (legend_part names.now legend lines.now)) }
{
    open_legend(text)?;
    push_legend(text, names, legend, lines)?;
    close_group(text)?;
    push_tail(text)?;
    Ok(())
}
