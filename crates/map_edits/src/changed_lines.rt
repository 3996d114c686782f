//! What edits make of a feed's lines.

ghost use Rattle.std.specs.Prelude.{◌≡◌, ◌<◌, IfOk, map, bytes_eq, vec_len, slice_set, slice_index_or};
ghost use Rattle.std.specs.List.{IsDistinct};
ghost use Rattle.transit_feed.specs.declared.line.Line.{Line};
ghost use Rattle.map_edits.specs.Effects.{line_id, at_id, hidden_is, colour_is, lines_by, lines_after};

use crate::copies::line_copies;
use crate::edit::Edit;
use crate::feed_ids::ids_of_lines;
use map_base::NoMemory;
use std::alloc::Global;
use table_rows::Ids;
use transit_feed::Line;

fn set_hidden(lines: &mut Vec<Line>, place: usize, hidden: bool)
    requires { place < vec_len lines.old }
    ensures { (d : Line) → lines.new.items ≡ slice_set lines.old.items place (hidden_is hidden (slice_index_or lines.old.items place d)) }
{
    lines[place].hidden = hidden;
}

fn set_colour(lines: &mut Vec<Line>, place: usize, colour: [u8; 3])
    requires { place < vec_len lines.old }
    ensures { (d : Line) → lines.new.items ≡ slice_set lines.old.items place (colour_is colour (slice_index_or lines.old.items place d)) }
{
    lines[place].colour = colour;
}

/// Hides or shows the line with this id.
fn hide_line(lines: &mut Vec<Line>, ids: &Ids, id: &[u8], hidden: bool)
    requires ids { ids.now ≡ map line_id lines.old.items }
    requires distinct { IsDistinct bytes_eq ids.now }
    ensures { lines.new.items ≡ at_id line_id id.now (hidden_is hidden) lines.old.items }
{
    match ids.place_of(id) {
        Some(place) => set_hidden(lines, place, hidden),
        None => {}
    }
}

/// Colours the line with this id.
fn colour_line(lines: &mut Vec<Line>, ids: &Ids, id: &[u8], colour: [u8; 3])
    requires ids { ids.now ≡ map line_id lines.old.items }
    requires distinct { IsDistinct bytes_eq ids.now }
    ensures { lines.new.items ≡ at_id line_id id.now (colour_is colour) lines.old.items }
{
    match ids.place_of(id) {
        Some(place) => set_colour(lines, place, colour),
        None => {}
    }
}

/// Does an edit to the lines, whose ids these are.
fn change_lines(lines: &mut Vec<Line>, ids: &Ids, edit: &Edit)
    requires ids { ids.now ≡ map line_id lines.old.items }
    requires distinct { IsDistinct bytes_eq ids.now }
    ensures { lines.new.items ≡ lines_by edit.now lines.old.items }
{
    match edit {
        Edit::Hide { line } => hide_line(lines, ids, line.as_str().as_bytes(), true),
        Edit::Show { line } => hide_line(lines, ids, line.as_str().as_bytes(), false),
        Edit::Colour { line, colour } => {
            colour_line(lines, ids, line.as_str().as_bytes(), *colour)
        }
        Edit::Weight { .. } => {}
        Edit::Near { .. } => {}
        Edit::Cell { .. } => {}
        Edit::Budget { .. } => {}
        Edit::Rename { .. } => {}
        Edit::Move { .. } => {}
        Edit::Importance { .. } => {}
        Edit::Undo => {}
    }
}

/// Does edits to the lines, whose ids these are, in their order.
fn change_lines_by(lines: &mut Vec<Line>, ids: &Ids, edits: &[Edit])
    requires ids { ids.now ≡ map line_id lines.old.items }
    requires distinct { IsDistinct bytes_eq ids.now }
    ensures { lines.new.items ≡ lines_after edits.now lines.old.items }
{
    for edit in edits {
        change_lines(lines, ids, edit);
    }
}

/// The lines, once edits stand, in their order.
pub(crate) fn changed_lines(
    alloc: Global,
    lines: &[Line],
    edits: &[Edit],
) -> Result<Vec<Line>, NoMemory>
    requires { IsDistinct bytes_eq (map line_id lines.now) }
    ensures { IfOk result (λ changed. changed.items ≡ lines_after edits.now lines.now) }
{
    let ids = ids_of_lines(alloc, lines)?;
    let mut changed = line_copies(alloc, lines)?;
    change_lines_by(&mut changed, &ids, edits);
    Ok(changed)
}
