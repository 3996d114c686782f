//! The tables and settings that edits make.

ghost use Rattle.std.specs.Prelude.{◌≡◌, IfOk, All};
ghost use Rattle.map_edits.specs.Effects.{IsInRange, edited, feed_after};

use crate::changed_lines::changed_lines;
use crate::changed_settings::changed_settings;
use crate::changed_stations::changed_stations;
use crate::copies::{pattern_copies, shape_copies};
use crate::edit::Edit;
use map_base::{NoMemory, Settings};
use std::alloc::Global;
use transit_feed::Tables;

/// The tables, once edits stand, in their order.
fn changed_tables(alloc: Global, tables: &Tables, edits: &[Edit]) -> Result<Tables, NoMemory>
    requires { All IsInRange edits.now }
    ensures { IfOk result (λ changed. changed ≡ feed_after edits.now tables.now) }
{
    let stations = changed_stations(alloc, tables.stations.as_slice(), edits)?;
    let lines = changed_lines(alloc, tables.lines.as_slice(), edits)?;
    let patterns = pattern_copies(alloc, tables.patterns.as_slice())?;
    let shapes = shape_copies(alloc, tables.shapes.as_slice())?;
    Ok(Tables {
        stations,
        lines,
        patterns,
        shapes,
    })
}

/// The tables and the settings that edits make of these, in their order. Each value of an edit is in the range of
/// what it sets, as in each edit that `read_edit` gives. An edit of a line or station that is not there changes
/// nothing, and so does an undo: edits that stand have none.
pub fn edited(
    alloc: Global,
    tables: &Tables,
    settings: &Settings,
    edits: &[Edit],
) -> Result<(Tables, Settings), NoMemory>
    requires { All IsInRange edits.now }
    ensures { IfOk result (λ made. made ≡ edited tables.now settings.now edits.now) }
{
    let settings = changed_settings(alloc, settings, edits)?;
    let tables = changed_tables(alloc, tables, edits)?;
    Ok((tables, settings))
}
