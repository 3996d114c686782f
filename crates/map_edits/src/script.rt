//! The edits that stand at the end of a script.

ghost use Rattle.std.specs.Prelude.{◌≡◌, ◌∷◌, ◌<◌, ◌≤◌, IfOk, IfSome, OnOk, OnErr, All, length, map, option_map};
ghost use Rattle.std.specs.Str.Lines.{lines};
ghost use Rattle.map_edits.specs.Effects.{IsInRange, line_id, station_id};
ghost use Rattle.map_edits.specs.Grammar.{edit_in};
ghost use Rattle.map_edits.specs.Lines.{lines_cut, line_before};
ghost use Rattle.map_edits.specs.Standing.{Named, named_in, is_due, after_edit, after_line, edits_in, fault_at, AddsLine, ReadsEdits};

use crate::edit::Edit;
use crate::fault::{EditStop, EditsFault};
use crate::feed_ids::{ids_of_lines, ids_of_stations};
use crate::reading::read_edit;
use crate::words::place_of;
use map_base::NoMemory;
use std::alloc::Global;
use table_rows::Ids;
use transit_feed::Tables;

/// A line without the CR at its end, if it has one.
fn without_return(line: &[u8]) -> &[u8]
    ensures { result.now ≡ line_before line.now }
{
    match line {
        [before @ .., b'\r'] => before,
        _ => line,
    }
}

/// The first line of a script, without its end, which is LF or CR LF, and what stands behind it. The last line may have
/// no end.
fn first_line(script: &[u8]) -> (&[u8], &[u8])
    requires { 0 < length script.now }
    ensures lines { lines script.now ≡ result.0.now ∷ lines result.1.now }
    ensures shorter { length result.1.now < length script.now }
{
    let end = place_of(script, b'\n');
    if end == script.len() {
        return script.split_at(end);
    }
    let (line, behind) = script.split_at(end);
    (without_return(line), behind.split_at(1).1)
}

/// The line at the front of a script, without its end, which is LF or CR LF, and what stands behind it. The last line
/// may have no end. There is none where nothing is left.
pub fn next_line(script: &[u8]) -> Option<(&[u8], &[u8])>
    ensures lines { lines script.now ≡ lines_cut (option_map (λ x. (x.0.now, x.1.now)) result) }
    ensures shorter { IfSome result (λ x. length x.1.now < length script.now) }
{
    if script.is_empty() {
        return None;
    }
    Some(first_line(script))
}

/// The ids of a feed's lines, and those of its stations.
#[derive(Drop)]
struct Known<'a> {
    lines: Ids<'a>,
    stations: Ids<'a>,
}

impl<'a> Known<'a> {
    /// The ids of these tables.
    fn of(alloc: Global, tables: &'a Tables) -> Result<Known<'a>, NoMemory>
        ensures { IfOk result (λ known. record { lines = known.lines; stations = known.stations } ≡ named_in tables.now) }
    {
        let lines = ids_of_lines(alloc, tables.lines.as_slice())?;
        let stations = ids_of_stations(alloc, tables.stations.as_slice())?;
        Ok(Known { lines, stations })
    }

    /// Whether an edit may come behind those that stand: its line or station is there, and an undo has something to
    /// take off.
    fn is_due(&self, standing: &[Edit], edit: &Edit) -> bool
        ensures { result ≡ is_due (record { lines = self.now.lines; stations = self.now.stations }) standing.now edit.now }
    {
        match edit {
            Edit::Hide { line } => self.lines.contains(line.as_str().as_bytes()),
            Edit::Show { line } => self.lines.contains(line.as_str().as_bytes()),
            Edit::Colour { line, .. } => self.lines.contains(line.as_str().as_bytes()),
            Edit::Importance { line, .. } => self.lines.contains(line.as_str().as_bytes()),
            Edit::Rename { stop, .. } => self.stations.contains(stop.as_str().as_bytes()),
            Edit::Move { stop, .. } => self.stations.contains(stop.as_str().as_bytes()),
            Edit::Weight { .. } => true,
            Edit::Near { .. } => true,
            Edit::Cell { .. } => true,
            Edit::Budget { .. } => true,
            Edit::Undo => !standing.is_empty(),
        }
    }
}

/// Lets an edit stand behind others, or takes the last of them off, where it is an undo. An undo itself doesn't stand.
pub fn stand(standing: &mut Vec<Edit>, edit: Edit) -> Result<(), NoMemory>
    ensures stands { OnOk result (standing.new.items ≡ after_edit standing.old.items edit) }
    ensures refused { OnErr result (standing.new.items ≡ standing.old.items) }
{
    if edit.is_undo() {
        standing.pop();
    } else {
        standing.push(edit)?;
    }
    Ok(())
}

/// The edits that stand behind a line, where it says an edit that may come there.
fn add_line(
    alloc: Global,
    known: &Known,
    standing: &mut Vec<Edit>,
    line: &[u8],
) -> Result<(), EditStop>
    ensures { AddsLine result standing.new.items (after_line (record { lines = known.now.lines; stations = known.now.stations }) standing.old.items (edit_in line.now)) }
{
    let edit = read_edit(alloc, line)?;
    if !known.is_due(standing.as_slice(), &edit) {
        return Err(EditStop::BadEdit);
    }
    stand(standing, edit)?;
    Ok(())
}

/// Why a script gives no edits whose line of this number gives none.
fn fault_at(stop: EditStop, line: u64) -> EditsFault
    ensures { result ≡ fault_at stop line }
{
    match stop {
        EditStop::BadEdit => EditsFault::BadEdit { line },
        EditStop::NoMemory => EditsFault::NoMemory,
    }
}

/// The edits that stand at the end of a script, each of whose lines is an edit. An undo takes the last edit off that
/// stands, and does not stand itself.
pub fn read_edits(alloc: Global, script: &[u8], tables: &Tables) -> Result<Vec<Edit>, EditsFault>
    ensures edits { ReadsEdits (λ edits. edits.items) result (edits_in tables.now script.now) }
    ensures range { IfOk result (λ edits. All IsInRange edits.items) }
{
    let known = Known::of(alloc, tables)?;
    let mut standing = Vec::new(alloc);
    let mut rest = script;
    let mut done = 0;
    while let Some((line, left)) = next_line(rest) {
        done += 1;
        match add_line(alloc, &known, &mut standing, line) {
            Ok(()) => {}
            Err(stop) => return Err(fault_at(stop, done)),
        }
        rest = left;
    }
    Ok(standing)
}
