//! Which edits may come.

ghost use Rattle.std.specs.Prelude.{◌≡◌};
ghost use Rattle.std.specs.List.{list_any};
ghost use Rattle.std.specs.Str.{bytes_eq};
ghost use Rattle.table_rows.specs.Ids.{is_among};
ghost use Rattle.transit_feed.specs.declared.line.Line.{Line as AnyLine};
ghost use Rattle.transit_feed.specs.declared.station.Station.{Station as AnyStation};
ghost use Rattle.map_edits.specs.Standing.{named_in, is_due};

use map_base::Text;
use map_edits::Edit;
use transit_feed::{Line, Station, Tables};

/// Whether a line has this id.
fn has_line(lines: &[Line], id: &Text) -> bool
    ensures { result ≡ list_any (λ (l : AnyLine). bytes_eq id.now l.id) lines.now }
{
    lines.iter().any(|line| id.as_str() == line.id.as_str())
}

/// Whether a station has this id.
fn has_station(stations: &[Station], id: &Text) -> bool
    ensures { result ≡ list_any (λ (s : AnyStation). bytes_eq id.now s.id) stations.now }
{
    stations
        .iter()
        .any(|station| id.as_str() == station.id.as_str())
}

/// Whether a line of the tables has this id.
fn names_line(tables: &Tables, id: &Text) -> bool
    ensures { result ≡ is_among id.now (named_in tables.now).lines }
{
    has_line(tables.lines.as_slice(), id)
}

/// Whether a station of the tables has this id.
fn names_station(tables: &Tables, id: &Text) -> bool
    ensures { result ≡ is_among id.now (named_in tables.now).stations }
{
    has_station(tables.stations.as_slice(), id)
}

/// Whether an edit may come behind those that stand: its line or station is there, hidden or not, and an undo has
/// something to take off.
pub(crate) fn is_due(tables: &Tables, standing: &[Edit], edit: &Edit) -> bool
    ensures { result ≡ is_due (named_in tables.now) standing.now edit.now }
{
    match edit {
        Edit::Hide { line } => names_line(tables, line),
        Edit::Show { line } => names_line(tables, line),
        Edit::Colour { line, .. } => names_line(tables, line),
        Edit::Importance { line, .. } => names_line(tables, line),
        Edit::Rename { stop, .. } => names_station(tables, stop),
        Edit::Move { stop, .. } => names_station(tables, stop),
        Edit::Weight { .. } => true,
        Edit::Near { .. } => true,
        Edit::Cell { .. } => true,
        Edit::Budget { .. } => true,
        Edit::Undo => !standing.is_empty(),
    }
}
