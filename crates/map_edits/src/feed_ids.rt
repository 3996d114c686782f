//! The ids of a feed's lines and stations, each found at once.

ghost use Rattle.std.specs.Prelude.{◌≡◌, IfOk, map, bytes_eq};
ghost use Rattle.std.specs.List.{IsDistinct};
ghost use Rattle.map_edits.specs.Effects.{line_id, station_id};

use map_base::NoMemory;
use std::alloc::Global;
use table_rows::{Ids, note_new};
use transit_feed::{Line, Station};

/// The ids of lines, in their order.
pub(crate) fn ids_of_lines<'a>(alloc: Global, lines: &'a [Line]) -> Result<Ids<'a>, NoMemory>
    requires { IsDistinct bytes_eq (map line_id lines.now) }
    ensures { IfOk result (λ ids. ids ≡ map line_id lines.now) }
{
    let mut ids = Ids::new(alloc);
    for line in lines {
        note_new(&mut ids, true, line.id.as_str().as_bytes())?;
    }
    Ok(ids)
}

/// The ids of stations, in their order.
pub(crate) fn ids_of_stations<'a>(
    alloc: Global,
    stations: &'a [Station],
) -> Result<Ids<'a>, NoMemory>
    requires { IsDistinct bytes_eq (map station_id stations.now) }
    ensures { IfOk result (λ ids. ids ≡ map station_id stations.now) }
{
    let mut ids = Ids::new(alloc);
    for station in stations {
        note_new(&mut ids, true, station.id.as_str().as_bytes())?;
    }
    Ok(ids)
}
