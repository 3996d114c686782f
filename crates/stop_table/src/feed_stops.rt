//! The stops of a feed, and its stations.

ghost use Rattle.std.specs.Prelude.{◌≡◌, ◌≤◌, ◌^◌, length, All, IfOk};
ghost use Rattle.table_rows.specs.Outcome.{Answers, never};
ghost use Rattle.stop_table.specs.Leads.{feed_stops};

use crate::known::FeedStops;
use crate::leads::known_stops;
use crate::stop_row::stop_columns;
use crate::stops::stations_of;
use crate::stops_check::check_stops;
use gtfs_fields::Rows;
use map_base::Sequence;
use std::alloc::Global;
use table_rows::{FeedFault, Table, Why, bad_row};

/// The stops of a table, or its first bad row.
pub fn stops_in<'a>(alloc: Global, rows: &'a Rows) -> Result<FeedStops<'a>, FeedFault>
    requires few { length rows.now ≤ 2 ^ 32 }
    ensures { Answers never (λ stops. stops) result (feed_stops rows.now) }
{
    if rows.len() == 0 {
        return Err(bad_row(Table::Stops, 0, Why::MissingColumn));
    }
    let columns = stop_columns(rows);
    check_stops(alloc, rows, &columns)?;
    let stations = stations_of(alloc, rows, &columns)?;
    let known = known_stops(alloc, rows, &columns)?;
    Ok(FeedStops {
        stations: Sequence::of(stations),
        known,
    })
}
