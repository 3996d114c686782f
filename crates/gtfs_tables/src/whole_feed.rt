//! All tables of a feed.

ghost use Rattle.std.specs.Prelude.{◌≡◌, ◌≤◌, ℕ, length, Ok, IfSome};
ghost use Rattle.table_rows.specs.Outcome.{Answers, never};
ghost use Rattle.gtfs_tables.specs.Good.{AreGoodRoutes, AreGoodStops, AreGoodTrips, AreGoodShapes, AreServed};
ghost use Rattle.gtfs_tables.specs.Feed.{Folder, told_folder, feed_of, feed_outcome, may_fail};
ghost use Rattle.gtfs_tables.specs.Steps.{OfFolder, FailsAt, feed_after_routes, feed_after_stops, feed_after_trips, feed_after_shapes, before_any, before_stops, before_trips, before_shapes, before_stop_times};

use crate::patterns::patterns_of;
use crate::table_file::{file_in, rows_in};
use files_door::Files;
use map_base::{Sequence, StationId};
use route_tables::{FeedRoutes, KnownTrips, routes_in, trips_in};
use sequence_tables::{KnownShapes, shapes_in_file, stop_times_in_file};
use std::alloc::Global;
use stop_table::{FeedStops, stops_in};
use table_rows::{FeedFault, Table};
use transit_feed::Tables;

/// The feed of what the five tables gave.
fn tables_of(
    alloc: Global,
    routes: FeedRoutes,
    stops: FeedStops,
    trips: &KnownTrips,
    shapes: KnownShapes,
    stations: &[Sequence<StationId>],
) -> Result<Tables, FeedFault>
    requires routes { AreGoodRoutes routes }
    requires stops { AreGoodStops stops }
    requires trips { AreGoodTrips (length routes.lines) trips.now }
    requires shapes { AreGoodShapes trips.now shapes }
    requires served { AreServed (length stops.stations) trips.now stations.now }
    ensures { Answers never (λ tables. tables) result (Ok (feed_of routes.entry stops.entry trips.now shapes stations.now)) }
{
    let lines = trips.lines.as_slice();
    let of_trips = shapes.of_trips.as_slice();
    let patterns = patterns_of(alloc, lines, stations, of_trips)?;
    Ok(Tables {
        stations: stops.stations.into_vec(),
        lines: routes.lines.into_vec(),
        patterns,
        shapes: shapes.shapes.into_vec(),
    })
}

/// The feed, told what all tables but the last gave.
fn after_shapes<F: Files>(
    alloc: Global,
    files: &mut F,
    folder: &str,
    routes: FeedRoutes,
    stops: FeedStops,
    trips: &KnownTrips,
    shapes: KnownShapes,
) -> Result<Tables, FeedFault>
    requires routes { AreGoodRoutes routes }
    requires stops { AreGoodStops stops }
    requires trips { AreGoodTrips (length routes.lines) trips.now }
    requires shapes { AreGoodShapes trips.now shapes }
    ensures read { OfFolder (F.told files.old) folder.now (λ f. Answers (FailsAt before_stop_times (F.faults files.old) (F.faults files.new)) (λ tables. tables) result (feed_after_shapes routes.entry stops.entry trips.now shapes f)) }
    ensures kept { F.told files.new ≡ F.told files.old }
    ensures later { F.faults files.old ≤ F.faults files.new }
{
    let bytes = file_in(alloc, files, folder, Table::StopTimes)?;
    let stations = stop_times_in_file(alloc, trips, &stops.known, bytes)?;
    tables_of(alloc, routes, stops, trips, shapes, &stations)
}

/// The feed, told what the first three tables gave.
fn after_trips<F: Files>(
    alloc: Global,
    files: &mut F,
    folder: &str,
    routes: FeedRoutes,
    stops: FeedStops,
    trips: &KnownTrips,
) -> Result<Tables, FeedFault>
    requires routes { AreGoodRoutes routes }
    requires stops { AreGoodStops stops }
    requires trips { AreGoodTrips (length routes.lines) trips.now }
    ensures read { OfFolder (F.told files.old) folder.now (λ f. Answers (FailsAt (before_shapes trips.now f) (F.faults files.old) (F.faults files.new)) (λ tables. tables) result (feed_after_trips routes.entry stops.entry trips.now f)) }
    ensures kept { F.told files.new ≡ F.told files.old }
    ensures later { F.faults files.old ≤ F.faults files.new }
{
    let bytes = file_in(alloc, files, folder, Table::Shapes)?;
    let shapes = shapes_in_file(alloc, trips, bytes)?;
    after_shapes(alloc, files, folder, routes, stops, trips, shapes)
}

/// The feed, told what the first two tables gave.
fn after_stops<F: Files>(
    alloc: Global,
    files: &mut F,
    folder: &str,
    routes: FeedRoutes,
    stops: FeedStops,
) -> Result<Tables, FeedFault>
    requires routes { AreGoodRoutes routes }
    requires stops { AreGoodStops stops }
    ensures read { OfFolder (F.told files.old) folder.now (λ f. Answers (FailsAt (before_trips routes.entry f) (F.faults files.old) (F.faults files.new)) (λ tables. tables) result (feed_after_stops routes.entry stops.entry f)) }
    ensures kept { F.told files.new ≡ F.told files.old }
    ensures later { F.faults files.old ≤ F.faults files.new }
{
    let rows = rows_in(alloc, files, folder, Table::Trips)?;
    let trips = trips_in(alloc, &routes.known, &rows)?;
    after_trips(alloc, files, folder, routes, stops, &trips)
}

/// The feed, told what the first table gave.
fn after_routes<F: Files>(
    alloc: Global,
    files: &mut F,
    folder: &str,
    routes: FeedRoutes,
) -> Result<Tables, FeedFault>
    requires { AreGoodRoutes routes }
    ensures read { OfFolder (F.told files.old) folder.now (λ f. Answers (FailsAt (before_stops routes.entry f) (F.faults files.old) (F.faults files.new)) (λ tables. tables) result (feed_after_routes routes.entry f)) }
    ensures kept { F.told files.new ≡ F.told files.old }
    ensures later { F.faults files.old ≤ F.faults files.new }
{
    let rows = rows_in(alloc, files, folder, Table::Stops)?;
    let stops = stops_in(alloc, &rows)?;
    after_stops(alloc, files, folder, routes, stops)
}

/// The feed of a folder, or its first refusal.
fn feed_in<F: Files>(
    alloc: Global,
    files: &mut F,
    folder: &str,
    types: &[u32],
) -> Result<Tables, FeedFault>
    ensures read { OfFolder (F.told files.old) folder.now (λ f. Answers (FailsAt (before_any types.now f) (F.faults files.old) (F.faults files.new)) (λ tables. tables) result (feed_outcome types.now f)) }
    ensures kept { F.told files.new ≡ F.told files.old }
    ensures later { F.faults files.old ≤ F.faults files.new }
{
    let rows = rows_in(alloc, files, folder, Table::Routes)?;
    let routes = routes_in(alloc, types, &rows)?;
    after_routes(alloc, files, folder, routes)
}

/// The tables of the feed in a folder: its stations, its lines of these route types, none of them hidden, their
/// patterns and their shapes. The paths that are read are the folder, '/', and `routes.txt`, `stops.txt`,
/// `trips.txt`, `shapes.txt` and `stop_times.txt`, in this order; `shapes.txt` may be missing.
///
/// Where the files are told, the answer is the defined one: the tables, or the first bad row with its least reason,
/// or the limit of a file's length, whichever comes first in the order of the tables. Only want of memory may come
/// in its place, and `ReadFault`, which comes only where the files' count of faults rose, at a table before which
/// nothing is refused. Where they are not told, the same holds of some files.
pub fn read_tables<F: Files>(
    alloc: Global,
    files: &mut F,
    folder: &str,
    types: &[u32],
) -> Result<Tables, FeedFault>
    ensures told { IfSome (F.told files.old) (λ all. Answers (may_fail types.now (told_folder all folder.now) (F.faults files.old) (F.faults files.new)) (λ tables. tables) result (feed_outcome types.now (told_folder all folder.now))) }
    ensures untold { (f : Folder) × Answers (may_fail types.now f (F.faults files.old) (F.faults files.new)) (λ tables. tables) result (feed_outcome types.now f) }
    ensures kept { F.told files.new ≡ F.told files.old }
    ensures later { F.faults files.old ≤ F.faults files.new }
{
    feed_in(alloc, files, folder, types)
}
