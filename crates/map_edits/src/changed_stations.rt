//! What edits make of a feed's stations.

ghost use Rattle.std.specs.Prelude.{◌≡◌, ◌<◌, IfOk, OnOk, map, bytes_eq, vec_len, slice_set, slice_index_or};
ghost use Rattle.std.specs.List.{IsDistinct};
ghost use Rattle.transit_feed.specs.declared.station.Station.{Station};
ghost use Rattle.map_edits.specs.Effects.{station_id, at_id, name_is, place_is, stations_by, stations_after};

use crate::copies::station_copies;
use crate::edit::Edit;
use crate::feed_ids::ids_of_stations;
use map_base::{NoMemory, Text};
use std::alloc::Global;
use table_rows::Ids;
use transit_feed::Station;

fn set_name(stations: &mut Vec<Station>, place: usize, name: Text)
    requires { place < vec_len stations.old }
    ensures { (d : Station) → stations.new.items ≡ slice_set stations.old.items place (name_is name (slice_index_or stations.old.items place d)) }
{
    stations[place].name = name;
}

fn set_place(stations: &mut Vec<Station>, place: usize, lat: i64, lon: i64)
    requires { place < vec_len stations.old }
    ensures { (d : Station) → stations.new.items ≡ slice_set stations.old.items place (place_is lat lon (slice_index_or stations.old.items place d)) }
{
    let station = &mut stations[place];
    station.lat = lat;
    station.lon = lon;
}

/// Names the station with this id.
fn name_station(stations: &mut Vec<Station>, ids: &Ids, id: &[u8], name: Text)
    requires ids { ids.now ≡ map station_id stations.old.items }
    requires distinct { IsDistinct bytes_eq ids.now }
    ensures { stations.new.items ≡ at_id station_id id.now (name_is name) stations.old.items }
{
    match ids.place_of(id) {
        Some(place) => set_name(stations, place, name),
        None => {}
    }
}

/// Moves the station with this id.
fn move_station(stations: &mut Vec<Station>, ids: &Ids, id: &[u8], lat: i64, lon: i64)
    requires ids { ids.now ≡ map station_id stations.old.items }
    requires distinct { IsDistinct bytes_eq ids.now }
    ensures { stations.new.items ≡ at_id station_id id.now (place_is lat lon) stations.old.items }
{
    match ids.place_of(id) {
        Some(place) => set_place(stations, place, lat, lon),
        None => {}
    }
}

/// Does an edit to the stations, whose ids these are.
fn change_stations(
    alloc: Global,
    stations: &mut Vec<Station>,
    ids: &Ids,
    edit: &Edit,
) -> Result<(), NoMemory>
    requires ids { ids.now ≡ map station_id stations.old.items }
    requires distinct { IsDistinct bytes_eq ids.now }
    ensures { OnOk result (stations.new.items ≡ stations_by edit.now stations.old.items) }
{
    match edit {
        Edit::Rename { stop, name } => {
            let name = Text::of(alloc, name.as_str())?;
            name_station(stations, ids, stop.as_str().as_bytes(), name);
        }
        Edit::Move { stop, lat, lon } => {
            move_station(stations, ids, stop.as_str().as_bytes(), *lat, *lon);
        }
        Edit::Hide { .. } => {}
        Edit::Show { .. } => {}
        Edit::Weight { .. } => {}
        Edit::Near { .. } => {}
        Edit::Cell { .. } => {}
        Edit::Budget { .. } => {}
        Edit::Colour { .. } => {}
        Edit::Importance { .. } => {}
        Edit::Undo => {}
    }
    Ok(())
}

/// Does edits to the stations, whose ids these are, in their order.
fn change_stations_by(
    alloc: Global,
    stations: &mut Vec<Station>,
    ids: &Ids,
    edits: &[Edit],
) -> Result<(), NoMemory>
    requires ids { ids.now ≡ map station_id stations.old.items }
    requires distinct { IsDistinct bytes_eq ids.now }
    ensures { OnOk result (stations.new.items ≡ stations_after edits.now stations.old.items) }
{
    for edit in edits {
        change_stations(alloc, stations, ids, edit)?;
    }
    Ok(())
}

/// The stations, once edits stand, in their order.
pub(crate) fn changed_stations(
    alloc: Global,
    stations: &[Station],
    edits: &[Edit],
) -> Result<Vec<Station>, NoMemory>
    requires { IsDistinct bytes_eq (map station_id stations.now) }
    ensures { IfOk result (λ changed. changed.items ≡ stations_after edits.now stations.now) }
{
    let ids = ids_of_stations(alloc, stations)?;
    let mut changed = station_copies(alloc, stations)?;
    change_stations_by(alloc, &mut changed, &ids, edits)?;
    Ok(changed)
}
