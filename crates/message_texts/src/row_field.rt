//! Which field of a row a reason speaks of, and what is due there.

use table_rows::{Table, Why};

/// The column of the id that a table gives to its rows; `stop_times.txt` gives none.
pub fn id_column(table: Table) -> Option<&'static str> {
    match table {
        Table::Routes => Some("route_id"),
        Table::Stops => Some("stop_id"),
        Table::Trips => Some("trip_id"),
        Table::Shapes => Some("shape_id"),
        Table::StopTimes => None,
    }
}

/// The columns that a table has to have, counted from 0.
pub fn required_column(table: Table, place: usize) -> Option<&'static str> {
    match (table, place) {
        (Table::Routes, 0) => Some("route_id"),
        (Table::Routes, 1) => Some("route_type"),
        (Table::Stops, 0) => Some("stop_id"),
        (Table::Stops, 1) => Some("stop_lat"),
        (Table::Stops, 2) => Some("stop_lon"),
        (Table::Trips, 0) => Some("route_id"),
        (Table::Trips, 1) => Some("trip_id"),
        (Table::Shapes, 0) => Some("shape_id"),
        (Table::Shapes, 1) => Some("shape_pt_lat"),
        (Table::Shapes, 2) => Some("shape_pt_lon"),
        (Table::Shapes, 3) => Some("shape_pt_sequence"),
        (Table::StopTimes, 0) => Some("trip_id"),
        (Table::StopTimes, 1) => Some("stop_id"),
        (Table::StopTimes, 2) => Some("stop_sequence"),
        _ => None,
    }
}

/// Whether a table of this kind may have a column of this name by the GTFS Schedule reference, read or not.
pub fn is_column(table: Table, name: &str) -> bool {
    for column in columns_of(table).split_whitespace() {
        if column == name {
            return true;
        }
    }
    false
}

/// The columns that a table may have, with a blank between two.
fn columns_of(table: Table) -> &'static str {
    match table {
        Table::Routes => {
            "route_id agency_id route_short_name route_long_name route_desc route_type route_url route_color \
             route_text_color route_sort_order continuous_pickup continuous_drop_off network_id cemv_support"
        }
        Table::Stops => {
            "stop_id stop_code stop_name tts_stop_name stop_desc stop_lat stop_lon zone_id stop_url location_type \
             parent_station stop_timezone wheelchair_boarding level_id platform_code stop_access"
        }
        Table::Trips => {
            "route_id service_id trip_id trip_headsign trip_short_name direction_id block_id shape_id \
             wheelchair_accessible bikes_allowed cars_allowed safe_duration_factor safe_duration_offset"
        }
        Table::Shapes => {
            "shape_id shape_pt_lat shape_pt_lon shape_pt_sequence shape_dist_traveled"
        }
        Table::StopTimes => {
            "trip_id arrival_time departure_time stop_id location_group_id location_id stop_sequence stop_headsign \
             start_pickup_drop_off_window end_pickup_drop_off_window pickup_type drop_off_type continuous_pickup \
             continuous_drop_off shape_dist_traveled timepoint pickup_booking_rule_id drop_off_booking_rule_id"
        }
    }
}

/// The column of the field that a reason speaks of; none where it speaks of the whole row or table.
pub fn column_of(table: Table, why: Why) -> Option<&'static str> {
    match why {
        Why::EmptyId | Why::RepeatedId => id_column(table),
        Why::BadLatitude => Some(latitude_column(table)),
        Why::BadLongitude => Some(longitude_column(table)),
        Why::BadType => Some(type_column(table)),
        Why::BadColour => Some("route_color"),
        Why::BadWhole | Why::RepeatedSequence => Some(sequence_column(table)),
        Why::UnknownParent => Some("parent_station"),
        Why::UnknownRoute => Some("route_id"),
        Why::UnknownTrip => Some("trip_id"),
        Why::UnknownStop => Some("stop_id"),
        Why::MissingFile | Why::MissingColumn | Why::WrongFields | Why::NotUtf8 => None,
    }
}

fn latitude_column(table: Table) -> &'static str {
    match table {
        Table::Shapes => "shape_pt_lat",
        _ => "stop_lat",
    }
}

fn longitude_column(table: Table) -> &'static str {
    match table {
        Table::Shapes => "shape_pt_lon",
        _ => "stop_lon",
    }
}

fn type_column(table: Table) -> &'static str {
    match table {
        Table::Routes => "route_type",
        _ => "location_type",
    }
}

fn sequence_column(table: Table) -> &'static str {
    match table {
        Table::Shapes => "shape_pt_sequence",
        _ => "stop_sequence",
    }
}

/// What is due in a field that a reason speaks of.
pub fn due_in(table: Table, why: Why) -> &'static str {
    match why {
        Why::EmptyId => "each row has an id of its own",
        Why::RepeatedId => "each row has an id of its own",
        Why::BadLatitude => "a latitude is a number from -90 to 90",
        Why::BadLongitude => "a longitude is a number from -180 to 180",
        Why::BadType => due_type(table),
        Why::BadColour => "a colour is six hexadecimal digits without #, as 0060A8, or empty",
        Why::BadWhole => "a sequence is a whole number from 0 to 4294967295",
        Why::UnknownParent =>
            "a parent is a row of stops.txt with location_type 1, or for a boarding area a stop",
        Why::UnknownRoute => "no row of routes.txt has this id",
        Why::UnknownTrip => "no row of trips.txt has this id",
        Why::UnknownStop => "no stop or station of stops.txt has this id",
        Why::RepeatedSequence => "the rows of one trip or shape have different sequences",
        Why::WrongFields => "each row has the columns that have to be there",
        Why::NotUtf8 => "a feed is text in UTF-8",
        Why::MissingFile => "the file has to be there",
        Why::MissingColumn => "the column has to be there",
    }
}

/// What is due as the type of a route or a stop.
fn due_type(table: Table) -> &'static str {
    match table {
        Table::Routes => "a route's type is a whole number, as 0 tram, 1 metro, 2 rail, 3 bus",
        _ => "a stop's type is empty, or 0 to 4",
    }
}
