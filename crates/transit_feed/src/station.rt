//! Stations.

use map_base::Text;

/// A station: a row of `stops.txt` of location type 1, or a stop without a parent.
#[derive(Debug, Drop)]
pub struct Station {
    /// The row's `stop_id`.
    pub id: Text,
    /// The row's `stop_name`, which may be empty.
    pub name: Text,
    /// The latitude in microdegrees, at most 90,000,000 either way.
    pub lat: i64,
    /// The longitude in microdegrees, at most 180,000,000 either way.
    pub lon: i64,
}
