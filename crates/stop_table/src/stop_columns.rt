//! The columns of `stops.txt`.

/// Where the columns of `stops.txt` stand in its rows, each as far as it is there.
#[derive(Clone, Copy)]
pub(crate) struct StopColumns {
    pub(crate) id: Option<usize>,
    pub(crate) name: Option<usize>,
    pub(crate) lat: Option<usize>,
    pub(crate) lon: Option<usize>,
    pub(crate) kind: Option<usize>,
    pub(crate) parent: Option<usize>,
}

/// What a row of `stops.txt` is (GTFS Schedule reference, `location_type`).
#[derive(Clone, Copy)]
pub(crate) enum LocationType {
    /// Empty or 0: a stop, or a platform of a station.
    Stop,
    /// 1: a station.
    Station,
    /// 2: an entrance of a station.
    Entrance,
    /// 3: a generic node of a station.
    GenericNode,
    /// 4: a boarding area of a platform.
    BoardingArea,
}
