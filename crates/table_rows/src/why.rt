//! What is wrong with a feed.

/// A table of a feed: one file of its folder.
#[derive(Clone, Copy, Debug, PartialEq, Eq)]
pub enum Table {
    /// `routes.txt`
    Routes,
    /// `stops.txt`
    Stops,
    /// `trips.txt`
    Trips,
    /// `shapes.txt`
    Shapes,
    /// `stop_times.txt`
    StopTimes,
}

/// Why a row is bad. Within one row the reason that stands first here counts.
#[derive(Clone, Copy, Debug, PartialEq, Eq)]
pub enum Why {
    /// There is no such file: row 0.
    MissingFile,
    /// A required column, or the whole header, is missing: row 1.
    MissingColumn,
    /// The row ends before its field of a required column.
    WrongFields,
    /// A field of the row, read or not, is not UTF-8.
    NotUtf8,
    /// The id that the row gives is empty.
    EmptyId,
    /// An earlier row of the table has the id that the row gives.
    RepeatedId,
    /// The latitude is not a degree text, or past 90 degrees either way.
    BadLatitude,
    /// The longitude is not a degree text, or past 180 degrees either way.
    BadLongitude,
    /// The route's type is not a whole number, or the stop's is neither empty nor 0 to 4.
    BadType,
    /// The colour is neither empty nor six hexadecimal digits.
    BadColour,
    /// A sequence is not a whole number.
    BadWhole,
    /// The parent of a stop is no station, or that of a boarding area no stop.
    UnknownParent,
    /// The trip's route is no row of `routes.txt`.
    UnknownRoute,
    /// The trip is no row of `trips.txt`.
    UnknownTrip,
    /// The stop leads to no station.
    UnknownStop,
    /// An earlier row of the same trip or shape, read in full, has the same sequence.
    RepeatedSequence,
}
