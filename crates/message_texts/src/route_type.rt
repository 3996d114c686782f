//! The types of routes in words (GTFS Schedule reference, `routes.txt`, and its extended types).

/// The plain type that says the same of a route as this one: an extended type has the plain type of its kind, where
/// there is one, and each other type is its own.
pub fn plain_type(kind: u32) -> u32 {
    match kind {
        100..=117 | 300 => 2,
        200..=209 | 700..=716 => 3,
        400..=404 | 500 | 600 => 1,
        405 => 12,
        800 => 11,
        900..=906 => 0,
        1000 | 1200 => 4,
        1300..=1307 => 6,
        1400 => 7,
        _ => kind,
    }
}

/// What runs on a route of this type; empty where the type says it to nobody.
pub fn vehicle_name(kind: u32) -> &'static str {
    match plain_type(kind) {
        0 => "tram",
        1 => "metro",
        2 => "rail",
        3 => "bus",
        4 => "ferry",
        5 => "cable tram",
        6 => "aerial lift",
        7 => "funicular",
        11 => "trolleybus",
        12 => "monorail",
        _ => "",
    }
}

/// Whether what runs on a route of this type runs on rails or hangs on a cable.
pub fn is_guided(kind: u32) -> bool {
    match plain_type(kind) {
        0 | 1 | 2 | 5 | 6 | 7 | 12 => true,
        _ => false,
    }
}
