//! The ranges of what edits set.

ghost use Rattle.std.specs.Prelude.{◌≡◌, ◌≤◌, ◌↔◌, ◌⊎◌, IsTrue};
ghost use Rattle.map_base.specs.Settings.{AreLight};
ghost use Rattle.transit_feed.specs.Feeds.{ArePlace};

use map_base::Weights;

/// Whether a number is at least the one and at most the other.
pub(crate) fn is_within(least: u32, most: u32, number: u32) -> bool
    ensures { IsTrue result ↔ (least ≤ number) × (number ≤ most) }
{
    least <= number && number <= most
}

/// Whether a number is the side of a cell: 0, or 10 to 1,000,000 decimetres.
pub(crate) fn is_cell(cell: u32) -> bool
    ensures { IsTrue result ↔ (cell ≡ 0) ⊎ ((10 ≤ cell) × (cell ≤ 1000000)) }
{
    cell == 0 || is_within(10, 1_000_000, cell)
}

/// Whether no weight is above 1,000.
pub(crate) fn is_light(weights: &Weights) -> bool
    ensures { IsTrue result ↔ AreLight weights.now }
{
    weights.link <= 1_000 && weights.split <= 1_000 && weights.sep <= 1_000
}

/// Whether degrees are those of a place.
pub(crate) fn are_of_place(lat: i64, lon: i64) -> bool
    ensures { IsTrue result ↔ ArePlace lat lon }
{
    lat.unsigned_abs() <= 90_000_000 && lon.unsigned_abs() <= 180_000_000
}
