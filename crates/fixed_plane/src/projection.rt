//! From degrees to points of the plane.

ghost use Rattle.std.specs.Prelude.{◌≡◌, ◌+◌, ◌*◌, ◌^◌, ◌<◌, ◌≤◌, pos, ◌*ℤ◌, unsigned_abs};
ghost use Rattle.fixed_plane.specs.Plane.{IsInPlane, band_at, projected};
ghost use Rattle.whole_algebra.specs.Rounding.{floor_quotient};

use map_base::Point;

/// For each band, 5 degrees of latitude wide, the length of a degree of longitude per mille of a degree
/// of latitude.
const PER_MILLE: [u16; 19] = [
    1000, 996, 985, 966, 940, 906, 866, 819, 766, 707, 643, 574, 500, 423, 342, 259, 174, 87, 1,
];

/// The band, from 0 at the equator to 18 at a pole, of a latitude in microdegrees.
pub fn band_of(lat: i64) -> usize
    requires latitude { unsigned_abs lat ≤ 90000000 }
    ensures value { result ≡ band_at lat }
    ensures in_table { result ≤ 18 }
{
    ((lat.unsigned_abs() + 2_500_000) / 5_000_000) as usize
}

/// The point of a place in microdegrees, with the east-west scale of a band. Both coordinates are rounded
/// downwards, also below zero.
pub fn project(lat: i64, lon: i64, band: usize) -> Point
    requires latitude { unsigned_abs lat ≤ 90000000 }
    requires longitude { unsigned_abs lon ≤ 180000000 }
    requires in_table { band ≤ 18 }
    ensures value { result ≡ projected lat lon band }
    ensures in_plane { IsInPlane result }
{
    let east = 11_132 * u32::from(PER_MILLE[band]);
    Point {
        x: scaled(lon, east, 10_000_000),
        y: scaled(lat, 11_132, 10_000),
    }
}

/// `value * by / parts`, rounded downwards.
fn scaled(value: i64, by: u32, parts: u32) -> i64
    requires in_plane { unsigned_abs value * by ≤ 300000000 * parts }
    requires some_parts { 0 < parts }
    ensures value { result ≡ floor_quotient (value *ℤ pos by) parts }
    ensures in_plane { unsigned_abs result ≤ 300000000 }
{
    quotient(value * i64::from(by), parts)
}

/// `value / parts`, rounded downwards.
fn quotient(value: i64, parts: u32) -> i64
    requires { 0 < parts }
    ensures { result ≡ floor_quotient value parts }
{
    value.div_euclid(i64::from(parts))
}
