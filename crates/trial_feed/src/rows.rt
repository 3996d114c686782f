//! The rows of the four tables.

ghost use Rattle.std.specs.Prelude.{◌≡◌, ◌≤◌, ◌<◌, ◌^◌, ◌++◌, OnOk, length};
ghost use Rattle.trial_feed.specs.Rows.{id, digit_at, six_digits, degrees, id_and_name, position, stop, route, trip, call};

use crate::lattice::{Place, microdegrees};
use decimal_text::push_natural;
use map_base::NoMemory;

/// Appends a station's id.
fn push_id(text: &mut Vec<u8>, place: Place) -> Result<(), NoMemory>
    ensures { OnOk result (text.new.items ≡ text.old.items ++ id place) }
{
    push_natural(text, u64::from(place.east))?;
    text.push(b'_')?;
    push_natural(text, u64::from(place.north))
}

/// The digit of a number at a power of ten.
fn digit_at(number: u64, power: u64) -> u8
    requires { 0 < power }
    ensures { result ≡ digit_at number power }
{
    b'0' + (number / power % 10) as u8
}

/// The last six digits of a number.
fn six_digits(number: u64) -> [u8; 6]
    ensures { result ≡ six_digits number }
{
    [
        digit_at(number, 100_000),
        digit_at(number, 10_000),
        digit_at(number, 1_000),
        digit_at(number, 100),
        digit_at(number, 10),
        digit_at(number, 1),
    ]
}

/// Appends the degrees of a place so many steps from the lattice's corner, to the microdegree.
fn push_degrees(text: &mut Vec<u8>, steps: u32) -> Result<(), NoMemory>
    ensures { OnOk result (text.new.items ≡ text.old.items ++ degrees steps) }
{
    let micro = microdegrees(steps);
    push_natural(text, micro / 1_000_000)?;
    text.push(b'.')?;
    text.extend_from_slice(&six_digits(micro))?;
    Ok(())
}

/// Appends a station's id and its name, which is the same.
fn push_id_and_name(text: &mut Vec<u8>, place: Place) -> Result<(), NoMemory>
    ensures { OnOk result (text.new.items ≡ text.old.items ++ id_and_name place) }
{
    push_id(text, place)?;
    text.push(b',')?;
    push_id(text, place)?;
    Ok(())
}

/// Appends a station's latitude and its longitude.
fn push_position(text: &mut Vec<u8>, place: Place) -> Result<(), NoMemory>
    ensures { OnOk result (text.new.items ≡ text.old.items ++ position place) }
{
    push_degrees(text, place.north)?;
    text.push(b',')?;
    push_degrees(text, place.east)?;
    Ok(())
}

/// Appends a station's row of `stops.txt`.
pub fn push_stop(text: &mut Vec<u8>, place: Place) -> Result<(), NoMemory>
    ensures { OnOk result (text.new.items ≡ text.old.items ++ stop place) }
{
    push_id_and_name(text, place)?;
    text.push(b',')?;
    push_position(text, place)?;
    text.push(b'\n')?;
    Ok(())
}

/// Appends a line's row of `routes.txt`: its id, the type of an underground and no colour.
pub fn push_route(text: &mut Vec<u8>, number: u32) -> Result<(), NoMemory>
    ensures { OnOk result (text.new.items ≡ text.old.items ++ route number) }
{
    text.push(b'R')?;
    push_natural(text, u64::from(number))?;
    text.extend_from_slice(b",1,\n")?;
    Ok(())
}

/// Appends the row of `trips.txt` of a line's one trip.
pub fn push_trip(text: &mut Vec<u8>, number: u32) -> Result<(), NoMemory>
    ensures { OnOk result (text.new.items ≡ text.old.items ++ trip number) }
{
    text.push(b'R')?;
    push_natural(text, u64::from(number))?;
    text.extend_from_slice(b",S,R")?;
    push_natural(text, u64::from(number))?;
    text.extend_from_slice(b"1\n")?;
    Ok(())
}

/// Appends the row of `stop_times.txt` of a call of a line's trip.
pub fn push_call(
    text: &mut Vec<u8>,
    number: u64,
    sequence: u64,
    place: Place,
) -> Result<(), NoMemory>
    ensures { OnOk result (text.new.items ≡ text.old.items ++ call number sequence place) }
{
    text.push(b'R')?;
    push_natural(text, number)?;
    text.extend_from_slice(b"1,")?;
    push_id(text, place)?;
    text.push(b',')?;
    push_natural(text, sequence)?;
    text.push(b'\n')?;
    Ok(())
}
