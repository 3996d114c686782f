//! How light colours are.

ghost use Rattle.std.specs.Prelude.{◌≡◌, ◌≤◌};
ghost use Rattle.name_widths.specs.Colours.{is_faint, is_pale, light};

/// The light of a colour of three bytes, red, green and blue, from 0 to 255,000. Other bytes are no colour, and have none.
pub fn light(colour: &[u8]) -> u32
    ensures value { result ≡ light colour.now }
    ensures small { result ≤ 255000 }
{
    match colour {
        [red, green, blue] => 299 * u32::from(*red)
            + 587 * u32::from(*green)
            + 114 * u32::from(*blue),
        _ => 0,
    }
}

/// Whether a line of this colour is hard to see on white.
pub fn is_pale(colour: &[u8]) -> bool
    ensures { result ≡ is_pale colour.now }
{
    light(colour) >= 180_000
}

/// Whether a text in this colour is hard to read on white.
pub fn is_faint(colour: &[u8]) -> bool
    ensures { result ≡ is_faint colour.now }
{
    light(colour) >= 160_000
}
