//! Colours as six hexadecimal digits.

ghost use Rattle.std.specs.Prelude.{◌≡◌};
ghost use Rattle.gtfs_fields.specs.HexColour.{colour_value, hex_pair_value, hex_value};

fn hex_digit(byte: u8) -> Option<u8>
    ensures { result ≡ hex_value byte }
{
    match byte {
        b'0'..=b'9' => Some(byte - b'0'),
        b'a'..=b'f' => Some(byte - b'a' + 10),
        b'A'..=b'F' => Some(byte - b'A' + 10),
        _ => None,
    }
}

fn hex_pair(high: u8, low: u8) -> Option<u8>
    ensures { result ≡ hex_pair_value high low }
{
    let high = hex_digit(high)?;
    let low = hex_digit(low)?;
    Some(high * 16 + low)
}

/// The red, green and blue that exactly six hexadecimal digits of either case spell. There is none where the
/// text is anything else; spaces are not passed over.
pub fn colour(text: &[u8]) -> Option<[u8; 3]>
    ensures { result ≡ colour_value text.now }
{
    if text.len() != 6 {
        return None;
    }
    let red = hex_pair(text[0], text[1])?;
    let green = hex_pair(text[2], text[3])?;
    let blue = hex_pair(text[4], text[5])?;
    Some([red, green, blue])
}
