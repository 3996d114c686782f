//! From where reading stopped to why no value was read.

ghost use Rattle.decimal_text.specs.Readers.{IsStopWithin, IsBadText};

use crate::fault::{BadText, Stop};

/// Why no value was read, where reading stopped in a text of so many bytes.
pub fn bad_text(len: usize, stop: Stop) -> BadText
    requires { IsStopWithin len stop }
    ensures { IsBadText len stop result }
{
    match stop {
        Stop::Wrong(left) => BadText::At {
            at: (len - left) as u64,
        },
        Stop::Memory => BadText::NoMemory,
    }
}
