//! Texts of a table's fields.

ghost use Rattle.std.specs.Prelude.{◌≡◌, IsUtf8, IfOk};

use map_base::{NoMemory, Text};
use std::alloc::Global;

/// Holds a field that is UTF-8.
pub fn text_of(alloc: Global, field: &[u8]) -> Result<Text, NoMemory>
    requires { IsUtf8 field.now }
    ensures { IfOk result (λ text. text ≡ field.now) }
{
    match str::from_utf8(field) {
        Ok(text) => Text::of(alloc, text),
        Err(_) => unreachable!(),
    }
}
