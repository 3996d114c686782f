//! Lines of a graph file.

ghost use Rattle.std.specs.Prelude.{◌≡◌, IfOk};
ghost use Rattle.std.specs.Result.{result_ok};
ghost use Rattle.serde_json.specs.View.{view};
ghost use Rattle.hex.specs.Hex.{decode_sized};
ghost use Rattle.graph_json.specs.Forms.{line_of};

use crate::entries::Entry;
use crate::forms::LineForm;
use crate::values::{importance_of, text_at};
use hex::FromHex;
use map_base::{NoMemory, Text};
use serde_json::Value;
use std::alloc::Global;

impl Entry for LineForm {
    ghost use Rattle.graph_json.specs.Forms.{line_of};

    ghost entry = { line_of };

    fn read(alloc: Global, value: &Value) -> Result<Option<LineForm>, NoMemory> {
        line_of(alloc, value)
    }
}

/// A line: its name, its colour and its importance.
fn line_of(alloc: Global, value: &Value) -> Result<Option<LineForm>, NoMemory>
    ensures { IfOk result (λ line. line ≡ line_of (view value.now)) }
{
    let Some(name) = text_at(value, "name") else {
        return Ok(None);
    };
    let Some(colour) = text_at(value, "colour").and_then(colour_of) else {
        return Ok(None);
    };
    let Some(importance) = value.get("importance").and_then(importance_of) else {
        return Ok(None);
    };
    Ok(Some(LineForm {
        name: Text::of(alloc, name)?,
        colour,
        importance,
    }))
}

/// The colour that six hexadecimal digits of either case spell: red, green and blue.
fn colour_of(digits: &str) -> Option<[u8; 3]>
    ensures { result ≡ result_ok (decode_sized digits.now 3) }
{
    <[u8; 3] as FromHex>::from_hex(digits).ok()
}
