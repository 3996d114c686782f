//! A line of a file of edits, or of a script.

use command_inputs::Inputs;
use map_edits::next_line;

/// Where the edits stand: in a script, or in a file of edits.
pub fn edits_path<'a>(inputs: &Inputs<'a>) -> &'a str {
    if inputs.script.is_empty() {
        inputs.options.edits.unwrap_or("")
    } else {
        inputs.script
    }
}

/// The line of this number, counted from 1.
pub fn line_at(script: &[u8], number: u64) -> Option<&[u8]> {
    let mut rest = script;
    let mut found = None;
    for _ in 0..number {
        let (line, behind) = next_line(rest)?;
        found = Some(line);
        rest = behind;
    }
    found
}
