//! Outputs of commands.

ghost use Rattle.std.specs.Prelude.{◌≡◌, IfOk};
ghost use Rattle.run_status.specs.Outputs.{said};

use command_run::Output;
use files_door::Target;
use map_base::{NoMemory, Sequence};
use std::alloc::Global;

/// The one output of a text to standard output.
pub fn say(alloc: Global, text: Vec<u8>) -> Result<Sequence<Output>, NoMemory>
    ensures { IfOk result (λ outputs. outputs ≡ said text.items) }
{
    let mut outputs = Vec::new(alloc);
    outputs.push(Output {
        to: Target::Said,
        bytes: Sequence::of(text),
    })?;
    Ok(Sequence::of(outputs))
}
