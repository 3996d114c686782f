//! Where the inputs of a command lie.

ghost use Rattle.std.specs.Prelude.{◌≡◌, IfOk};
ghost use Rattle.command_inputs.specs.Inputs.{input_at, inputs_by};

use command_paths::{MapFiles, Options};
use map_base::{NoMemory, Text};
use run_status::{Input, file_name};
use std::alloc::Global;

/// Where the inputs of a command lie; a path is empty where the command has no such input.
#[derive(Clone, Copy, Debug)]
pub struct Inputs<'a> {
    /// The folder of the feed.
    pub feed: &'a str,
    /// What the user chose.
    pub options: Options<'a>,
    /// A map and its certificate.
    pub files: MapFiles<'a>,
    /// The script of a session, or the graph file of an import.
    pub script: &'a str,
}

/// Where an input lies: a table in the folder of the feed, and empty where the command has no such input.
pub fn path_of(alloc: Global, inputs: &Inputs<'_>, input: Input) -> Result<Text, NoMemory>
    ensures { IfOk result (λ path. path ≡ input_at (inputs_by inputs.now) input) }
{
    match input {
        Input::Settings => Text::of(alloc, inputs.options.settings.unwrap_or("")),
        Input::Edits => Text::of(alloc, inputs.options.edits.unwrap_or("")),
        Input::Table(table) => {
            let folder = inputs.feed;
            let name = file_name(table);
            let path = format!(in alloc; "{folder}/{name}")?;
            Text::of(alloc, path.as_str())
        }
        Input::Graph => Text::of(alloc, inputs.script),
        Input::Script => Text::of(alloc, inputs.script),
        Input::Certificate => Text::of(alloc, inputs.files.certificate),
        Input::Picture => Text::of(alloc, inputs.files.picture),
    }
}
