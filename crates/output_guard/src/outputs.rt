//! What each command writes.

ghost use Rattle.std.specs.Prelude.{◌≡◌};
ghost use Rattle.command_words.specs.Asked.{asked_by};
ghost use Rattle.output_guard.specs.Guarded.{outputs_by, outputs_of};

use command_paths::NewFiles;
use command_words::Command;

/// The files that a command writes.
#[derive(Clone, Copy, Debug)]
pub enum Outputs<'a> {
    /// None.
    Nothing,
    /// The file of this path.
    File(&'a str),
    /// A map, its certificate, and its page where one is named.
    Map(NewFiles<'a>),
}

/// The files that a command writes.
pub fn outputs_of<'a>(command: &Command<'a>) -> Outputs<'a>
    ensures { outputs_by result ≡ outputs_of (asked_by command.now) }
{
    match command {
        Command::Make { files, .. } => Outputs::Map(*files),
        Command::Improve { files, .. } => Outputs::Map(NewFiles {
            map: *files,
            page: None,
        }),
        Command::Import { files, .. } => Outputs::Map(NewFiles {
            map: *files,
            page: None,
        }),
        Command::Depict { out, .. } => Outputs::File(out),
        Command::Export { out, .. } => Outputs::File(out),
        Command::Session { out, .. } => Outputs::File(out),
        Command::Page { page, .. } => Outputs::File(page),
        Command::Stations { .. } => Outputs::Nothing,
        Command::Graph { .. } => Outputs::Nothing,
        Command::Check { .. } => Outputs::Nothing,
        Command::Trial { .. } => Outputs::Nothing,
    }
}
