//! The version of the program.

ghost use Rattle.std.specs.Prelude.{◌≡◌};
ghost use Rattle.command_words.specs.Words.{asks_version};

/// Whether words ask for the version: `--version` or `-V` is the first of them.
pub fn asks_version(words: &[String]) -> bool
    ensures { result ≡ asks_version words.now }
{
    match words.first() {
        Some(word) => word.as_str() == "--version" || word.as_str() == "-V",
        None => false,
    }
}
