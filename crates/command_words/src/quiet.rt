//! Whether a user wants the status alone.

ghost use Rattle.std.specs.Prelude.{◌≡◌};
ghost use Rattle.command_words.specs.Words.{is_quiet_in};

/// Whether `--quiet` or `-q` stands among the words, before any `--`. What words ask for doesn't hang on it.
pub fn is_quiet(words: &[String]) -> bool
    ensures { result ≡ is_quiet_in words.now }
{
    words
        .iter()
        .take_while(|word| word.as_str() != "--")
        .any(|word| word.as_str() == "--quiet" || word.as_str() == "-q")
}
