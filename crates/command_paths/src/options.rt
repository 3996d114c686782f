//! What a user chose.

use map_method::Defaults;

/// What a user may choose for a command.
#[derive(Clone, Copy, Debug)]
pub struct Options<'a> {
    /// Which settings hold where the user sets none.
    pub defaults: Defaults,
    /// A file of settings.
    pub settings: Option<&'a str>,
    /// A file of edits.
    pub edits: Option<&'a str>,
    /// The words of the command line, whose `--set` take the place of keys of the file of settings.
    pub words: &'a [String],
}
