//! Words that are not read.

/// Why words are not read.
#[derive(Debug, Drop)]
pub enum WordsFault {
    /// They ask for no command, or for help: the text for the user.
    Usage(String),
    /// Memory ran out.
    NoMemory,
}
