//! What commands read.

use table_rows::Table;

/// A file that a command reads, by its role. Two of them may lie at one path.
#[derive(Clone, Copy, Debug, PartialEq, Eq)]
pub enum Input {
    /// The file of settings.
    Settings,
    /// The file of edits.
    Edits,
    /// A table of the feed.
    Table(Table),
    /// The graph file of an import.
    Graph,
    /// The script of a session.
    Script,
    /// The certificate that is checked.
    Certificate,
    /// The picture that is checked or shown.
    Picture,
}
