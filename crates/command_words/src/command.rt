//! Commands with what they work on.

use command_paths::{MapFiles, NewFiles, Options, Picture};

/// A command with what it works on.
#[derive(Clone, Copy)]
pub enum Command<'a> {
    /// The stations of the feed in this folder.
    Stations {
        feed: &'a str,
    },
    /// The line graph of the feed in this folder.
    Graph {
        feed: &'a str,
        options: Options<'a>,
    },
    /// The line graph of the feed in this folder, as a file.
    Export {
        feed: &'a str,
        out: &'a str,
        options: Options<'a>,
    },
    /// The map of a graph file, and its certificate.
    Import {
        graph: &'a str,
        files: MapFiles<'a>,
        options: Options<'a>,
    },
    /// The map of the feed in this folder, its certificate, and its page where one is asked for; `map` and `make` differ
    /// in the settings where the user sets none.
    Make {
        feed: &'a str,
        files: NewFiles<'a>,
        options: Options<'a>,
    },
    /// The map of the feed in this folder after so many moves more at most, its certificate, and what the moves made of
    /// its drawing.
    Improve {
        feed: &'a str,
        files: MapFiles<'a>,
        moves: u32,
        options: Options<'a>,
    },
    /// Whether a map and its certificate are those of the feed in this folder.
    Check {
        feed: &'a str,
        files: MapFiles<'a>,
        options: Options<'a>,
    },
    /// A picture of the map of a certificate of the feed in this folder.
    Depict {
        kind: Picture,
        feed: &'a str,
        certificate: &'a str,
        out: &'a str,
        options: Options<'a>,
    },
    /// A script of edits and draws of the feed in this folder.
    Session {
        feed: &'a str,
        script: &'a str,
        out: &'a str,
        options: Options<'a>,
    },
    /// The numbers of the map of the trial feed with this number.
    Trial {
        number: u32,
    },
    /// A page that shows a map.
    Page {
        map: &'a str,
        page: &'a str,
    },
}
