//! What to do where there is more of something than is worked on.

use map_base::LimitKind;

/// What a user can do about a limit, in one sentence.
pub fn limit_hint(kind: LimitKind) -> &'static str {
    match kind {
        LimitKind::File =>
            "files of more than 512 MiB are not read: cut the feed to the agencies or days of the map",
        LimitKind::Lines => {
            "draw fewer lines: name fewer route types by the key types, or hide lines by a file of edits"
        }
        LimitKind::Stations | LimitKind::Nodes | LimitKind::Segments => {
            "draw fewer lines (the key types, or edits with hide); a larger near joins ways that lie side by side"
        }
        LimitKind::Samples | LimitKind::NetPoints => {
            "draw fewer lines (the key types, or edits with hide); a larger near takes fewer points"
        }
        LimitKind::Cells => { "take a larger cell, or 0 for one that fits the network" }
        LimitKind::Terms | LimitKind::Places => {
            "too many lines run side by side: draw fewer (the key types, or edits with hide)"
        }
    }
}

/// What a user can do about a limit where the map is made of a file with a line graph, in one sentence.
pub fn graph_limit_hint(kind: LimitKind) -> &'static str {
    match kind {
        LimitKind::File =>
            "files of more than 512 MiB are not read: keep the lines of the map alone in it",
        LimitKind::Lines => "leave lines out of the file",
        LimitKind::Stations
        | LimitKind::Nodes
        | LimitKind::Segments
        | LimitKind::Samples
        | LimitKind::NetPoints => {
            "leave lines out of the file, with the nodes and segments that no other line needs"
        }
        LimitKind::Cells => {
            "take a larger cell, or 0 for one that fits the network; is a node far from all others?"
        }
        LimitKind::Terms | LimitKind::Places => {
            "too many lines run side by side: leave some out of the file"
        }
    }
}
