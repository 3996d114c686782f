//! The words that begin the lines of a script.

ghost use Rattle.std.specs.Prelude.{◌≡◌};
ghost use Rattle.map_edits.specs.Grammar.{kind_of, kind_with_id};

/// What an edit does.
#[derive(Clone, Copy, Debug, PartialEq, Eq)]
pub(crate) enum Kind {
    Hide,
    Show,
    Weight,
    Near,
    Cell,
    Budget,
    Rename,
    Move,
    Colour,
    Importance,
    Undo,
}

/// What the first word of a line says that the edit does.
pub(crate) fn kind_of(word: &[u8]) -> Option<Kind>
    ensures { result ≡ kind_of word.now }
{
    if word == b"hide".as_slice() {
        Some(Kind::Hide)
    } else if word == b"show".as_slice() {
        Some(Kind::Show)
    } else if word == b"weight".as_slice() {
        Some(Kind::Weight)
    } else if word == b"near".as_slice() {
        Some(Kind::Near)
    } else if word == b"cell".as_slice() {
        Some(Kind::Cell)
    } else if word == b"budget".as_slice() {
        Some(Kind::Budget)
    } else {
        kind_with_id(word)
    }
}

/// What the first word of a line says that the edit does, where it is `rename`, `move`, `colour`, `importance` or
/// `undo`.
fn kind_with_id(word: &[u8]) -> Option<Kind>
    ensures { result ≡ kind_with_id word.now }
{
    if word == b"rename".as_slice() {
        Some(Kind::Rename)
    } else if word == b"move".as_slice() {
        Some(Kind::Move)
    } else if word == b"colour".as_slice() {
        Some(Kind::Colour)
    } else if word == b"importance".as_slice() {
        Some(Kind::Importance)
    } else if word == b"undo".as_slice() {
        Some(Kind::Undo)
    } else {
        None
    }
}
