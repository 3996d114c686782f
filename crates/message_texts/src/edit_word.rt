//! The words that begin edits, and what stands behind each.

ghost use Rattle.std.specs.Prelude.{◌≡◌, ◌≢◌, IfNone, IfSome};
ghost use Rattle.message_texts.specs.Keys.{word_name};

/// The first word of an edit.
#[derive(Clone, Copy, Debug, PartialEq, Eq)]
pub enum EditWord {
    Hide,
    Show,
    Rename,
    Move,
    Colour,
    Importance,
    Weight,
    Near,
    Cell,
    Budget,
    Undo,
}

/// All words.
pub const EDIT_WORDS: [EditWord; 11] = [
    EditWord::Hide,
    EditWord::Show,
    EditWord::Rename,
    EditWord::Move,
    EditWord::Colour,
    EditWord::Importance,
    EditWord::Weight,
    EditWord::Near,
    EditWord::Cell,
    EditWord::Budget,
    EditWord::Undo,
];

impl EditWord {
    /// The word as it is written.
    pub fn name(self) -> &'static str
        ensures { result.now ≡ word_name self }
    {
        match self {
            EditWord::Hide => "hide",
            EditWord::Show => "show",
            EditWord::Rename => "rename",
            EditWord::Move => "move",
            EditWord::Colour => "colour",
            EditWord::Importance => "importance",
            EditWord::Weight => "weight",
            EditWord::Near => "near",
            EditWord::Cell => "cell",
            EditWord::Budget => "budget",
            EditWord::Undo => "undo",
        }
    }

    /// The word that is written so, if there is one.
    pub fn named(text: &str) -> Option<EditWord>
        ensures some { IfSome result (λ word. word_name word ≡ text.now) }
        ensures none { IfNone result ((word : EditWord) → word_name word ≢ text.now) }
    {
        for word in EDIT_WORDS {
            if word.name() == text {
                return Some(word);
            }
        }
        None
    }

    /// How many words stand behind it.
    pub fn arguments(self) -> usize {
        match self {
            EditWord::Undo => 0,
            EditWord::Hide | EditWord::Show => 1,
            EditWord::Near | EditWord::Cell | EditWord::Budget => 1,
            EditWord::Rename | EditWord::Colour | EditWord::Importance => 2,
            EditWord::Move => 3,
            EditWord::Weight => 4,
        }
    }

    /// What stands behind it.
    pub fn form(self) -> &'static str {
        match self {
            EditWord::Hide => "hide takes ID, the route_id of a line",
            EditWord::Show => "show takes ID, the route_id of a line",
            EditWord::Rename => "rename takes ID NAME: the stop_id of a station, and its new name",
            EditWord::Move => {
                "move takes ID LAT LON: the stop_id of a station, a latitude from -90 to 90, and a longitude from -180 to 180"
            }
            EditWord::Colour =>
                "colour takes ID RRGGBB: the route_id of a line, and six hexadecimal digits without #",
            EditWord::Importance =>
                "importance takes ID N: the route_id of a line, and a whole number from 1 to 16",
            EditWord::Weight => {
                "weight takes junction or station, and three whole numbers from 0 to 1000: of a crossing, a split and a separation"
            }
            EditWord::Near => "near takes N, decimetres from 20 to 20000",
            EditWord::Cell => "cell takes N, 0 or decimetres from 10 to 1000000",
            EditWord::Budget => "budget takes N, a whole number from 1 to 100000",
            EditWord::Undo => "undo takes nothing",
        }
    }
}
