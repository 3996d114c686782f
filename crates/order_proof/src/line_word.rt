//! The words that begin the lines of a proof's text.

ghost use Rattle.std.specs.Prelude.{◌≡◌};
ghost use Rattle.order_proof.specs.Lines.{word_text};

/// What a line is.
#[derive(Clone, Copy, Debug, PartialEq, Eq)]
pub(crate) enum LineWord {
    /// The number of rules.
    Rules,
    /// A rule that merges two segments.
    Merge,
    /// A rule that divides a segment.
    Divide,
    /// The number of parts.
    Parts,
    /// A part: its target and segments.
    Part,
    /// A split: its segment and the number of its cases.
    Split,
    /// A case: its line.
    Take,
    /// A closed case: its prices.
    Close,
    /// A fork of a dual tree: its segment and two lines of it.
    Fork,
    /// A stop of a dual tree: its prices.
    Stop,
}

impl LineWord {
    /// The word as it is written.
    pub(crate) fn text(self) -> &'static [u8]
        ensures { result.now ≡ word_text self }
    {
        match self {
            LineWord::Rules => b"rules",
            LineWord::Merge => b"merge",
            LineWord::Divide => b"divide",
            LineWord::Parts => b"parts",
            LineWord::Part => b"part",
            LineWord::Split => b"split",
            LineWord::Take => b"take",
            LineWord::Close => b"close",
            LineWord::Fork => b"fork",
            LineWord::Stop => b"stop",
        }
    }
}
