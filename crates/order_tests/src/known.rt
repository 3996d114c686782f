//! Problems of which the orders, the cost and the tree are known.

use crate::problems::Kind::{Apart, Link, Side, Turned};
use crate::problems::Row;

/// A small problem: for each segment a number whose bits are its lines, and the terms.
#[derive(Clone, Copy)]
pub(crate) struct Small {
    pub(crate) lines: &'static [u32],
    pub(crate) terms: &'static [Row],
}

/// Two lines that share two segments, and part at both ends so that they needn't cross.
pub(crate) const AGREEING: Small = Small {
    lines: &[0b01, 0b11, 0b10, 0b11, 0b01, 0b10],
    terms: &[
        (Side, 1, 1, 0, 1, 3),
        (Link, 1, 3, 0, 1, 12),
        (Apart, 1, 3, 0, 1, 9),
        (Side, 3, 3, 0, 1, 3),
    ],
};

/// Two lines that share two segments, and part at both ends so that they have to cross: between the two at a cost of 1, at
/// an end at a cost of 5.
pub(crate) const CROSSING: Small = Small {
    lines: &[0b01, 0b11, 0b10, 0b11, 0b10, 0b01],
    terms: &[
        (Side, 1, 1, 0, 1, 5),
        (Link, 1, 3, 0, 1, 1),
        (Side, 3, 3, 1, 0, 5),
    ],
};

/// Two lines that go from each of three segments at a node to both others.
pub(crate) const CONNECTIONS: Small = Small {
    lines: &[0b11, 0b11, 0b11],
    terms: &[
        (Side, 0, 0, 0, 1, 3),
        (Side, 0, 0, 1, 0, 3),
        (Side, 1, 1, 0, 1, 3),
        (Side, 1, 1, 1, 0, 3),
        (Side, 2, 2, 0, 1, 3),
        (Side, 2, 2, 1, 0, 3),
        (Turned, 0, 1, 0, 1, 12),
        (Turned, 0, 2, 0, 1, 12),
        (Turned, 1, 2, 0, 1, 12),
        (Apart, 0, 1, 0, 1, 9),
        (Apart, 0, 2, 0, 1, 9),
        (Apart, 1, 2, 0, 1, 9),
    ],
};

/// Three lines on a segment, of which the outer ones go on together.
pub(crate) const SEPARATION: Small = Small {
    lines: &[0b111, 0b101, 0b010],
    terms: &[
        (Side, 0, 0, 0, 1, 3),
        (Link, 0, 1, 0, 2, 12),
        (Apart, 0, 1, 0, 2, 9),
        (Side, 0, 0, 2, 1, 3),
    ],
};

/// Two lines on a segment, whose orders cost the same.
pub(crate) const TIE: Small = Small {
    lines: &[0b01, 0b11, 0b10, 0b10, 0b01],
    terms: &[(Side, 1, 1, 0, 1, 3), (Side, 1, 1, 1, 0, 3)],
};

/// Two lines that part behind a segment, the second to the left.
pub(crate) const JUNCTION: Small = Small {
    lines: &[0b11, 0b01, 0b10],
    terms: &[(Side, 0, 0, 1, 0, 3)],
};

/// Three lines on a segment, where the second ends.
pub(crate) const ENDING: Small = Small {
    lines: &[0b001, 0b111, 0b100, 0b010, 0b101],
    terms: &[
        (Side, 1, 1, 0, 1, 3),
        (Side, 1, 1, 0, 2, 3),
        (Side, 1, 1, 1, 2, 3),
        (Link, 1, 4, 0, 2, 12),
        (Apart, 1, 4, 0, 2, 9),
    ],
};

/// Three lines on a segment, where the second ends, which is four times as important as the others.
pub(crate) const IMPORTANT: Small = Small {
    lines: &[0b001, 0b111, 0b100, 0b010, 0b101],
    terms: &[
        (Side, 1, 1, 0, 1, 12),
        (Side, 1, 1, 0, 2, 3),
        (Side, 1, 1, 1, 2, 12),
        (Link, 1, 4, 0, 2, 12),
        (Apart, 1, 4, 0, 2, 9),
    ],
};

/// Four lines on a segment, two of which go on to each of two others, where another line comes between them. It costs 8 to
/// order the two pairs one beside the other, and 5 to mix them.
pub(crate) const TWO_PAIRS: Small = Small {
    lines: &[0b01111, 0b10011, 0b11100],
    terms: &[
        (Side, 0, 0, 0, 2, 5),
        (Side, 0, 0, 0, 3, 5),
        (Side, 0, 0, 1, 2, 5),
        (Side, 0, 0, 1, 3, 5),
        (Side, 1, 1, 0, 4, 100),
        (Side, 1, 1, 4, 1, 100),
        (Side, 2, 2, 2, 4, 100),
        (Side, 2, 2, 4, 3, 100),
        (Link, 0, 1, 0, 1, 100),
        (Apart, 0, 1, 0, 1, 4),
        (Link, 0, 2, 2, 3, 100),
        (Apart, 0, 2, 2, 3, 4),
    ],
};

/// Two parts: the first with a Link of weight 2, the second with a Link of weight 4.
pub(crate) const TWO_PARTS: Small = Small {
    lines: &[0b11, 0b11, 0b11, 0b11],
    terms: &[(Link, 0, 1, 0, 1, 2), (Link, 2, 3, 0, 1, 4)],
};
