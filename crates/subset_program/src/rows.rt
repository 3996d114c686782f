//! What a program is run on.

/// What pairs of lines cost and which of them are settled, in rows that the caller keeps. The lines are told by their
/// places, from 0 on.
#[derive(Clone, Copy)]
pub struct PairRows<'a> {
    /// How many lines there are, at most 16.
    pub count: usize,
    /// At `i * count + j` what lines `i` and `j` cost where `i` stands before `j`.
    pub before: &'a [i64],
    /// At `i * count + j` what they cost besides where `i` stands right before `j`.
    pub beside: &'a [i64],
    /// For each line the set of those that have to stand before it, a bit for each place.
    pub ahead: &'a [u32],
}
