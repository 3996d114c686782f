//! Quantities that are counted, and a quantity above its number.

ghost use Rattle.std.specs.Prelude.{◌≡◌};

/// A quantity that is counted against a limit.
#[derive(Clone, Copy, Debug, PartialEq, Eq)]
pub enum LimitKind {
    /// Bytes of a file that is read.
    File,
    /// Lines that are not hidden and have a pattern.
    Lines,
    /// Stations of such lines.
    Stations,
    /// Samples of shapes and hops, summed over the patterns of such lines.
    Samples,
    /// Points of the net.
    NetPoints,
    /// Nodes of the line graph.
    Nodes,
    /// Segments of the line graph.
    Segments,
    /// Cells of the finest grid.
    Cells,
    /// Terms of the ordering problem.
    Terms,
    /// Places of one part of the ordering problem: the sum of its segments' lines, each less one.
    Places,
}

impl LimitKind {
    ghost use Rattle.map_base.specs.Limits.{limit_name, limit_most};

    /// The quantity as a limit's line prints it.
    pub fn name(self) -> &'static str
        ensures { result.now ≡ limit_name self }
    {
        match self {
            LimitKind::File => "file",
            LimitKind::Lines => "lines",
            LimitKind::Stations => "stations",
            LimitKind::Samples => "samples",
            LimitKind::NetPoints => "net points",
            LimitKind::Nodes => "nodes",
            LimitKind::Segments => "segments",
            LimitKind::Cells => "cells",
            LimitKind::Terms => "terms",
            LimitKind::Places => "places",
        }
    }

    /// The greatest allowed number: bytes of a file, and counts of everything else.
    pub fn most(self) -> u64
        ensures { result ≡ limit_most self }
    {
        match self {
            LimitKind::File => 536_870_912,
            LimitKind::Lines => 1_000,
            LimitKind::Stations => 10_000,
            LimitKind::Samples => 4_000_000,
            LimitKind::NetPoints => 100_000,
            LimitKind::Nodes => 10_000,
            LimitKind::Segments => 20_000,
            LimitKind::Cells => 400,
            LimitKind::Terms => 4_000_000,
            LimitKind::Places => 2_048,
        }
    }
}

/// A counted quantity that is above its greatest allowed number.
#[derive(Clone, Copy, Debug, PartialEq, Eq)]
pub struct Limit {
    /// What was counted.
    pub what: LimitKind,
    /// How many there are, or the number at which counting stopped.
    pub found: u64,
    /// The greatest allowed number.
    pub most: u64,
}

impl Limit {
    ghost use Rattle.map_base.specs.Limits.{limit_of};

    /// What is reported where counting stops at one more than the greatest allowed number.
    pub fn above(kind: LimitKind) -> Limit
        ensures { result ≡ limit_of kind }
    {
        Limit {
            what: kind,
            found: kind.most().saturating_add(1),
            most: kind.most(),
        }
    }
}
