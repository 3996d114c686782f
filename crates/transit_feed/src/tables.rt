//! The tables of a feed.

use crate::line::Line;
use crate::pattern::Pattern;
use crate::shape::Shape;
use crate::station::Station;
use std::marker::Model;

/// The tables of a feed, seen as the record of their lists. They fit together: each pattern names stations, a line
/// and a shape of theirs.
#[derive(Debug, Drop)]
pub struct Tables {
    /// The stations, in the order of `stops.txt`.
    pub stations: Vec<Station>,
    /// The lines, in the order of `routes.txt`.
    pub lines: Vec<Line>,
    /// The patterns, in the order of their first trips in `trips.txt`.
    pub patterns: Vec<Pattern>,
    /// The shapes, in the order of their first rows in `shapes.txt`.
    pub shapes: Vec<Shape>,
}

impl Model for Tables {
    ghost use Rattle.transit_feed.specs.Feeds.{Feed, IsFeed};

    ghost Value = { Feed };

    ghost view = { λ t. record {
      stations = t.stations.items;
      lines = t.lines.items;
      patterns = t.patterns.items;
      shapes = t.shapes.items;
    } };

    ghost invariant = { λ t. IsFeed (record {
      stations = t.stations.items;
      lines = t.lines.items;
      patterns = t.patterns.items;
      shapes = t.shapes.items;
    }) };
}
