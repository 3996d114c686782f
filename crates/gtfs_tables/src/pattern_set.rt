//! Patterns, each once.

ghost use Rattle.std.specs.Prelude.{◌≡◌, [], option_map, option_to_list, IfOk, OnOk};
ghost use Rattle.gtfs_tables.specs.PatternKeys.{pattern_of_key};
ghost use Rattle.gtfs_tables.specs.Patterns.{is_same_pattern};
ghost use Rattle.table_rows.specs.Firsts.{with_new, firsts_behind};

use indexmap::IndexSet;
use map_base::{LineId, NoMemory, Sequence, StationId};
use std::alloc::Global;
use std::marker::Model;
use transit_feed::Pattern;

/// What tells a pattern from others.
#[derive(PartialEq, Eq, Hash, Drop)]
pub(crate) struct PatternKey {
    pub(crate) line: LineId,
    pub(crate) stops: Vec<StationId>,
    pub(crate) shape: Option<u32>,
}

/// Patterns in the order of first sight, no two of them equal.
#[derive(Drop)]
pub(crate) struct PatternSet {
    held: IndexSet<PatternKey>,
}

impl Model for PatternSet {
    ghost use Rattle.std.specs.Prelude.{List, map};
    ghost use Rattle.transit_feed.specs.declared.pattern.Pattern.{Pattern};
    ghost use Rattle.gtfs_tables.specs.PatternKeys.{pattern_of_key};

    ghost Value = { List Pattern };

    ghost view = { λ s. map pattern_of_key s.held.keys };
}

/// The pattern that a key stands for.
fn pattern_of_key(alloc: Global, key: &PatternKey) -> Result<Pattern, NoMemory>
    ensures { IfOk result (λ pattern. pattern ≡ pattern_of_key key.now) }
{
    let stops = Vec::from_slice(alloc, key.stops.as_slice())?;
    Ok(Pattern {
        line: key.line,
        stops: Sequence::of(stops),
        shape: key.shape,
    })
}

impl PatternSet {
    /// No pattern.
    pub(crate) fn new(alloc: Global) -> PatternSet
        ensures { result ≡ [] }
    {
        PatternSet {
            held: IndexSet::new(alloc),
        }
    }

    /// Notes a pattern, unless it was seen.
    fn note(&mut self, key: PatternKey) -> Result<(), NoMemory>
        ensures { OnOk result (self.new ≡ with_new is_same_pattern self.old (pattern_of_key key)) }
    {
        self.held.insert(key)?;
        Ok(())
    }

    /// Notes a pattern, if there is one, unless it was seen.
    pub(crate) fn note_some(&mut self, key: Option<PatternKey>) -> Result<(), NoMemory>
        ensures { OnOk result (self.new ≡ firsts_behind is_same_pattern self.old (option_to_list (option_map pattern_of_key key))) }
    {
        match key {
            None => Ok(()),
            Some(key) => self.note(key),
        }
    }

    /// The patterns.
    pub(crate) fn to_patterns(&self, alloc: Global) -> Result<Vec<Pattern>, NoMemory>
        ensures { IfOk result (λ patterns. patterns.items ≡ self.now) }
    {
        let keys = self.held.as_slice();
        let mut patterns = Vec::with_capacity(alloc, keys.len())?;
        for key in keys {
            patterns.push(pattern_of_key(alloc, key)?)?;
        }
        Ok(patterns)
    }
}
