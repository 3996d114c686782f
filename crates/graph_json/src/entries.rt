//! The entries of a graph file, in order.

ghost use Rattle.std.specs.Prelude.{◌≡◌, Option, map, Ok, Err, IfOk, MatchResult};
ghost use Rattle.serde_json.specs.Data.{Data};
ghost use Rattle.serde_json.specs.View.{view};
ghost use Rattle.graph_json.specs.Outcome.{each_or_first};

use map_base::NoMemory;
use serde_json::Value;
use std::alloc::Global;

/// A line or a feature.
pub(crate) trait Entry: Drop {
    /// What comes of a value, by definition.
    ghost entry: { Data → Option Self };

    /// What comes of a value, none where its form is another.
    fn read(alloc: Global, value: &Value) -> Result<Option<Self>, NoMemory>
        ensures { IfOk result (λ read. read ≡ entry (view value.now)) };
}

/// What comes of each value, or the place of the first whose form is another.
pub(crate) fn entries_of<T: Entry>(
    alloc: Global,
    values: &[Value],
) -> Result<Result<Vec<T>, u64>, NoMemory>
    ensures { IfOk result (λ read. MatchResult read
        (λ v. each_or_first T.entry 0 (map view values.now) ≡ Ok v.items)
        (λ i. each_or_first T.entry 0 (map view values.now) ≡ Err i)) }
{
    let mut entries = Vec::new(alloc);
    for (i, value) in values.iter().enumerate() {
        let Some(entry) = T::read(alloc, value)? else {
            return Ok(Err(i as u64));
        };
        entries.push(entry)?;
    }
    Ok(Ok(entries))
}
