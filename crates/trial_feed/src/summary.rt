//! The line that a trial prints.

ghost use Rattle.std.specs.Prelude.{◌≡◌, IfOk, string_bytes};
ghost use Rattle.trial_feed.specs.Summary.{trial_line};

use map_base::NoMemory;
use std::alloc::Global;

/// What is told of a map: the nodes, segments and lines of its line graph, the cost of its line orders, and the
/// branch nodes of the proof that no orders cost less.
#[derive(Clone, Copy, Debug, PartialEq, Eq)]
pub struct Summary {
    pub nodes: u32,
    pub segments: u32,
    pub lines: u32,
    pub cost: u64,
    pub branches: u64,
}

/// The line that tells this of the map of a trial.
pub fn trial_line(alloc: Global, trial: u32, summary: Summary) -> Result<String, NoMemory>
    ensures { IfOk result (λ line. string_bytes line ≡ trial_line trial summary) }
{
    let Summary {
        nodes,
        segments,
        lines,
        cost,
        branches,
    } = summary;
    let line = format!(in alloc;
        "trial {trial}: nodes {nodes} segments {segments} lines {lines} cost {cost} branches {branches}\n"
    )?;
    Ok(line)
}
