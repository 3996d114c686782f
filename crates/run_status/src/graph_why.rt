//! Why a graph file gives no graph.

ghost use Rattle.std.specs.Prelude.{◌≡◌, IfOk, string_bytes};
ghost use Rattle.run_status.specs.Lines.{graph_why_text};

use map_base::NoMemory;
use std::alloc::Global;

/// Why a graph file gives no graph. Entries are counted from 0.
#[derive(Clone, Copy, Debug, PartialEq, Eq)]
pub enum GraphWhy {
    /// There is no such file.
    Missing,
    /// It is no JSON.
    Json,
    /// It is no feature collection with its features and its lines.
    Whole,
    /// This entry of the lines is no line.
    Line { index: u64 },
    /// This entry of the features is no node and no segment, or refers to what is not there.
    Feature { index: u64 },
}

/// How the line of a bad graph names what is wrong.
pub(crate) fn graph_why_text(alloc: Global, why: GraphWhy) -> Result<String, NoMemory>
    ensures { IfOk result (λ text. string_bytes text ≡ graph_why_text why) }
{
    match why {
        GraphWhy::Missing => Ok(String::from_str(alloc, "missing")?),
        GraphWhy::Json => Ok(String::from_str(alloc, "json")?),
        GraphWhy::Whole => Ok(String::from_str(alloc, "whole")?),
        GraphWhy::Line { index } => Ok(format!(in alloc; "line {index}")?),
        GraphWhy::Feature { index } => Ok(format!(in alloc; "feature {index}")?),
    }
}
