//! Runs, and those that end at nodes.

ghost use Rattle.std.specs.Prelude.{◌≡◌, ◌<◌, ◌++◌, ◌∷◌, [], if◌then◌else◌, length, IfOk, OnOk};
ghost use Rattle.run_laying.specs.Attempts.{has_node, run_of};
ghost use Rattle.kept_walks.specs.Straightening.{ends_at, runs_at, single_runs};

use graph_core::LineGraph;
use line_chains::{Chain, ChainStep};
use map_base::{NoMemory, NodeId, SegId, Sequence};
use std::alloc::Global;

/// Runs of one segment each, from its lower end, by number.
pub(crate) fn single_runs(alloc: Global, graph: &LineGraph) -> Result<Vec<Chain>, NoMemory>
    ensures { IfOk result (λ runs. runs.items ≡ single_runs graph.now) }
{
    let mut runs = Vec::new(alloc);
    for s in 0..graph.segs() {
        let run = run_of(alloc, graph, SegId(s))?;
        runs.push(run)?;
    }
    Ok(runs)
}

/// The run of one segment, from its lower end.
fn run_of(alloc: Global, graph: &LineGraph, s: SegId) -> Result<Chain, NoMemory>
    requires { s.0 < length graph.now.ends }
    ensures { IfOk result (λ run. run ≡ run_of graph.now s) }
{
    let (low, up) = graph.ends(s);
    let mut steps = Vec::new(alloc);
    steps.push(ChainStep { seg: s, to: up })?;
    Ok(Chain {
        from: low,
        steps: Sequence::of(steps),
    })
}

/// The runs that end at one of these nodes, in their order.
pub(crate) fn runs_at(
    alloc: Global,
    nodes: &[NodeId],
    runs: &[Chain],
) -> Result<Vec<Chain>, NoMemory>
    ensures { IfOk result (λ found. found.items ≡ runs_at nodes.now runs.now) }
{
    let mut found = Vec::new(alloc);
    for run in runs {
        push_if_at(alloc, nodes, run, &mut found)?;
    }
    Ok(found)
}

/// Lists a run, if it ends at one of these nodes.
fn push_if_at(
    alloc: Global,
    nodes: &[NodeId],
    run: &Chain,
    found: &mut Vec<Chain>,
) -> Result<(), NoMemory>
    ensures { OnOk result (found.new.items ≡ (if ends_at nodes.now run.now then found.old.items ++ run.now ∷ [] else found.old.items)) }
{
    if ends_at(nodes, run) {
        let copy = copy_of(alloc, run)?;
        found.push(copy)?;
    }
    Ok(())
}

/// Whether a run ends at one of these nodes.
fn ends_at(nodes: &[NodeId], run: &Chain) -> bool
    ensures { result ≡ ends_at nodes.now run.now }
{
    has_node(nodes, run.from) || has_node(nodes, run.end())
}

/// Whether a node is one of these.
fn has_node(nodes: &[NodeId], n: NodeId) -> bool
    ensures { result ≡ has_node nodes.now n.0 }
{
    for m in nodes {
        if m.0 == n.0 {
            return true;
        }
    }
    false
}

/// A copy of a run.
pub(crate) fn copy_of(alloc: Global, run: &Chain) -> Result<Chain, NoMemory>
    ensures { IfOk result (λ copy. copy ≡ run.now) }
{
    let steps = run.steps.as_slice().to_vec(alloc)?;
    Ok(Chain {
        from: run.from,
        steps: Sequence::of(steps),
    })
}
