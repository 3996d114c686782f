//! The groups of attempts, in their order.

ghost use Rattle.std.specs.Prelude.{◌≡◌, ◌≢◌, ◌<◌, ◌≤◌, ◌++◌, ◌∷◌, [], if◌then◌else◌, filter, length, map, All, IfOk, OnOk};
ghost use Rattle.std.specs.List.{flat_map};
ghost use Rattle.line_chains.specs.declared.chain.Chain.{Chain};
ghost use Rattle.line_chains.specs.Chains.{chains_of, end_of, is_corner};
ghost use Rattle.run_laying.specs.Runs.{IsFitting};
ghost use Rattle.run_laying.specs.Searches.{attempts_alone};
ghost use Rattle.drawing_search.specs.Changes.{AreApart};
ghost use Rattle.drawing_search.specs.Searched.{attempts_in, attempts_of};
ghost use Rattle.kept_walks.specs.Groups.{all_nodes, AreGroupsFor, AreRunsOf, IsSound};
ghost use Rattle.kept_walks.specs.Moves.{move_attempts};
ghost use Rattle.kept_walks.specs.Straightening.{moves_of, straight_attempts};

use crate::runs::{copy_of, runs_at, single_runs};
use bit_flags::Flags;
use drawing_search::Group;
use graph_core::LineGraph;
use line_chains::Chain;
use map_base::{NoMemory, NodeId, Sequence};
use std::alloc::Global;

/// How many lengths of vectors straightening tries: 2, 4, 6 and 8 steps.
const LENGTHS: u32 = 4;

/// The groups of moves: each node with all its segments, by two steps.
pub(crate) fn move_groups(alloc: Global, graph: &LineGraph) -> Result<Vec<Group>, NoMemory>
    ensures { IfOk result (λ groups. AreGroupsFor graph.now (move_attempts graph.now) groups.items) }
{
    let nodes = graph.nodes();
    let mut groups = Vec::new(alloc);
    let singles = single_runs(alloc, graph)?;
    push_nodes(alloc, nodes, 1, &singles, &mut groups)?;
    Ok(groups)
}

/// The groups of straightening: each chain without a move; each corner with all chains that end at it; the two ends of each
/// chain with all chains that end at either; each node with all its segments; and the two ends of each segment with all
/// segments that end at either.
pub(crate) fn groups_of(
    alloc: Global,
    graph: &LineGraph,
    corners: &Flags,
    chains: &[Chain],
) -> Result<Vec<Group>, NoMemory>
    requires flags { length corners.now ≡ length graph.now.kinds }
    requires runs { AreRunsOf graph.now chains.now }
    requires are { chains.now ≡ chains_of graph.now corners.now }
    requires fitting { All (IsFitting graph.now) (straight_attempts graph.now corners.now) }
    ensures { IfOk result (λ groups. AreGroupsFor graph.now (straight_attempts graph.now corners.now) groups.items) }
{
    let nodes = graph.nodes();
    let mut groups = Vec::new(alloc);
    push_alone(alloc, chains, &mut groups)?;
    push_corners(alloc, corners, chains, &mut groups)?;
    push_ends(alloc, chains, &mut groups)?;
    let singles = single_runs(alloc, graph)?;
    push_nodes(alloc, nodes, LENGTHS, &singles, &mut groups)?;
    push_ends(alloc, &singles, &mut groups)?;
    Ok(groups)
}

/// Lists each run without a move.
fn push_alone(alloc: Global, runs: &[Chain], groups: &mut Vec<Group>) -> Result<(), NoMemory>
    requires { All IsSound groups.old.items }
    ensures sound { OnOk result (All IsSound groups.new.items) }
    ensures attempts { OnOk result (attempts_of groups.new.items ≡ attempts_of groups.old.items ++ map attempts_alone runs.now) }
{
    for run in runs {
        let group = alone(alloc, run)?;
        groups.push(group)?;
    }
    Ok(())
}

/// A run without a move.
fn alone(alloc: Global, run: &Chain) -> Result<Group, NoMemory>
    ensures attempts { IfOk result (λ group. attempts_in group ≡ attempts_alone run.now ∷ []) }
    ensures sound { IfOk result IsSound }
{
    let copy = copy_of(alloc, run)?;
    let nodes = Vec::new(alloc);
    let mut runs = Vec::new(alloc);
    runs.push(copy)?;
    Ok(Group {
        nodes: Sequence::of(nodes),
        lengths: 0,
        runs: Sequence::of(runs),
    })
}

/// Lists each corner with the runs that end at it.
fn push_corners(
    alloc: Global,
    corners: &Flags,
    runs: &[Chain],
    groups: &mut Vec<Group>,
) -> Result<(), NoMemory>
    requires few { length corners.now ≤ 10000 }
    requires sound { All IsSound groups.old.items }
    ensures sound { OnOk result (All IsSound groups.new.items) }
    ensures attempts { OnOk result (attempts_of groups.new.items ≡ attempts_of groups.old.items ++ flat_map (λ n. moves_of 4 runs.now (n ∷ [])) (filter (is_corner corners.now) (all_nodes (length corners.now)))) }
{
    for n in 0..corners.len() {
        push_corner(alloc, corners, NodeId(n as u32), runs, groups)?;
    }
    Ok(())
}

/// Lists a node with the runs that end at it, if it is a corner.
fn push_corner(
    alloc: Global,
    corners: &Flags,
    n: NodeId,
    runs: &[Chain],
    groups: &mut Vec<Group>,
) -> Result<(), NoMemory>
    requires node { n.0 < length corners.now }
    requires sound { All IsSound groups.old.items }
    ensures sound { OnOk result (All IsSound groups.new.items) }
    ensures attempts { OnOk result (attempts_of groups.new.items ≡ attempts_of groups.old.items ++ (if is_corner corners.now n then moves_of 4 runs.now (n ∷ []) else [])) }
{
    if !corners.is_raised(n.0 as usize) {
        return Ok(());
    }
    let group = group_at(alloc, n, LENGTHS, runs)?;
    groups.push(group)?;
    Ok(())
}

/// Lists each node with the runs that end at it, by vectors of so many lengths.
fn push_nodes(
    alloc: Global,
    nodes: u32,
    lengths: u32,
    runs: &[Chain],
    groups: &mut Vec<Group>,
) -> Result<(), NoMemory>
    requires some { 0 < lengths }
    requires few { lengths ≤ 4 }
    requires sound { All IsSound groups.old.items }
    ensures sound { OnOk result (All IsSound groups.new.items) }
    ensures attempts { OnOk result (attempts_of groups.new.items
        ≡ attempts_of groups.old.items ++ flat_map (λ n. moves_of lengths runs.now (n ∷ [])) (all_nodes nodes)) }
{
    for n in 0..nodes {
        let group = group_at(alloc, NodeId(n), lengths, runs)?;
        groups.push(group)?;
    }
    Ok(())
}

/// A node with the runs that end at it, by vectors of so many lengths.
fn group_at(alloc: Global, n: NodeId, lengths: u32, runs: &[Chain]) -> Result<Group, NoMemory>
    requires some { 0 < lengths }
    requires few { lengths ≤ 4 }
    ensures attempts { IfOk result (λ group. attempts_in group ≡ moves_of lengths runs.now (n ∷ [])) }
    ensures sound { IfOk result IsSound }
{
    let mut nodes = Vec::new(alloc);
    nodes.push(n)?;
    group_of(alloc, nodes, lengths, runs)
}

/// Lists the two ends of each run with the runs that end at either.
fn push_ends(alloc: Global, runs: &[Chain], groups: &mut Vec<Group>) -> Result<(), NoMemory>
    requires apart { All (λ (c : Chain). c.from.0 ≢ (end_of c).0) runs.now }
    requires sound { All IsSound groups.old.items }
    ensures sound { OnOk result (All IsSound groups.new.items) }
    ensures attempts { OnOk result (attempts_of groups.new.items ≡ attempts_of groups.old.items ++ flat_map (λ (c : Chain). moves_of 4 runs.now (c.from ∷ end_of c ∷ [])) runs.now) }
{
    for run in runs {
        let end = run.end();
        let group = group_between(alloc, run.from, end, runs)?;
        groups.push(group)?;
    }
    Ok(())
}

/// Two nodes with the runs that end at either.
fn group_between(
    alloc: Global,
    from: NodeId,
    end: NodeId,
    runs: &[Chain],
) -> Result<Group, NoMemory>
    requires { from.0 ≢ end.0 }
    ensures attempts { IfOk result (λ group. attempts_in group ≡ moves_of 4 runs.now (from ∷ end ∷ [])) }
    ensures sound { IfOk result IsSound }
{
    let mut nodes = Vec::new(alloc);
    nodes.push(from)?;
    nodes.push(end)?;
    group_of(alloc, nodes, LENGTHS, runs)
}

/// Nodes with the runs that end at one of them, by vectors of so many lengths.
fn group_of(
    alloc: Global,
    nodes: Vec<NodeId>,
    lengths: u32,
    runs: &[Chain],
) -> Result<Group, NoMemory>
    requires some { 0 < lengths }
    requires few { lengths ≤ 4 }
    requires apart { AreApart nodes.items }
    ensures attempts { IfOk result (λ group. attempts_in group ≡ moves_of lengths runs.now nodes.items) }
    ensures sound { IfOk result IsSound }
{
    let found = runs_at(alloc, &nodes, runs)?;
    Ok(Group {
        nodes: Sequence::of(nodes),
        lengths,
        runs: Sequence::of(found),
    })
}
