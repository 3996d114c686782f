//! The segments of a network, found by the edges over which they leave their nodes.

ghost use Rattle.std.specs.Prelude.{◌≡◌, ℕ, ◌<◌, ◌^◌, length, slice_index, vec_len, get_or, Some, IfOk, OnOk, if◌then◌else◌};
ghost use Rattle.std.specs.HashMap.{get};
ghost use Rattle.way_network.specs.Segments.{leaves};
ghost use Rattle.way_network.specs.Numbers.{is_edge, lower_edge_of, upper_edge_of, number_to, AreNumbered};

use map_base::{NoMemory, SegId, Sequence};
use std::alloc::Global;
use std::collections::HashMap;
use std::marker::Model;

/// An edge, from one point to another.
type Edge = (u32, u32);

/// The chains that are the segments, seen as their list. It finds a segment by a node and the edge over which the
/// segment leaves it.
#[derive(Drop)]
pub struct Segments {
    chains: Vec<Sequence<u32>>,
    numbers: HashMap<Edge, u32>,
}

impl Model for Segments {
    ghost use Rattle.std.specs.Prelude.{ℕ, List};

    ghost Value = { List (List ℕ) };

    ghost use Rattle.way_network.specs.Numbers.{AreSegments};

    ghost view = { λ s. s.chains.items };

    ghost invariant = { λ s. AreSegments s.chains.items s.numbers };
}

impl Segments {
    ghost use Rattle.way_network.specs.Numbers.{number_to};

    /// The segments of these chains, numbered in order.
    pub fn of(alloc: Global, chains: Vec<Sequence<u32>>) -> Result<Segments, NoMemory>
        requires { length chains.items < 2 ^ 32 }
        ensures { IfOk result (λ segments. segments ≡ chains.items) }
    {
        let numbers = numbers_of(alloc, &chains)?;
        Ok(Segments { chains, numbers })
    }

    /// The chain of each segment.
    pub fn chains(&self) -> &[Sequence<u32>]
        ensures { result.now ≡ self.now }
    {
        self.chains.as_slice()
    }

    /// The chain of each segment, without the numbers.
    pub fn into_chains(self) -> Sequence<Sequence<u32>>
        ensures { result ≡ self }
    {
        Sequence::of(self.chains)
    }

    /// The number of the segment that leaves a node over the edge to a neighbour, or 0 where there is none.
    pub fn leaving(&self, node: u32, neighbour: u32) -> SegId
        ensures { result ≡ number_to self.now node neighbour }
    {
        match self.numbers.get(&(node, neighbour)) {
            None => SegId(0),
            Some(number) => SegId(*number),
        }
    }
}

/// The number of the first chain that leaves a point over an edge, for all edges over which chains leave points.
fn numbers_of(alloc: Global, chains: &[Sequence<u32>]) -> Result<HashMap<Edge, u32>, NoMemory>
    requires { length chains.now < 2 ^ 32 }
    ensures { IfOk result (AreNumbered chains.now 0) }
{
    let mut numbers = HashMap::new(alloc);
    for number in (0..chains.len()).rev() {
        put_number(&mut numbers, chains[number].as_slice(), number as u32)?;
    }
    Ok(numbers)
}

/// Puts the number of a chain to both edges over which it leaves its ends.
fn put_number(numbers: &mut HashMap<Edge, u32>, chain: &[u32], number: u32) -> Result<(), NoMemory>
    ensures { OnOk result ((edge : ℕ × ℕ) → get is_edge numbers.new edge ≡ (if leaves edge.0 edge.1 chain.now then Some number else get is_edge numbers.old edge)) }
{
    numbers.insert(lower_edge(chain), number)?;
    numbers.insert(upper_edge(chain), number)?;
    Ok(())
}

/// The edge over which a chain leaves its lower end.
fn lower_edge(chain: &[u32]) -> Edge
    ensures { result ≡ lower_edge_of chain.now }
{
    match chain.len() {
        0 => (0, 0),
        1 => (chain[0], chain[0]),
        _ => (chain[0], chain[1]),
    }
}

/// The edge over which a chain leaves its upper end.
fn upper_edge(chain: &[u32]) -> Edge
    ensures { result ≡ upper_edge_of chain.now }
{
    match chain.len() {
        0 => (0, 0),
        1 => (chain[0], chain[0]),
        count => (chain[count - 1], chain[count - 2]),
    }
}
