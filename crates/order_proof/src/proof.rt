//! Proofs that no orders cost less than a number.

use crate::part_tree::PartTree;
use map_base::{SegId, Sequence};
use order_values::Rule;
use std::marker::Model;

/// What is proved of one part of a problem.
#[derive(Debug, Drop)]
pub struct Part {
    /// The segments of the part, rising.
    pub segs: Sequence<SegId>,
    /// A cost that no order of the part is below.
    pub target: u64,
    /// Why.
    pub tree: PartTree,
}

/// A proof that no orders cost less than the sum of its targets: rules that make the problem smaller, and a tree for
/// each part that is left. Contracts see it as the record of its fields, its trees as plain ones.
#[derive(Debug, Drop)]
pub struct Proof {
    /// The rules, in the order in which they are applied.
    pub rules: Sequence<Rule>,
    /// The parts of the problem after the rules, in order.
    pub parts: Sequence<Part>,
}

impl Model for Proof {
    ghost use Rattle.std.specs.Coded.{codes};
    ghost use Rattle.order_proof.specs.contracts.part_tree.PartTree as part_tree;
    ghost use Rattle.order_proof.specs.Plain.{ProofFields, plain_proof};
    ghost use Rattle.order_proof.specs.Trees.{HasTrees};

    ghost Value = { ProofFields };

    ghost coded = { Prim.hlevel (codes, part_tree.the_row.coded) };

    ghost view = { λ p. record { rules = p.rules; parts = p.parts } };

    ghost invariant = { λ p. HasTrees (plain_proof (record { rules = p.rules; parts = p.parts })) };
}
