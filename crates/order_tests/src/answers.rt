//! What the crates of line orders answer to a problem, as text.

ghost use Rattle.order_proof.specs.Plain.{plain, plain_part_tree};
ghost use Rattle.order_proof.specs.Trees.{IsPartTree, IsProofTree};

use crate::problems::number_order;
use crate::searching::{only_part, searched};
use map_base::{LineId, SegId, Sequence};
use order_check::{ProofItem, ProofStop, check_proof};
use order_model::Problem;
use order_proof::{Part, PartTree, Proof, read_proof, write_proof};
use order_rules::lift;
use order_search::{Found, SearchFault};
use order_untangle::untangle;
use order_values::{Orders, Rule};
use std::alloc::Global;
use std::fmt::Write;
use std::test::Fail;

/// Adds lines, each behind a blank.
fn put_lines(text: &mut String, lines: &[LineId]) -> Result<(), Fail> {
    for line in lines {
        let number = line.0;
        write!(text, " {number}")?;
    }
    Ok(())
}

/// Adds the orders of segments, each behind a '/'.
fn put_orders(text: &mut String, orders: &[Sequence<LineId>]) -> Result<(), Fail> {
    for order in orders {
        write!(text, "/")?;
        put_lines(text, order.as_slice())?;
    }
    Ok(())
}

/// Adds the text of a proof, on lines of its own.
fn put_proof(alloc: Global, text: &mut String, proof: &Proof) -> Result<(), Fail> {
    let bytes = write_proof(alloc, proof)?;
    let lines = str::from_utf8(bytes.as_slice())?;
    write!(text, "\n{lines}")?;
    Ok(())
}

/// The proof of one part, of these segments, and no rules.
fn proof_of(alloc: Global, segs: Vec<SegId>, target: u64, tree: PartTree) -> Result<Proof, Fail>
    requires { IsPartTree (plain_part_tree tree) }
{
    let part = Part {
        segs: Sequence::of(segs),
        target,
        tree,
    };
    Ok(Proof {
        rules: Sequence::of(Vec::new(alloc)),
        parts: Sequence::of(vec![in alloc; part]?),
    })
}

/// The orders that a search found, its proof, and how many branch nodes it has.
pub(crate) fn found_text(
    alloc: Global,
    segs: Vec<SegId>,
    orders: &Orders,
    target: u64,
    tree: PartTree,
    branches: u32,
) -> Result<String, Fail>
    requires { IsPartTree (plain_part_tree tree) }
{
    let mut text = String::new(alloc);
    put_orders(&mut text, orders.lists.as_slice())?;
    let proof = proof_of(alloc, segs, target, tree)?;
    put_proof(alloc, &mut text, &proof)?;
    write!(text, "branches {branches}\n")?;
    Ok(text)
}

/// The orders that the live search found, its proof, and how many branch nodes it has.
fn live_text(alloc: Global, segs: Vec<SegId>, found: Found) -> Result<String, Fail>
    requires { IsProofTree (plain found.tree) }
{
    let Found {
        orders,
        target,
        branches,
        tree,
    } = found;
    let tree = PartTree::ByCases(tree);
    found_text(alloc, segs, &orders, target, tree, branches)
}

/// Why a search found nothing.
fn fault_text(alloc: Global, fault: SearchFault) -> Result<String, Fail> {
    match fault {
        SearchFault::Spent { branches } => Ok(format!(in alloc; "spent {branches}")?),
        SearchFault::TooDeep(limit) => {
            let (found, most) = (limit.found, limit.most);
            Ok(format!(in alloc; "too deep {found} {most}")?)
        }
        SearchFault::NoMemory => Err(Fail::from("memory")),
    }
}

/// What a search of a problem's one part tells.
fn search_text(alloc: Global, problem: &Problem, budget: u16) -> Result<String, Fail> {
    let part = only_part(alloc, problem)?;
    match searched(alloc, problem, part.as_slice(), budget) {
        Ok(found) => live_text(alloc, part, found),
        Err(fault) => fault_text(alloc, fault),
    }
}

/// What a search of a problem's one part by at most so many branch nodes tells: the orders of the part's segments, the text
/// of its proof, and its branch nodes; or why it ended.
pub(crate) fn searched_text(alloc: Global, problem: Problem, budget: u16) -> Result<String, Fail> {
    search_text(alloc, &problem, budget)
}

/// The rules, and the orders that they leave where the last problem has the number order.
fn rules_text(alloc: Global, rules: Sequence<Rule>, last: &Problem) -> Result<String, Fail> {
    let orders = number_order(alloc, last)?;
    let lifted = lift(alloc, rules.as_slice(), orders)?;
    let mut text = String::new(alloc);
    put_orders(&mut text, lifted.lists.as_slice())?;
    let proof = Proof {
        rules,
        parts: Sequence::of(Vec::new(alloc)),
    };
    put_proof(alloc, &mut text, &proof)?;
    Ok(text)
}

/// The orders that a problem has where what is left of it, once it is untangled, has the number order; then the rules.
pub(crate) fn untangled_text(alloc: Global, problem: Problem) -> Result<String, Fail> {
    let (rules, last) = untangle(alloc, problem)?;
    rules_text(alloc, rules, &last)
}

/// The item that is refused.
fn item_text(alloc: Global, item: &ProofItem) -> Result<String, Fail> {
    let mut text = String::new(alloc);
    match item {
        ProofItem::Rule { index } => {
            write!(text, "rule {index}")?;
        }
        ProofItem::Part { index, after } => {
            write!(text, "part {index} after")?;
            put_lines(&mut text, after.as_slice())?;
        }
        ProofItem::Total => {
            write!(text, "total")?;
        }
    }
    Ok(text)
}

/// What the checker says of a proof of a problem whose lines stand in the number order.
fn checked(alloc: Global, problem: Problem, proof: &Proof) -> Result<(), ProofStop> {
    let orders = number_order(alloc, &problem)?;
    check_proof(alloc, problem, &orders, proof)
}

/// The first item that the checker refuses of the text of a proof of a problem, whose lines stand in the number order; or
/// "best".
pub(crate) fn checked_text(alloc: Global, problem: Problem, text: &[u8]) -> Result<String, Fail> {
    let (proof, _) = read_proof(alloc, text).ok().ok_or("a proof")?;
    match checked(alloc, problem, &proof) {
        Ok(()) => Ok(format!(in alloc; "best")?),
        Err(ProofStop::Refuted(item)) => item_text(alloc, &item),
        Err(ProofStop::NoMemory) => Err(Fail::from("memory")),
    }
}
