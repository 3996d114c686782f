//! The text of a proof.

ghost use Rattle.std.specs.Prelude.{◌≡◌, List, [], ◌∷◌, ◌++◌, length, map, IfOk, OnOk, pos};
ghost use Rattle.decimal_text.specs.Lines.{numbers_text};
ghost use Rattle.order_values.specs.DualTrees.{plain_dual};
ghost use Rattle.order_proof.specs.Plain.{plain, plain_part_tree, plain_part, plain_children, plain_proof};
ghost use Rattle.order_proof.specs.Lines.{word_text, line_text, segment_numbers, line_numbers, price_numbers, rules_line, rule_line, parts_line, part_line, split_line, take_line, close_line, prices_line, fork_line, stop_line};
ghost use Rattle.order_proof.specs.Text.{tree_text, cases_text, dual_text, part_tree_text, rules_text, part_text, parts_text, proof_text};

use crate::line_word::LineWord;
use crate::part_tree::PartTree;
use crate::proof::{Part, Proof};
use crate::tree::Tree;
use decimal_text::{end_line, push_next_integer, push_next_natural};
use map_base::{LineId, NoMemory, SegId};
use order_values::{DualTree, Rule};
use std::alloc::Global;

/// The one text of a proof.
pub fn write_proof(alloc: Global, proof: &Proof) -> Result<Vec<u8>, NoMemory>
    ensures { IfOk result (λ text. text.items ≡ proof_text (plain_proof proof.now)) }
{
    let rules = proof.rules.as_slice();
    let parts = proof.parts.as_slice();
    let mut out = Vec::new(alloc);
    put_count(&mut out, LineWord::Rules, rules.len())?;
    put_rules(&mut out, rules)?;
    put_count(&mut out, LineWord::Parts, parts.len())?;
    put_parts(&mut out, parts)?;
    Ok(out)
}

/// Appends a word.
fn put_word(out: &mut Vec<u8>, word: LineWord) -> Result<(), NoMemory>
    ensures { OnOk result (out.new.items ≡ out.old.items ++ word_text word) }
{
    out.extend_from_slice(word.text())?;
    Ok(())
}

/// Appends a line that counts what follows.
fn put_count(out: &mut Vec<u8>, word: LineWord, count: usize) -> Result<(), NoMemory>
    ensures { OnOk result (out.new.items ≡ out.old.items ++ line_text (record { word = word; numbers = pos count ∷ [] })) }
{
    put_word(out, word)?;
    push_next_natural(out, count as u64)?;
    end_line(out)
}

/// Appends the numbers of lines, and the end of the line.
fn put_lines(out: &mut Vec<u8>, lines: &[LineId]) -> Result<(), NoMemory>
    ensures { OnOk result (out.new.items ≡ out.old.items ++ numbers_text (line_numbers lines.now)) }
{
    for line in lines {
        push_next_natural(out, u64::from(line.0))?;
    }
    end_line(out)
}

/// Appends the numbers of segments, and the end of the line.
fn put_segments(out: &mut Vec<u8>, segs: &[SegId]) -> Result<(), NoMemory>
    ensures { OnOk result (out.new.items ≡ out.old.items ++ numbers_text (segment_numbers segs.now)) }
{
    for seg in segs {
        push_next_natural(out, u64::from(seg.0))?;
    }
    end_line(out)
}

/// Appends terms with their prices, and the end of the line.
fn put_prices(out: &mut Vec<u8>, prices: &[(u32, i64)]) -> Result<(), NoMemory>
    ensures { OnOk result (out.new.items ≡ out.old.items ++ numbers_text (price_numbers prices.now)) }
{
    for (term, price) in prices {
        push_next_natural(out, u64::from(*term))?;
        push_next_integer(out, *price)?;
    }
    end_line(out)
}

/// Appends the line of a rule.
fn put_rule(out: &mut Vec<u8>, rule: &Rule) -> Result<(), NoMemory>
    ensures { OnOk result (out.new.items ≡ out.old.items ++ line_text (rule_line rule.now)) }
{
    match rule {
        Rule::Merge { into, from, flip } => {
            put_word(out, LineWord::Merge)?;
            push_next_natural(out, u64::from(into.0))?;
            push_next_natural(out, u64::from(from.0))?;
            push_next_natural(out, u64::from(*flip))?;
            end_line(out)
        }
        Rule::Divide { seg, first } => {
            put_word(out, LineWord::Divide)?;
            push_next_natural(out, u64::from(seg.0))?;
            put_lines(out, first.as_slice())
        }
    }
}

/// Appends the lines of rules.
fn put_rules(out: &mut Vec<u8>, rules: &[Rule]) -> Result<(), NoMemory>
    ensures { OnOk result (out.new.items ≡ out.old.items ++ rules_text rules.now) }
{
    for rule in rules {
        put_rule(out, rule)?;
    }
    Ok(())
}

/// Appends the line of a split.
fn put_split(out: &mut Vec<u8>, seg: SegId, count: usize) -> Result<(), NoMemory>
    ensures { OnOk result (out.new.items ≡ out.old.items ++ line_text (split_line seg count)) }
{
    put_word(out, LineWord::Split)?;
    push_next_natural(out, u64::from(seg.0))?;
    push_next_natural(out, count as u64)?;
    end_line(out)
}

/// Appends the line of a case.
fn put_take(out: &mut Vec<u8>, line: LineId) -> Result<(), NoMemory>
    ensures { OnOk result (out.new.items ≡ out.old.items ++ line_text (take_line line)) }
{
    put_word(out, LineWord::Take)?;
    push_next_natural(out, u64::from(line.0))?;
    end_line(out)
}

/// Appends a line of prices behind their count.
fn put_counted(out: &mut Vec<u8>, word: LineWord, prices: &[(u32, i64)]) -> Result<(), NoMemory>
    ensures { OnOk result (out.new.items ≡ out.old.items ++ line_text (prices_line word prices.now)) }
{
    put_word(out, word)?;
    push_next_natural(out, prices.len() as u64)?;
    put_prices(out, prices)
}

/// Appends the line of a fork.
fn put_fork(out: &mut Vec<u8>, seg: SegId, a: LineId, b: LineId) -> Result<(), NoMemory>
    ensures { OnOk result (out.new.items ≡ out.old.items ++ line_text (fork_line seg a b)) }
{
    put_word(out, LineWord::Fork)?;
    push_next_natural(out, u64::from(seg.0))?;
    push_next_natural(out, u64::from(a.0))?;
    push_next_natural(out, u64::from(b.0))?;
    end_line(out)
}

/// Appends the lines of a tree.
fn put_tree(out: &mut Vec<u8>, tree: &Tree) -> Result<(), NoMemory>
    ensures { OnOk result (out.new.items ≡ out.old.items ++ tree_text (plain tree.now)) }
{
    match tree {
        Tree::Close { prices } => put_counted(out, LineWord::Close, prices.as_slice()),
        Tree::Split { seg, children } => {
            put_split(out, *seg, children.len())?;
            for (line, child) in children {
                put_take(out, *line)?;
                put_tree(out, child)?;
            }
            Ok(())
        }
    }
}

/// Appends the lines of a dual tree.
fn put_dual(out: &mut Vec<u8>, tree: &DualTree) -> Result<(), NoMemory>
    ensures { OnOk result (out.new.items ≡ out.old.items ++ dual_text (plain_dual tree.now)) }
{
    match tree {
        DualTree::Stop { prices } => put_counted(out, LineWord::Stop, prices.as_slice()),
        DualTree::Fork {
            seg,
            a,
            b,
            first,
            second,
        } => {
            put_fork(out, *seg, *a, *b)?;
            put_dual(out, first)?;
            put_dual(out, second)
        }
    }
}

/// Appends the lines of a part's tree.
fn put_part_tree(out: &mut Vec<u8>, tree: &PartTree) -> Result<(), NoMemory>
    ensures { OnOk result (out.new.items ≡ out.old.items ++ part_tree_text (plain_part_tree tree.now)) }
{
    match tree {
        PartTree::ByCases(tree) => put_tree(out, tree),
        PartTree::ByPairs(tree) => put_dual(out, tree),
    }
}

/// Appends the lines of a part.
fn put_part(out: &mut Vec<u8>, part: &Part) -> Result<(), NoMemory>
    ensures { OnOk result (out.new.items ≡ out.old.items ++ part_text (plain_part part.now)) }
{
    put_word(out, LineWord::Part)?;
    push_next_natural(out, part.target)?;
    put_segments(out, part.segs.as_slice())?;
    put_part_tree(out, &part.tree)
}

/// Appends the lines of parts.
fn put_parts(out: &mut Vec<u8>, parts: &[Part]) -> Result<(), NoMemory>
    ensures { OnOk result (out.new.items ≡ out.old.items ++ parts_text (map plain_part parts.now)) }
{
    for part in parts {
        put_part(out, part)?;
    }
    Ok(())
}
