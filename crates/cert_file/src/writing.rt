//! The text of a certificate.

ghost use Rattle.std.specs.Prelude.{◌≡◌, ◌++◌, ◌∷◌, IfOk, OnOk};
ghost use Rattle.decimal_text.specs.Lines.{words_text, numbers_text};
ghost use Rattle.cert_file.specs.Plain.{plain};
ghost use Rattle.cert_file.specs.RunWords.{run_word, run_words};
ghost use Rattle.cert_file.specs.Text.{version_of, version_text, counts_text, pair_numbers, importance_text, start_text, walk_text, walks_text, line_numbers, order_text, orders_text, cost_text, head_text, certificate_text};

use crate::certificate::Certificate;
use crate::run_words::dir_text;
use decimal_text::{end_line, push_natural, push_next_integer, push_next_natural};
use map_base::{LineId, NoMemory, Sequence};
use octi_grid::{GridPoint, Run, Walk};
use order_proof::write_proof;
use std::alloc::Global;

/// The one text of a certificate.
pub fn write_certificate(alloc: Global, certificate: &Certificate) -> Result<Vec<u8>, NoMemory>
    ensures { IfOk result (λ text. text.items ≡ certificate_text (plain certificate.now)) }
{
    let mut text = Vec::new(alloc);
    push_head(&mut text, certificate)?;
    let proof = write_proof(alloc, &certificate.proof)?;
    text.extend_from_slice(proof.as_slice())?;
    Ok(text)
}

/// Appends what stands before the proof.
fn push_head(text: &mut Vec<u8>, certificate: &Certificate) -> Result<(), NoMemory>
    ensures { OnOk result (text.new.items ≡ text.old.items ++ head_text (plain certificate.now)) }
{
    push_version(text, certificate.importance.as_slice())?;
    push_counts(text, certificate.nodes, certificate.segs, certificate.lines)?;
    push_importance(text, certificate.importance.as_slice())?;
    push_walks(text, certificate.walks.as_slice())?;
    push_orders(text, certificate.orders.lists.as_slice())?;
    push_cost(text, certificate.cost)?;
    Ok(())
}

/// Appends the line of the version.
fn push_version(text: &mut Vec<u8>, importance: &[(LineId, u32)]) -> Result<(), NoMemory>
    ensures { OnOk result (text.new.items ≡ text.old.items ++ version_text importance.now) }
{
    text.extend_from_slice(b"octimap")?;
    push_next_natural(text, version_of(importance))?;
    end_line(text)
}

/// The version: 2 where a line has an importance above 1.
fn version_of(importance: &[(LineId, u32)]) -> u64
    ensures { result ≡ version_of importance.now }
{
    match importance {
        [] => 1,
        _ => 2,
    }
}

/// Appends the line of the counts.
fn push_counts(text: &mut Vec<u8>, nodes: u32, segs: u32, lines: u32) -> Result<(), NoMemory>
    ensures { OnOk result (text.new.items ≡ text.old.items ++ counts_text nodes segs lines) }
{
    text.extend_from_slice(b"graph")?;
    push_next_natural(text, u64::from(nodes))?;
    push_next_natural(text, u64::from(segs))?;
    push_next_natural(text, u64::from(lines))?;
    end_line(text)
}

/// Appends the line of importance, where a line has one above 1.
fn push_importance(text: &mut Vec<u8>, importance: &[(LineId, u32)]) -> Result<(), NoMemory>
    ensures { OnOk result (text.new.items ≡ text.old.items ++ importance_text importance.now) }
{
    match importance {
        [] => Ok(()),
        _ => {
            text.extend_from_slice(b"importance")?;
            push_pairs(text, importance)
        }
    }
}

/// Appends lines, each with its importance, and the end of the line.
fn push_pairs(text: &mut Vec<u8>, pairs: &[(LineId, u32)]) -> Result<(), NoMemory>
    ensures { OnOk result (text.new.items ≡ text.old.items ++ numbers_text (pair_numbers pairs.now)) }
{
    for (line, importance) in pairs {
        push_next_natural(text, u64::from(line.0))?;
        push_next_natural(text, u64::from(*importance))?;
    }
    end_line(text)
}

/// Appends the lines of walks.
fn push_walks(text: &mut Vec<u8>, walks: &[Walk]) -> Result<(), NoMemory>
    ensures { OnOk result (text.new.items ≡ text.old.items ++ walks_text 0 walks.now) }
{
    for s in 0..walks.len() {
        push_walk(text, s, &walks[s])?;
    }
    Ok(())
}

/// Appends the line of the walk of segment s.
fn push_walk(text: &mut Vec<u8>, s: usize, walk: &Walk) -> Result<(), NoMemory>
    ensures { OnOk result (text.new.items ≡ text.old.items ++ walk_text s walk.now) }
{
    text.extend_from_slice(b"walk")?;
    push_next_natural(text, s as u64)?;
    push_start(text, walk.start())?;
    push_runs(text, walk.runs())?;
    Ok(())
}

/// Appends the start of a walk.
fn push_start(text: &mut Vec<u8>, start: GridPoint) -> Result<(), NoMemory>
    ensures { OnOk result (text.new.items ≡ text.old.items ++ start_text start) }
{
    push_next_integer(text, i64::from(start.x))?;
    push_next_integer(text, i64::from(start.y))
}

/// Appends runs, and the end of the line.
fn push_runs(text: &mut Vec<u8>, runs: &[Run]) -> Result<(), NoMemory>
    ensures { OnOk result (text.new.items ≡ text.old.items ++ words_text (run_words runs.now)) }
{
    for run in runs {
        push_run(text, *run)?;
    }
    end_line(text)
}

/// Appends a space and a run.
fn push_run(text: &mut Vec<u8>, run: Run) -> Result<(), NoMemory>
    ensures { OnOk result (text.new.items ≡ text.old.items ++ (32 ∷ run_word run)) }
{
    text.push(b' ')?;
    text.extend_from_slice(dir_text(run.dir))?;
    push_natural(text, u64::from(run.count))
}

/// Appends the lines of orders.
fn push_orders(text: &mut Vec<u8>, orders: &[Sequence<LineId>]) -> Result<(), NoMemory>
    ensures { OnOk result (text.new.items ≡ text.old.items ++ orders_text 0 orders.now) }
{
    for s in 0..orders.len() {
        push_order(text, s, orders[s].as_slice())?;
    }
    Ok(())
}

/// Appends the line of the order of segment s.
fn push_order(text: &mut Vec<u8>, s: usize, order: &[LineId]) -> Result<(), NoMemory>
    ensures { OnOk result (text.new.items ≡ text.old.items ++ order_text s order.now) }
{
    text.extend_from_slice(b"order")?;
    push_next_natural(text, s as u64)?;
    push_lines(text, order)
}

/// Appends the numbers of lines, and the end of the line.
fn push_lines(text: &mut Vec<u8>, lines: &[LineId]) -> Result<(), NoMemory>
    ensures { OnOk result (text.new.items ≡ text.old.items ++ numbers_text (line_numbers lines.now)) }
{
    for line in lines {
        push_next_natural(text, u64::from(line.0))?;
    }
    end_line(text)
}

/// Appends the line of the cost.
fn push_cost(text: &mut Vec<u8>, cost: u64) -> Result<(), NoMemory>
    ensures { OnOk result (text.new.items ≡ text.old.items ++ cost_text cost) }
{
    text.extend_from_slice(b"cost")?;
    push_next_natural(text, cost)?;
    end_line(text)
}
