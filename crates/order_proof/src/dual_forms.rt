//! The forms of the lines of dual trees.

ghost use Rattle.std.specs.Prelude.{◌≡◌, ◌^◌, ◌-◌, ◌∷◌, IfOk};
ghost use Rattle.decimal_text.specs.Numbers.{natural_within};
ghost use Rattle.order_proof.specs.declared.line_word.LineWord.TheVariants.{Stop};
ghost use Rattle.order_proof.specs.Forms.{fork_with, dual_in};

use crate::dual_line::DualLine;
use crate::forms::id_of;
use crate::line_word::LineWord;
use crate::price_forms::counted_prices;
use map_base::{LineId, NoMemory, SegId};
use std::alloc::Global;

/// A fork, where there is room for one more.
fn fork_of(room: u32, seg: i64, a: i64, b: i64) -> Option<DualLine>
    ensures { result ≡ fork_with room (natural_within (2 ^ 32 - 1) seg) (natural_within (2 ^ 32 - 1) a) (natural_within (2 ^ 32 - 1) b) }
{
    if room == 0 {
        return None;
    }
    let seg = id_of(seg)?;
    let a = id_of(a)?;
    let b = id_of(b)?;
    Some(DualLine::Fork {
        seg: SegId(seg),
        a: LineId(a),
        b: LineId(b),
    })
}

/// A stop with as many prices as are counted.
fn stop_of(alloc: Global, count: i64, numbers: &[i64]) -> Result<Option<DualLine>, NoMemory>
    ensures { IfOk result (λ node. node ≡ dual_in 0 Stop (count ∷ numbers.now)) }
{
    let prices = counted_prices(alloc, 1_000_000_000_000, count, numbers)?;
    Ok(prices.map(|prices| DualLine::Stop { prices }))
}

/// A fork, where there is room for one more, or a stop.
pub(crate) fn dual_in(
    alloc: Global,
    room: u32,
    word: LineWord,
    numbers: &[i64],
) -> Result<Option<DualLine>, NoMemory>
    ensures { IfOk result (λ node. node ≡ dual_in room word numbers.now) }
{
    match (word, numbers) {
        (LineWord::Fork, [seg, a, b]) => Ok(fork_of(room, *seg, *a, *b)),
        (LineWord::Stop, [count, numbers @ ..]) => stop_of(alloc, *count, numbers),
        _ => Ok(None),
    }
}
