//! One row of amounts, an entry for each two lines of a segment.

ghost use Rattle.std.specs.Prelude.{◌≡◌, ◌+◌, ◌*◌, ◌^◌, ◌<◌, ◌≤◌, ◌+ℤ◌, ◌-ℤ◌, ℕ, pos, length, true, unsigned_abs};
ghost use Rattle.order_model.specs.Places.{has_line, place_of};
ghost use Rattle.dual_shares.specs.RowSteps.{row_entry, IsAddedAt};

use map_base::LineId;

/// Where a line stands among these.
pub fn place_of(lines: &[LineId], a: LineId) -> usize
    requires { has_line lines.now a ≡ true }
    ensures place { result ≡ place_of lines.now a }
    ensures known { result < length lines.now }
{
    for (place, line) in lines.iter().enumerate() {
        if line.0 == a.0 {
            return place;
        }
    }
    unreachable!()
}

/// The entries of so many lines are 0.
pub(crate) fn clear(row: &mut [i64], count: usize)
    requires few { count ≤ 16 }
    requires room { length row.old ≡ 256 }
    ensures { (k : ℕ) → k < count * count → row_entry row.new k ≡ pos 0 }
{
    for k in 0..count * count {
        row[k] = 0;
    }
}

/// Adds an amount to the entry of two places among so many.
pub(crate) fn add(row: &mut [i64], count: usize, i: usize, j: usize, amount: i64)
    requires few { count ≤ 16 }
    requires room { length row.old ≡ 256 }
    requires first { i < count }
    requires second { j < count }
    requires amount { unsigned_abs amount ≤ 256000000 }
    requires small { unsigned_abs (row_entry row.old (i * count + j)) ≤ 2 ^ 60 }
    ensures { IsAddedAt (i * count + j) amount row.old row.new }
{
    let k = i * count + j;
    row[k] = sum(row[k], amount);
}

/// The sum of two amounts.
fn sum(a: i64, b: i64) -> i64
    requires a_within { unsigned_abs a ≤ 2 ^ 60 }
    requires b_within { unsigned_abs b ≤ 2 ^ 60 }
    ensures { result ≡ a +ℤ b }
{
    a + b
}

/// The opposite amount.
pub(crate) fn opposite(a: i64) -> i64
    requires { unsigned_abs a ≤ 256000000 }
    ensures value { result ≡ pos 0 -ℤ a }
    ensures small { unsigned_abs result ≤ 256000000 }
{
    0 - a
}
