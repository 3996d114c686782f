//! One step of the program: the lines to go on with behind a set, and the best of them behind its last line.

ghost use Rattle.std.specs.Prelude.{◌≡◌, ◌≤◌, ◌<◌, ◌+◌, ◌*◌, ◌^◌, ◌+ℤ◌, length, unsigned_abs, true, Some, IfSome, int_lt, if◌then◌else◌};
ghost use Rattle.std.specs.Option.{option_map};
ghost use Rattle.least_orders.specs.declared.choice.Choice.{Choice};
ghost use Rattle.least_orders.specs.Rows.{AreRows};
ghost use Rattle.least_orders.specs.Subsets.{has_place, is_ready, first_cost, beside_last, choice_of, better_choice, choice};
ghost use Rattle.subset_program.specs.PlainRows.{plain_rows};
ghost use Rattle.subset_program.specs.Tables.{Tells, HasTails, HasHeads};

use crate::entries::{NOTHING, Tail, read};
use crate::place_sets::{has_place, with_place};
use crate::rows::PairRows;
use least_orders::Choice;

/// Whether a set has all lines that have to stand before this one.
fn is_ready(rows: &PairRows, set: usize, k: usize) -> bool
    requires rows { AreRows (plain_rows rows.now) }
    requires known { k < rows.now.count }
    ensures { result ≡ is_ready (plain_rows rows.now) set k }
{
    let needed = rows.ahead[k] as usize;
    needed & set == needed
}

/// The entry of a set and one of its lines.
pub(crate) fn tail_at(tails: &[Tail], rows: &PairRows, set: usize, last: usize) -> Tail
    requires rows { AreRows (plain_rows rows.now) }
    requires room { 2 ^ rows.now.count * rows.now.count ≤ length tails.now }
    requires set { set < 2 ^ rows.now.count }
    requires last { last < rows.now.count }
    requires there { has_place set last ≡ true }
    requires table { HasTails (plain_rows rows.now) set tails.now }
    ensures { Tells (plain_rows rows.now) set last result }
{
    tails[set * rows.count + last]
}

/// What the orders behind a set that go on with a line cost at least, but for what it costs beside the last line of the set.
fn first_cost(tails: &[Tail], rows: &PairRows, set: usize, k: usize) -> Option<i64>
    requires rows { AreRows (plain_rows rows.now) }
    requires room { 2 ^ rows.now.count * rows.now.count ≤ length tails.now }
    requires set { set < 2 ^ rows.now.count }
    requires known { k < rows.now.count }
    requires table { HasTails (plain_rows rows.now) (set + 1) tails.now }
    ensures { result ≡ first_cost (plain_rows rows.now) set k }
{
    if has_place(set, k) {
        return None;
    }
    if !is_ready(rows, set, k) {
        return None;
    }
    let more = with_place(set, k);
    read(tail_at(tails, rows, more, k).cost)
}

/// Puts a line behind so many heads where orders go on with it. How many there are then.
fn put_head(
    heads: &mut [Choice],
    many: usize,
    tails: &[Tail],
    rows: &PairRows,
    set: usize,
    k: usize,
) -> usize
    requires rows { AreRows (plain_rows rows.now) }
    requires room { 2 ^ rows.now.count * rows.now.count ≤ length tails.now }
    requires each { rows.now.count ≤ length heads.old }
    requires set { set < 2 ^ rows.now.count }
    requires known { k < rows.now.count }
    requires table { HasTails (plain_rows rows.now) (set + 1) tails.now }
    requires heads { HasHeads (plain_rows rows.now) set (k + 1) many heads.old }
    ensures { HasHeads (plain_rows rows.now) set k result heads.new }
{
    match first_cost(tails, rows, set, k) {
        None => many,
        Some(cost) => {
            heads[many] = Choice { place: k, cost };
            many + 1
        }
    }
}

/// The heads behind a set: the lines that orders go on with, each with what they cost at least. How many there are.
pub(crate) fn put_heads(heads: &mut [Choice], tails: &[Tail], rows: &PairRows, set: usize) -> usize
    requires rows { AreRows (plain_rows rows.now) }
    requires room { 2 ^ rows.now.count * rows.now.count ≤ length tails.now }
    requires each { rows.now.count ≤ length heads.old }
    requires set { set < 2 ^ rows.now.count }
    requires table { HasTails (plain_rows rows.now) (set + 1) tails.now }
    ensures { HasHeads (plain_rows rows.now) set 0 result heads.new }
{
    let mut many = 0;
    for k in (0..rows.count).rev() {
        many = put_head(heads, many, tails, rows, set, k);
    }
    many
}

/// What a line costs beside the last one of a set, if there is one.
fn beside_last(rows: &PairRows, last: Option<usize>, k: usize) -> i64
    requires rows { AreRows (plain_rows rows.now) }
    requires known { k < rows.now.count }
    requires last { IfSome last (λ l. l < rows.now.count) }
    ensures value { result ≡ beside_last (plain_rows rows.now) last k }
    ensures small { unsigned_abs result ≤ 2000000000000000 }
{
    match last {
        None => 0,
        Some(l) => rows.beside[l * rows.count + k],
    }
}

/// A head with what its line costs beside the last one.
fn behind(rows: &PairRows, last: Option<usize>, head: Choice) -> Choice
    requires rows { AreRows (plain_rows rows.now) }
    requires known { head.place < rows.now.count }
    requires last { IfSome last (λ l. l < rows.now.count) }
    requires small { unsigned_abs head.cost ≤ 600000000000000000 }
    ensures value { Some result ≡ choice_of (plain_rows rows.now) last head.place (Some head.cost) }
    ensures small { unsigned_abs result.cost ≤ 700000000000000000 }
{
    Choice {
        place: head.place,
        cost: sum(head.cost, beside_last(rows, last, head.place)),
    }
}

/// The better of two choices, of equals the first.
fn better_choice(one: Option<Choice>, other: Option<Choice>) -> Option<Choice>
    ensures { result ≡ better_choice one other }
{
    match (one, other) {
        (None, other) => other,
        (Some(x), None) => Some(x),
        (Some(x), Some(y)) => Some(if y.cost < x.cost { y } else { x }),
    }
}

/// The best line to go on with behind a set and its last line.
pub(crate) fn choose(
    heads: &[Choice],
    many: usize,
    rows: &PairRows,
    set: usize,
    last: Option<usize>,
) -> Option<Choice>
    requires rows { AreRows (plain_rows rows.now) }
    requires each { rows.now.count ≤ length heads.now }
    requires last { IfSome last (λ l. l < rows.now.count) }
    requires heads { HasHeads (plain_rows rows.now) set 0 many heads.now }
    ensures { result ≡ choice (plain_rows rows.now) set last }
{
    let mut best = None;
    for i in 0..many {
        best = better_choice(Some(behind(rows, last, heads[i])), best);
    }
    best
}

/// The lesser of two numbers.
fn lesser(a: i64, b: i64) -> i64
    ensures { result ≡ (if int_lt b a then b else a) }
{
    if b < a { b } else { a }
}

/// What the best line to go on with costs there.
pub(crate) fn least_choice(
    heads: &[Choice],
    many: usize,
    rows: &PairRows,
    set: usize,
    last: usize,
) -> Option<i64>
    requires rows { AreRows (plain_rows rows.now) }
    requires each { rows.now.count ≤ length heads.now }
    requires last { last < rows.now.count }
    requires heads { HasHeads (plain_rows rows.now) set 0 many heads.now }
    ensures { result ≡ option_map (λ (c : Choice). c.cost) (choice (plain_rows rows.now) set (Some last)) }
{
    let mut least = NOTHING;
    for i in 0..many {
        least = lesser(behind(rows, Some(last), heads[i]).cost, least);
    }
    read(least)
}

/// The sum of two numbers.
pub(crate) fn sum(a: i64, b: i64) -> i64
    requires a_within { unsigned_abs a ≤ 1000000000000000000 }
    requires b_within { unsigned_abs b ≤ 1000000000000000000 }
    ensures { result ≡ a +ℤ b }
{
    a + b
}
