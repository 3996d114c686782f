//! The table of what is left behind each set.

ghost use Rattle.std.specs.Prelude.{◌≡◌, ◌≤◌, ◌<◌, ◌+◌, ◌*◌, ◌^◌, ◌+ℤ◌, length, true, unsigned_abs, Some, None, IfSome};
ghost use Rattle.std.specs.Option.{option_map};
ghost use Rattle.least_orders.specs.Rows.{AreRows, line_at, entry, row_lines, row_costs, row_pairs};
ghost use Rattle.least_orders.specs.LeastOrders.{least_cost, least_order};
ghost use Rattle.least_orders.specs.Subsets.{has_place, before_left, rest_cost};
ghost use Rattle.subset_program.specs.PlainRows.{plain_rows, ArePlacesOf};
ghost use Rattle.subset_program.specs.Tables.{Tells, HasTails, HasHeads, IsFirstFree, IsFilledAt};

use crate::entries::{Tail, written};
use crate::place_sets::{has_place, sets_of, with_place};
use crate::rows::PairRows;
use crate::steps::{choose, least_choice, put_heads, sum, tail_at};
use least_orders::Choice;

/// The first place that a set has not, of so many; their number where it has them all.
fn first_free(set: usize, count: usize) -> usize
    requires { count ≤ 16 }
    ensures { IsFirstFree set count result }
{
    for k in 0..count {
        if !has_place(set, k) {
            return k;
        }
    }
    count
}

/// What a line costs where it stands before another.
fn before_at(rows: &PairRows, k: usize, j: usize) -> i64
    requires rows { AreRows (plain_rows rows.now) }
    requires known { k < rows.now.count }
    requires other { j < rows.now.count }
    ensures value { result ≡ entry rows.now.count rows.now.before.now (line_at k) (line_at j) }
    ensures small { unsigned_abs result ≤ 2000000000000000 }
{
    rows.before[k * rows.count + j]
}

/// What the last line of a set costs with those that the set has not.
fn left_at(tails: &[Tail], rows: &PairRows, set: usize, last: usize, free: usize) -> i64
    requires rows { AreRows (plain_rows rows.now) }
    requires room { 2 ^ rows.now.count * rows.now.count ≤ length tails.now }
    requires set { set < 2 ^ rows.now.count }
    requires last { last < rows.now.count }
    requires there { has_place set last ≡ true }
    requires free { IsFirstFree set rows.now.count free }
    requires table { HasTails (plain_rows rows.now) (set + 1) tails.now }
    ensures { result ≡ before_left (plain_rows rows.now) set last }
{
    if free == rows.count {
        return 0;
    }
    let more = with_place(set, free);
    let behind = tail_at(tails, rows, more, last).left;
    sum(before_at(rows, last, free), behind)
}

/// What the orders of the lines that a set has not cost at least behind its last line.
fn rest_at(
    heads: &[Choice],
    many: usize,
    rows: &PairRows,
    set: usize,
    last: usize,
    free: usize,
) -> Option<i64>
    requires rows { AreRows (plain_rows rows.now) }
    requires each { rows.now.count ≤ length heads.now }
    requires set { set < 2 ^ rows.now.count }
    requires last { last < rows.now.count }
    requires free { IsFirstFree set rows.now.count free }
    requires heads { HasHeads (plain_rows rows.now) set 0 many heads.now }
    ensures { result ≡ rest_cost (plain_rows rows.now) set (Some last) }
{
    if free == rows.count {
        return Some(0);
    }
    least_choice(heads, many, rows, set, last)
}

/// What the orders cost at least from the last line of a set on.
fn from_last(rest: Option<i64>, left: i64) -> Option<i64>
    requires rest { IfSome rest (λ v. unsigned_abs v ≤ 600000000000000000) }
    requires left { unsigned_abs left ≤ 32000000000000000 }
    ensures { result ≡ option_map (λ v. v +ℤ left) rest }
{
    match rest {
        None => None,
        Some(v) => Some(sum(v, left)),
    }
}

/// The entry of a set and its last line.
fn tail_of(
    tails: &[Tail],
    heads: &[Choice],
    many: usize,
    rows: &PairRows,
    set: usize,
    last: usize,
    free: usize,
) -> Tail
    requires rows { AreRows (plain_rows rows.now) }
    requires room { 2 ^ rows.now.count * rows.now.count ≤ length tails.now }
    requires each { rows.now.count ≤ length heads.now }
    requires set { set < 2 ^ rows.now.count }
    requires last { last < rows.now.count }
    requires there { has_place set last ≡ true }
    requires free { IsFirstFree set rows.now.count free }
    requires table { HasTails (plain_rows rows.now) (set + 1) tails.now }
    requires heads { HasHeads (plain_rows rows.now) set 0 many heads.now }
    ensures { Tells (plain_rows rows.now) set last result }
{
    let left = left_at(tails, rows, set, last, free);
    let rest = rest_at(heads, many, rows, set, last, free);
    Tail {
        left,
        cost: written(from_last(rest, left)),
    }
}

/// Fills the table. For each set of lines and each of its lines it has what the orders of the others cost at least behind it.
fn fill(tails: &mut [Tail], heads: &mut [Choice], rows: &PairRows)
    requires rows { AreRows (plain_rows rows.now) }
    requires room { 2 ^ rows.now.count * rows.now.count ≤ length tails.old }
    requires each { rows.now.count ≤ length heads.old }
    ensures { HasTails (plain_rows rows.now) 0 tails.new }
{
    for set in (0..sets_of(rows.count)).rev() {
        fill_set(tails, heads, rows, set);
    }
}

/// Fills the entries of one set, where the table has those of all greater sets.
fn fill_set(tails: &mut [Tail], heads: &mut [Choice], rows: &PairRows, set: usize)
    requires rows { AreRows (plain_rows rows.now) }
    requires room { 2 ^ rows.now.count * rows.now.count ≤ length tails.old }
    requires each { rows.now.count ≤ length heads.old }
    requires set { set < 2 ^ rows.now.count }
    requires table { HasTails (plain_rows rows.now) (set + 1) tails.old }
    ensures { HasTails (plain_rows rows.now) set tails.new }
{
    let many = put_heads(heads, tails, rows, set);
    let free = first_free(set, rows.count);
    for last in 0..rows.count {
        fill_at(tails, heads, many, rows, set, last, free);
    }
}

/// Fills the entry of a set and one line, where the set has the line.
fn fill_at(
    tails: &mut [Tail],
    heads: &[Choice],
    many: usize,
    rows: &PairRows,
    set: usize,
    last: usize,
    free: usize,
)
    requires rows { AreRows (plain_rows rows.now) }
    requires room { 2 ^ rows.now.count * rows.now.count ≤ length tails.old }
    requires each { rows.now.count ≤ length heads.now }
    requires set { set < 2 ^ rows.now.count }
    requires last { last < rows.now.count }
    requires free { IsFirstFree set rows.now.count free }
    requires table { HasTails (plain_rows rows.now) (set + 1) tails.old }
    requires heads { HasHeads (plain_rows rows.now) set 0 many heads.now }
    ensures { IsFilledAt (plain_rows rows.now) set last tails.old tails.new }
{
    if has_place(set, last) {
        tails[set * rows.count + last] = tail_of(tails, heads, many, rows, set, last, free);
    }
}

/// What the orders of all lines cost at least.
fn whole_cost(heads: &[Choice], many: usize, rows: &PairRows) -> Option<i64>
    requires rows { AreRows (plain_rows rows.now) }
    requires each { rows.now.count ≤ length heads.now }
    requires heads { HasHeads (plain_rows rows.now) 0 0 many heads.now }
    ensures { result ≡ rest_cost (plain_rows rows.now) 0 None }
{
    if rows.count == 0 {
        return Some(0);
    }
    match choose(heads, many, rows, 0, None) {
        None => None,
        Some(choice) => Some(choice.cost),
    }
}

/// What the least order costs.
pub(crate) fn least_cost(tails: &mut [Tail], heads: &mut [Choice], rows: &PairRows) -> Option<i64>
    requires rows { AreRows (plain_rows rows.now) }
    requires room { 2 ^ rows.now.count * rows.now.count ≤ length tails.old }
    requires each { rows.now.count ≤ length heads.old }
    ensures cost { result ≡ least_cost (row_costs (plain_rows rows.now)) (row_pairs (plain_rows rows.now)) (row_lines (plain_rows rows.now)) }
    ensures table { HasTails (plain_rows rows.now) 0 tails.new }
{
    fill(tails, heads, rows);
    let many = put_heads(heads, tails, rows, 0);
    whole_cost(heads, many, rows)
}

/// The places of the lines of the least order, where there is one.
pub(crate) fn least_order(
    tails: &mut [Tail],
    heads: &mut [Choice],
    rows: &PairRows,
    order: &mut [u32],
) -> Option<i64>
    requires rows { AreRows (plain_rows rows.now) }
    requires room { 2 ^ rows.now.count * rows.now.count ≤ length tails.old }
    requires each { rows.now.count ≤ length heads.old }
    requires places { length order.old ≡ rows.now.count }
    ensures cost { result ≡ least_cost (row_costs (plain_rows rows.now)) (row_pairs (plain_rows rows.now)) (row_lines (plain_rows rows.now)) }
    ensures order { ArePlacesOf (least_order (row_costs (plain_rows rows.now)) (row_pairs (plain_rows rows.now)) (row_lines (plain_rows rows.now))) order.new }
{
    let cost = least_cost(tails, heads, rows)?;
    walk(tails, heads, rows, order);
    Some(cost)
}

/// Goes forward over the table, each time to the best line, the least of equals.
fn walk(tails: &[Tail], heads: &mut [Choice], rows: &PairRows, order: &mut [u32])
    requires rows { AreRows (plain_rows rows.now) }
    requires room { 2 ^ rows.now.count * rows.now.count ≤ length tails.now }
    requires each { rows.now.count ≤ length heads.old }
    requires places { length order.old ≡ rows.now.count }
    requires table { HasTails (plain_rows rows.now) 0 tails.now }
    ensures { ArePlacesOf (least_order (row_costs (plain_rows rows.now)) (row_pairs (plain_rows rows.now)) (row_lines (plain_rows rows.now))) order.new }
{
    let mut set: usize = 0;
    let mut last = None;
    for i in 0..rows.count {
        let many = put_heads(heads, tails, rows, set);
        let Some(choice) = choose(heads, many, rows, set, last) else {
            return;
        };
        order[i] = choice.place as u32;
        set = with_place(set, choice.place);
        last = Some(choice.place);
    }
}
