//! What the value of each key of a settings file gives.

ghost use Rattle.std.specs.Prelude.{◌≡◌, ◌≤◌, ◌⊎◌, IfSome, IfOk, All, ℕ, List, length, map};
ghost use Rattle.toml.specs.View.{view, table_view};
ghost use Rattle.map_base.specs.Settings.{AreLight, AreRisingIds, IsImportance};
ghost use Rattle.map_settings.specs.Faults.{Gives};
ghost use Rattle.map_settings.specs.Tables.{entries};
ghost use Rattle.map_method.specs.Methods.{IsCoarsest, IsFinest, IsSpread};
ghost use Rattle.map_settings.specs.Values.{whole_number, near_of, cell_of, budget_of, types_of, route_types, weights_of, three_weights, importance_of, importances, search_of, search_named, claim_of, claim_named, spread_of, spread_named, coarsest_of, finest_of, straight_of, moves_of, defaults_of, defaults_named};

use crate::fault::EntryFault;
use map_base::{Sequence, Text, Weights};
use map_method::{Claim, Defaults, Search, Spread};
use std::alloc::Global;
use toml::{Table, Value};

/// How many route types there are at most.
const MOST_TYPES: usize = 100;

/// How many lines have an importance at most.
const MOST_IMPORTANCES: usize = 1_000;

/// A whole number from `least` to `most`.
fn whole_number(value: &Value, least: u32, most: u32) -> Option<u32>
    ensures value { result ≡ whole_number least most (view value.now) }
    ensures range { IfSome result (λ n. (least ≤ n) × (n ≤ most)) }
{
    let number = u32::try_from(value.as_integer()?).ok()?;
    if least <= number && number <= most {
        Some(number)
    } else {
        None
    }
}

/// The thinning distance: 20 to 20,000 decimetres.
pub fn near_of(value: &Value) -> Option<u32>
    ensures value { result ≡ near_of (view value.now) }
    ensures range { IfSome result (λ near. (20 ≤ near) × (near ≤ 20000)) }
{
    whole_number(value, 20, 20_000)
}

/// The side of a cell: 10 to 1,000,000 decimetres, or 0.
pub fn cell_of(value: &Value) -> Option<u32>
    ensures value { result ≡ cell_of (view value.now) }
    ensures range { IfSome result (λ cell. (cell ≡ 0) ⊎ ((10 ≤ cell) × (cell ≤ 1000000))) }
{
    match whole_number(value, 0, 1_000_000) {
        Some(cell) if cell == 0 || cell >= 10 => Some(cell),
        _ => None,
    }
}

/// The branch nodes of one part: 1 to 100,000.
pub fn budget_of(value: &Value) -> Option<u32>
    ensures value { result ≡ budget_of (view value.now) }
    ensures range { IfSome result (λ budget. (1 ≤ budget) × (budget ≤ 100000)) }
{
    whole_number(value, 1, 100_000)
}

/// The route types that are drawn: an array of at most 100 whole numbers of 32 bits.
pub fn types_of(alloc: Global, value: &Value) -> Result<Sequence<u32>, EntryFault>
    ensures value { Gives result (types_of (view value.now)) }
    ensures range { IfOk result (λ types. length types ≤ 100) }
{
    match value.as_array() {
        Some(numbers) => route_types(alloc, numbers.as_slice()),
        None => Err(EntryFault::Bad),
    }
}

fn route_types(alloc: Global, numbers: &[Value]) -> Result<Sequence<u32>, EntryFault>
    ensures value { Gives result (route_types (map view numbers.now)) }
    ensures range { IfOk result (λ types. length types ≤ 100) }
{
    if numbers.len() > MOST_TYPES {
        return Err(EntryFault::Bad);
    }
    let mut types = Vec::new(alloc);
    for number in numbers {
        match whole_number(number, 0, u32::MAX) {
            Some(route_type) => types.push(route_type)?,
            None => return Err(EntryFault::Bad),
        }
    }
    Ok(Sequence::of(types))
}

/// The weights of a crossing, a split and a separation, each 0 to 1,000: an array of these three.
pub fn weights_of(value: &Value) -> Option<Weights>
    ensures value { result ≡ weights_of (view value.now) }
    ensures range { IfSome result (λ weights. AreLight weights) }
{
    match value.as_array() {
        Some(numbers) => three_weights(numbers.as_slice()),
        None => None,
    }
}

fn three_weights(numbers: &[Value]) -> Option<Weights>
    ensures value { result ≡ three_weights (map view numbers.now) }
    ensures range { IfSome result (λ weights. AreLight weights) }
{
    match numbers {
        [link, split, sep] => Some(Weights {
            link: whole_number(link, 0, 1_000)?,
            split: whole_number(split, 0, 1_000)?,
            sep: whole_number(sep, 0, 1_000)?,
        }),
        _ => None,
    }
}

/// How much lines count: a table of at most 1,000 entries from a route id to a whole number from 1 to 16.
pub fn importance_of(alloc: Global, value: &Value) -> Result<Sequence<(Text, u32)>, EntryFault>
    ensures value { Gives result (importance_of (view value.now)) }
    ensures ids { IfOk result (λ pairs. AreRisingIds pairs) }
    ensures range { IfOk result (λ pairs. All (λ (p : List ℕ × ℕ). IsImportance p.1) pairs) }
{
    match value.as_table() {
        Some(lines) => importances(alloc, lines),
        None => Err(EntryFault::Bad),
    }
}

fn importances(alloc: Global, lines: &Table) -> Result<Sequence<(Text, u32)>, EntryFault>
    ensures value { Gives result (importances (entries (table_view lines.now))) }
    ensures ids { IfOk result (λ pairs. AreRisingIds pairs) }
    ensures range { IfOk result (λ pairs. All (λ (p : List ℕ × ℕ). IsImportance p.1) pairs) }
{
    if lines.len() > MOST_IMPORTANCES {
        return Err(EntryFault::Bad);
    }
    let mut pairs = Vec::new(alloc);
    for (id, number) in lines.iter() {
        match whole_number(number, 1, 16) {
            Some(importance) => pairs.push((Text::of(alloc, id.as_str())?, importance))?,
            None => return Err(EntryFault::Bad),
        }
    }
    Ok(Sequence::of(pairs))
}

/// The command whose settings hold where keys are missing: "make" or "map".
pub fn defaults_of(value: &Value) -> Option<Defaults>
    ensures { result ≡ defaults_of (view value.now) }
{
    match value.as_str() {
        Some(name) => defaults_named(name),
        None => None,
    }
}

fn defaults_named(name: &str) -> Option<Defaults>
    ensures { result ≡ defaults_named name.now }
{
    match name {
        "make" => Some(Defaults::Make),
        "map" => Some(Defaults::Map),
        _ => None,
    }
}

/// How line orders are searched for: "live" or "dual".
pub fn search_of(value: &Value) -> Option<Search>
    ensures { result ≡ search_of (view value.now) }
{
    match value.as_str() {
        Some(name) => search_named(name),
        None => None,
    }
}

fn search_named(name: &str) -> Option<Search>
    ensures { result ≡ search_named name.now }
{
    match name {
        "live" => Some(Search::Live),
        "dual" => Some(Search::Dual),
        _ => None,
    }
}

/// What is to be proved of line orders: "best" or "bound".
pub fn claim_of(value: &Value) -> Option<Claim>
    ensures { result ≡ claim_of (view value.now) }
{
    match value.as_str() {
        Some(name) => claim_named(name),
        None => None,
    }
}

fn claim_named(name: &str) -> Option<Claim>
    ensures { result ≡ claim_named name.now }
{
    match name {
        "best" => Some(Claim::Best),
        "bound" => Some(Claim::Bound),
        _ => None,
    }
}

/// How far nodes are spread: 0 to 100 percent of the way, or "auto".
pub fn spread_of(value: &Value) -> Option<Spread>
    ensures value { result ≡ spread_of (view value.now) }
    ensures range { IfSome result IsSpread }
{
    match value.as_str() {
        Some(name) => spread_named(name),
        None => Some(Spread::Percent(whole_number(value, 0, 100)?)),
    }
}

fn spread_named(name: &str) -> Option<Spread>
    ensures value { result ≡ spread_named name.now }
    ensures range { IfSome result IsSpread }
{
    match name {
        "auto" => Some(Spread::Auto),
        _ => None,
    }
}

/// How fine the coarsest grid is: 1, 2 or 4.
pub fn coarsest_of(value: &Value) -> Option<u32>
    ensures value { result ≡ coarsest_of (view value.now) }
    ensures range { IfSome result IsCoarsest }
{
    match whole_number(value, 1, 4) {
        Some(coarsest) if coarsest == 1 || coarsest == 2 || coarsest == 4 => Some(coarsest),
        _ => None,
    }
}

/// How fine the finest grid is: 4, 8 or 16.
pub fn finest_of(value: &Value) -> Option<u32>
    ensures value { result ≡ finest_of (view value.now) }
    ensures range { IfSome result IsFinest }
{
    match whole_number(value, 4, 16) {
        Some(finest) if finest == 4 || finest == 8 || finest == 16 => Some(finest),
        _ => None,
    }
}

/// How many attempts may straighten the routes: 0 to 10,000.
pub fn straight_of(value: &Value) -> Option<u32>
    ensures value { result ≡ straight_of (view value.now) }
    ensures range { IfSome result (λ straight. straight ≤ 10000) }
{
    whole_number(value, 0, 10_000)
}

/// How many moves may follow the routes: 0 to 10,000.
pub fn moves_of(value: &Value) -> Option<u32>
    ensures value { result ≡ moves_of (view value.now) }
    ensures range { IfSome result (λ moves. moves ≤ 10000) }
{
    whole_number(value, 0, 10_000)
}
