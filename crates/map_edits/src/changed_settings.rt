//! What edits make of the settings.

ghost use Rattle.std.specs.Prelude.{◌≡◌, ◌<◌, ◌≤◌, ℕ, IfOk, OnOk, All, List, [], vec_len, slice_set, slice_index_or};
ghost use Rattle.std.specs.Ordering.{nat_cmp};
ghost use Rattle.std.specs.Cmp.Lexicographic.{slice_cmp};
ghost use Rattle.map_base.specs.Settings.{AreInRange, AreRisingIds};
ghost use Rattle.map_edits.specs.Effects.{with_pair, choices_by, choices_after, IsInRange};
ghost use Rattle.map_edits.specs.Pairs.{IsPairPlace};

use crate::copies::pair_copies;
use crate::edit::Edit;
use map_base::{NoMemory, Sequence, Settings, Text};
use std::alloc::Global;
use std::cmp::Ordering;

/// How the id of a pair lies to another.
fn pair_order(pair: &(Text, u32), id: &str) -> Ordering
    ensures { result ≡ slice_cmp nat_cmp pair.now.0 id.now }
{
    pair.0.as_str().cmp(id)
}

/// Where an id stands among pairs by rising ids, or else where it goes.
fn place_of_pair(pairs: &[(Text, u32)], id: &str) -> Result<usize, usize>
    requires { AreRisingIds pairs.now }
    ensures { IsPairPlace pairs.now id.now result }
{
    pairs.binary_search_by(|pair| pair_order(pair, id))
}

fn set_number(pairs: &mut Vec<(Text, u32)>, place: usize, number: u32)
    requires { place < vec_len pairs.old }
    ensures { (d : List ℕ × ℕ) → pairs.new.items ≡ slice_set pairs.old.items place ((slice_index_or pairs.old.items place d).0, number) }
{
    pairs[place].1 = number;
}

/// Puts a pair in its place among pairs by rising ids, where it replaces that of the same id.
fn put_pair(pairs: &mut Vec<(Text, u32)>, id: Text, number: u32) -> Result<(), NoMemory>
    requires { AreRisingIds pairs.old.items }
    ensures { OnOk result (pairs.new.items ≡ with_pair id number pairs.old.items) }
{
    match place_of_pair(pairs.as_slice(), id.as_str()) {
        Ok(place) => {
            set_number(pairs, place, number);
            Ok(())
        }
        Err(place) => {
            pairs.insert(place, (id, number))?;
            Ok(())
        }
    }
}

/// Does an edit to the settings, whose pairs of a line and its importance stand beside them.
#[tactic(auto, using(crate::proofs::RangeLemmas::in_range_by))]
fn change_settings(
    alloc: Global,
    settings: &mut Settings,
    importance: &mut Vec<(Text, u32)>,
    edit: &Edit,
) -> Result<(), NoMemory>
    requires range { IsInRange edit.now }
    requires ids { AreRisingIds importance.old.items }
    ensures { OnOk result (record settings.new { importance = importance.new.items } ≡ choices_by edit.now (record settings.old { importance = importance.old.items })) }
{
    match edit {
        Edit::Weight { station, weights } => {
            settings.weights[if *station { 1 } else { 0 }] = *weights;
        }
        Edit::Near { near } => settings.near = *near,
        Edit::Cell { cell } => settings.cell = *cell,
        Edit::Budget { budget } => settings.budget = *budget,
        Edit::Importance {
            line,
            importance: number,
        } => {
            put_pair(importance, Text::of(alloc, line.as_str())?, *number)?;
        }
        Edit::Hide { .. } => {}
        Edit::Show { .. } => {}
        Edit::Rename { .. } => {}
        Edit::Move { .. } => {}
        Edit::Colour { .. } => {}
        Edit::Undo => {}
    }
    Ok(())
}

/// Settings like these, without any pair of a line and its importance.
fn plain_copy(alloc: Global, settings: &Settings) -> Result<Settings, NoMemory>
    ensures { IfOk result (λ copy. copy ≡ record settings.now { importance = [] }) }
{
    Ok(Settings {
        near: settings.near,
        cell: settings.cell,
        budget: settings.budget,
        types: Sequence::of(Vec::from_slice(alloc, settings.types.as_slice())?),
        weights: settings.weights,
        importance: Sequence::of(Vec::new(alloc)),
    })
}

/// The settings with these pairs of a line and its importance.
fn with_importance(settings: Settings, importance: Vec<(Text, u32)>) -> Settings
    requires { AreInRange (record settings { importance = importance.items }) }
    ensures { result ≡ record settings { importance = importance.items } }
{
    let mut settings = settings;
    settings.importance = Sequence::of(importance);
    settings
}

/// The settings, once edits stand, in their order.
pub(crate) fn changed_settings(
    alloc: Global,
    settings: &Settings,
    edits: &[Edit],
) -> Result<Settings, NoMemory>
    requires { All IsInRange edits.now }
    ensures { IfOk result (λ changed. changed ≡ choices_after edits.now settings.now) }
{
    let mut changed = plain_copy(alloc, settings)?;
    let mut importance = pair_copies(alloc, settings.importance.as_slice())?;
    for edit in edits {
        change_settings(alloc, &mut changed, &mut importance, edit)?;
    }
    Ok(with_importance(changed, importance))
}
