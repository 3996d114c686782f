//! What an entry of a settings file changes in the settings.

ghost use Rattle.std.specs.Prelude.{◌≡◌, option_map};
ghost use Rattle.toml.specs.View.{view};
ghost use Rattle.map_settings.specs.Faults.{Changes};
ghost use Rattle.map_settings.specs.Entries.{becomes, change_of, is_of_method, method_change, names_defaults, settings_change};
ghost use Rattle.map_settings.specs.Values.{defaults_of};

use crate::fault::EntryFault;
use crate::values::{
    budget_of, cell_of, claim_of, coarsest_of, defaults_of, finest_of, importance_of, moves_of,
    near_of, search_of, spread_of, straight_of, types_of, weights_of,
};
use map_base::Settings;
use map_method::{Defaults, MapSettings, Method};
use std::alloc::Global;
use toml::Value;

/// Changes what the key names to what the value says. After a refusal the settings are not to be used.
pub fn change(
    alloc: Global,
    all: &mut MapSettings,
    key: &str,
    value: &Value,
) -> Result<(), EntryFault>
    ensures { Changes all.old all.new result (change_of (key.now, view value.now)) }
{
    if names_defaults(key) {
        return change_defaults(&mut all.defaults, value);
    }
    if is_of_method(key) {
        return change_method(&mut all.method, key, value);
    }
    change_settings(alloc, &mut all.settings, key, value)
}

/// Whether the key names the command whose settings hold where keys are missing.
fn names_defaults(key: &str) -> bool
    ensures { result ≡ names_defaults key.now }
{
    match key {
        "method" => true,
        _ => false,
    }
}

/// Whether the key says how a map is found, or what is to be proved of it.
fn is_of_method(key: &str) -> bool
    ensures { result ≡ is_of_method key.now }
{
    match key {
        "search" | "proof" | "spread" | "coarsest" | "finest" | "straight" | "moves" => true,
        _ => false,
    }
}

/// Other settings hold where keys are missing.
fn change_defaults(defaults: &mut Defaults, value: &Value) -> Result<(), EntryFault>
    ensures { Changes defaults.old defaults.new result (option_map becomes (defaults_of (view value.now))) }
{
    *defaults = defaults_of(value).ok_or(EntryFault::Bad)?;
    Ok(())
}

fn change_settings(
    alloc: Global,
    settings: &mut Settings,
    key: &str,
    value: &Value,
) -> Result<(), EntryFault>
    ensures { Changes settings.old settings.new result (settings_change (key.now, view value.now)) }
{
    match key {
        "near" => settings.near = near_of(value).ok_or(EntryFault::Bad)?,
        "cell" => settings.cell = cell_of(value).ok_or(EntryFault::Bad)?,
        "budget" => settings.budget = budget_of(value).ok_or(EntryFault::Bad)?,
        "types" => settings.types = types_of(alloc, value)?,
        "junction" => settings.weights[0] = weights_of(value).ok_or(EntryFault::Bad)?,
        "station" => settings.weights[1] = weights_of(value).ok_or(EntryFault::Bad)?,
        "importance" => settings.importance = importance_of(alloc, value)?,
        _ => return Err(EntryFault::Bad),
    }
    Ok(())
}

fn change_method(method: &mut Method, key: &str, value: &Value) -> Result<(), EntryFault>
    ensures { Changes method.old method.new result (method_change (key.now, view value.now)) }
{
    match key {
        "search" => method.search = search_of(value).ok_or(EntryFault::Bad)?,
        "proof" => method.claim = claim_of(value).ok_or(EntryFault::Bad)?,
        "spread" => method.spread = spread_of(value).ok_or(EntryFault::Bad)?,
        "coarsest" => method.coarsest = coarsest_of(value).ok_or(EntryFault::Bad)?,
        "finest" => method.finest = finest_of(value).ok_or(EntryFault::Bad)?,
        "straight" => method.straight = straight_of(value).ok_or(EntryFault::Bad)?,
        "moves" => method.moves = moves_of(value).ok_or(EntryFault::Bad)?,
        _ => return Err(EntryFault::Bad),
    }
    Ok(())
}
