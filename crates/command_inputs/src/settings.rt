//! The settings of a command.

ghost use Rattle.std.specs.Prelude.{◌≡◌, ◌≤◌, ◌∷◌, Ok, option_map};
ghost use Rattle.files_door.specs.Fault.{Rose};
ghost use Rattle.map_method.specs.Defaults.{default_choices};
ghost use Rattle.command_inputs.specs.Inputs.{input_at, inputs_by};
ghost use Rattle.command_inputs.specs.Loading.{settings_by, settings_file_work, settings_given, settings_in};
ghost use Rattle.command_paths.specs.Sets.{sets_of};
ghost use Rattle.map_settings.specs.Faults.{Reads};
ghost use Rattle.map_settings.specs.Outcome.{set_outcome, sets_outcome, texts_outcome};
ghost use Rattle.run_status.specs.Following.{Follows, Gives};

use crate::input_file::read_file;
use crate::inputs::Inputs;
use command_paths::{Options, next_set};
use files_door::Files;
use map_method::{Defaults, MapSettings};
use map_settings::{SettingsFault, SettingsWhy, set_settings, settings_over};
use run_status::{Input, Refusal};
use std::alloc::Global;

/// The settings of a command, and how it finds a map: by the file that the user names, or where that says nothing, or
/// there is none, those that hold then.
pub fn settings_for<F: Files>(
    alloc: Global,
    inputs: &Inputs<'_>,
    files: &mut F,
) -> Result<MapSettings, Refusal>
    ensures follows { Follows (F.told files.old) (input_at (inputs_by inputs.now))
        (Rose (F.faults files.old) (F.faults files.new)) (λ settings. settings)
        (settings_by (inputs_by inputs.now).chosen.defaults (inputs_by inputs.now).chosen.sets (inputs_by inputs.now).chosen.settings) result }
    ensures kept { F.told files.new ≡ F.told files.old }
    ensures later { F.faults files.old ≤ F.faults files.new }
{
    match inputs.options.settings {
        Some(_) => settings_file(alloc, inputs, files),
        None => standard(alloc, &inputs.options),
    }
}

/// The settings where a user names no file.
fn standard(alloc: Global, options: &Options<'_>) -> Result<MapSettings, Refusal>
    ensures { Gives (λ settings. settings) result (settings_given (texts_outcome options.now.defaults (sets_of options.now.words.now))) }
{
    Ok(set_alone(alloc, options)?)
}

/// What is set, over the settings of the command that it names.
#[tactic(auto, using(crate::proofs::SetLemmas::read_once, crate::proofs::SetLemmas::read_over, crate::proofs::SetLemmas::refused_first))]
fn set_alone(alloc: Global, options: &Options<'_>) -> Result<MapSettings, SettingsFault>
    ensures { Reads result (texts_outcome options.now.defaults (sets_of options.now.words.now)) }
{
    let first = set_over(alloc, options.words, options.defaults)?;
    if first.defaults == options.defaults {
        return Ok(first);
    }
    set_over(alloc, options.words, first.defaults)
}

/// What is set, over the settings of a command, whatever its key `method` names.
fn set_over(
    alloc: Global,
    words: &[String],
    defaults: Defaults,
) -> Result<MapSettings, SettingsFault>
    ensures { Reads result (sets_outcome (sets_of words.now) (Ok (default_choices defaults))) }
{
    let base = MapSettings::standard(alloc, defaults)?;
    with_sets(alloc, base, words)
}

/// The settings by the file that the user names.
fn settings_file<F: Files>(
    alloc: Global,
    inputs: &Inputs<'_>,
    files: &mut F,
) -> Result<MapSettings, Refusal>
    ensures follows { Follows (F.told files.old) (input_at (inputs_by inputs.now))
        (Rose (F.faults files.old) (F.faults files.new)) (λ settings. settings)
        (settings_file_work (inputs_by inputs.now).chosen.defaults (inputs_by inputs.now).chosen.sets) result }
    ensures kept { F.told files.new ≡ F.told files.old }
    ensures later { F.faults files.old ≤ F.faults files.new }
{
    let bytes = read_file(alloc, inputs, Input::Settings, files)?;
    settings_in(alloc, &inputs.options, bytes)
}

/// The settings that the bytes of a file make, which has to be there, after what is set.
fn settings_in(
    alloc: Global,
    options: &Options<'_>,
    bytes: Option<Vec<u8>>,
) -> Result<MapSettings, Refusal>
    ensures { Gives (λ settings. settings) result (settings_in options.now.defaults (sets_of options.now.words.now) (option_map (λ v. v.items) bytes)) }
{
    let Some(bytes) = bytes else {
        return Err(Refusal::BadSettings(SettingsWhy::Missing));
    };
    Ok(settings_of(alloc, bytes.as_slice(), options)?)
}

/// The settings that the bytes of a file make, after what is set, over those of the command that they name.
#[tactic(auto, using(crate::proofs::SetLemmas::read_once, crate::proofs::SetLemmas::read_over, crate::proofs::SetLemmas::refused_first))]
fn settings_of(
    alloc: Global,
    bytes: &[u8],
    options: &Options<'_>,
) -> Result<MapSettings, SettingsFault>
    ensures { Reads result (texts_outcome options.now.defaults (bytes.now ∷ sets_of options.now.words.now)) }
{
    let first = file_over(alloc, bytes, options.words, options.defaults)?;
    if first.defaults == options.defaults {
        return Ok(first);
    }
    file_over(alloc, bytes, options.words, first.defaults)
}

/// The settings that the bytes of a file make, after what is set, over those of a command, whatever the key `method` names.
#[tactic(auto, using(crate::proofs::SetLemmas::reads_after, crate::proofs::SetLemmas::refused_before))]
fn file_over(
    alloc: Global,
    bytes: &[u8],
    words: &[String],
    defaults: Defaults,
) -> Result<MapSettings, SettingsFault>
    ensures { Reads result (sets_outcome (sets_of words.now) (set_outcome (default_choices defaults) bytes.now)) }
{
    let base = settings_over(alloc, bytes, defaults)?;
    with_sets(alloc, base, words)
}

/// The settings after those that the words set, one after another.
#[tactic(auto, using(crate::proofs::SetLemmas::next_taken, crate::proofs::SetLemmas::next_refused, crate::proofs::SetLemmas::none_left))]
fn with_sets(
    alloc: Global,
    base: MapSettings,
    words: &[String],
) -> Result<MapSettings, SettingsFault>
    ensures { Reads result (sets_outcome (sets_of words.now) (Ok base)) }
{
    let mut settings = base;
    let mut rest = words;
    'sets: while let Some((set, behind)) = next_set(rest) {
        match set_settings(alloc, set.as_bytes(), settings) {
            Ok(next) => settings = next,
            Err(why) => return Err(why),
        }
        rest = behind;
    }
    Ok(settings)
}
