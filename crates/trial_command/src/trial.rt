//! The map of a trial feed.

ghost use Rattle.std.specs.Prelude.{◌≡◌, ◌≤◌, ◌+◌, Ok, [], IfOk};
ghost use Rattle.map_engine.specs.Making.{make_outcome};
ghost use Rattle.map_engine.specs.Keeping.{branches_left};
ghost use Rattle.graph_maps.specs.Readings.{certificate_in};
ghost use Rattle.run_status.specs.Following.{Gives};
ghost use Rattle.command_inputs.specs.Inputs.{inputs_by};
ghost use Rattle.trial_command.specs.Trials.{TakesTrialSteps, told_as, trial_inputs, trial_loaded, trial_outcome, tried};

use crate::summary::summary_in;
use command_inputs::{Inputs, Loaded, load};
use command_paths::{MapFiles, Options};
use command_run::Output;
use map_base::{NoMemory, Sequence, Steps};
use map_engine::{Kept, make};
use map_method::Defaults;
use run_status::{Refusal, say};
use std::alloc::Global;
use std::sync::ledger::Ledger;
use trial_feed::{trial_files, trial_line};

/// Makes the map of the trial feed of this number with the standard settings, and tells its numbers by one line.
/// `steps` counts the branch nodes of searches for line orders.
pub fn print_trial<L: Ledger>(
    alloc: Global,
    trial: u32,
    steps: &mut Steps<L>,
) -> Result<Sequence<Output>, Refusal>
    ensures given { Gives (λ outputs. outputs) result (trial_outcome trial) }
    ensures steps { TakesTrialSteps trial steps.old steps.new }
{
    let loaded = load_trial(alloc, trial)?;
    tell_map(alloc, trial, &loaded, steps)
}

/// The inputs of a trial: its folder, no file of settings, and none of edits.
fn trial_inputs() -> Inputs<'static>
    ensures { inputs_by result ≡ trial_inputs }
{
    Inputs {
        feed: "trial",
        options: Options {
            defaults: Defaults::Make,
            settings: None,
            edits: None,
            words: &[],
        },
        files: MapFiles {
            picture: "",
            certificate: "",
        },
        script: "",
    }
}

/// The settings and the tables of the folder of a trial.
fn load_trial(alloc: Global, trial: u32) -> Result<Loaded, Refusal>
    ensures { Gives (λ loaded. loaded) result (trial_loaded trial) }
{
    let mut files = trial_files(alloc, trial)?;
    let inputs = trial_inputs();
    load(alloc, &inputs, &mut files)
}

/// Makes the map of what is loaded, and tells its numbers.
fn tell_map<L: Ledger>(
    alloc: Global,
    trial: u32,
    loaded: &Loaded,
    steps: &mut Steps<L>,
) -> Result<Sequence<Output>, Refusal>
    ensures given { Gives (λ outputs. outputs) result
        (tried trial (make_outcome loaded.now.tables loaded.now.settings loaded.now.method)) }
    ensures steps { steps.new ≤ steps.old + branches_left [] loaded.now.tables loaded.now.settings loaded.now.method }
{
    let mut kept = Kept::none(alloc);
    let made = make(
        alloc,
        &loaded.tables,
        &loaded.settings,
        &loaded.method,
        &mut kept,
        steps,
    )?;
    Ok(tell(alloc, trial, made.certificate.as_slice())?)
}

/// The line of a map by its certificate.
#[tactic(auto, using(crate::proofs::TrialLemmas::told_line))]
fn tell(alloc: Global, trial: u32, certificate: &[u8]) -> Result<Sequence<Output>, NoMemory>
    ensures { IfOk result (λ outputs. outputs ≡ told_as trial (certificate_in certificate.now)) }
{
    let summary = summary_in(alloc, certificate)?;
    let line = trial_line(alloc, trial, summary)?;
    say(alloc, line.into_bytes())
}
