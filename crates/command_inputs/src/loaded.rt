//! What a command works on.

ghost use Rattle.std.specs.Prelude.{◌≡◌, ◌≤◌, IfOk};
ghost use Rattle.files_door.specs.Fault.{Rose};
ghost use Rattle.command_inputs.specs.Inputs.{input_at, inputs_by};
ghost use Rattle.command_inputs.specs.Loading.{feed_work, load_work, tables_work};
ghost use Rattle.run_status.specs.Following.{Follows};

use crate::edits::edited_for;
use crate::inputs::Inputs;
use crate::settings::settings_for;
use files_door::Files;
use gtfs_tables::read_tables;
use map_base::Settings;
use map_method::{Claim, Method};
use run_status::Refusal;
use std::alloc::Global;
use transit_feed::Tables;

/// The settings, how a map is found, and the tables of a feed by the settings.
#[derive(Debug, Drop)]
pub struct Loaded {
    pub settings: Settings,
    pub method: Method,
    pub tables: Tables,
}

impl Loaded {
    /// What is to be proved of the line orders of a map.
    pub fn claim(&self) -> Claim
        ensures { result ≡ self.now.method.claim }
    {
        claim_of(&self.method)
    }
}

/// What is to be proved where maps are found like this.
fn claim_of(method: &Method) -> Claim
    ensures { result ≡ method.now.claim }
{
    method.claim
}

/// Reads what a command works on: its settings, then the tables of its feed by them, and last the edits of both.
pub fn load<F: Files>(alloc: Global, inputs: &Inputs<'_>, files: &mut F) -> Result<Loaded, Refusal>
    ensures follows { Follows (F.told files.old) (input_at (inputs_by inputs.now))
        (Rose (F.faults files.old) (F.faults files.new)) (λ loaded. loaded) (load_work (inputs_by inputs.now).chosen) result }
    ensures kept { F.told files.new ≡ F.told files.old }
    ensures later { F.faults files.old ≤ F.faults files.new }
{
    let loaded = load_feed(alloc, inputs, files)?;
    edited_for(alloc, inputs, loaded, files)
}

/// The settings of a command, and the tables of its feed by them.
fn load_feed<F: Files>(alloc: Global, inputs: &Inputs<'_>, files: &mut F) -> Result<Loaded, Refusal>
    ensures follows { Follows (F.told files.old) (input_at (inputs_by inputs.now))
        (Rose (F.faults files.old) (F.faults files.new)) (λ loaded. loaded) (feed_work (inputs_by inputs.now).chosen) result }
    ensures kept { F.told files.new ≡ F.told files.old }
    ensures later { F.faults files.old ≤ F.faults files.new }
{
    let all = settings_for(alloc, inputs, files)?;
    let tables = tables_by(alloc, inputs, files, &all.settings)?;
    Ok(Loaded {
        settings: all.settings,
        method: all.method,
        tables,
    })
}

/// The tables of a command's feed by the settings.
fn tables_by<F: Files>(
    alloc: Global,
    inputs: &Inputs<'_>,
    files: &mut F,
    settings: &Settings,
) -> Result<Tables, Refusal>
    ensures follows { Follows (F.told files.old) (input_at (inputs_by inputs.now))
        (Rose (F.faults files.old) (F.faults files.new)) (λ tables. tables) (tables_work settings.now.types) result }
    ensures kept { F.told files.new ≡ F.told files.old }
    ensures later { F.faults files.old ≤ F.faults files.new }
{
    let types = settings.types.as_slice();
    Ok(read_tables(alloc, files, inputs.feed, types)?)
}
