//! Sinks in memory that never fail.

ghost use Rattle.std.specs.Prelude.{◌≡◌, ◌<◌, [], None, Some, Ok, IsSome, IfOk, IfErr, OnOk, OnErr, length, position};
ghost use Rattle.std.specs.Option.{option_map, option_copied};
ghost use Rattle.files_door.specs.Acts.{Does, append_to, begin_target, change, kept_by, puts};
ghost use Rattle.files_door.specs.Targets.{held_by, same_target};
ghost use Rattle.files_door.specs.SinksInMemory.{IsFirst, place_of, target_at, written_in};
ghost use Rattle.files_door.specs.declared.stop.Stop.TheVariants.{NoMemory};

use crate::sinks::Sinks;
use crate::stop::Stop;
use crate::target::Target;
use map_base::Text;
use std::alloc::Global;
use std::marker::Model;

/// Sinks in memory, of which nothing fails.
#[derive(Drop)]
pub struct SteadySinks {
    alloc: Global,
    targets: Vec<(Target, Vec<u8>)>,
    current: Option<usize>,
}

impl Model for SteadySinks {
    ghost use Rattle.std.specs.Option.{ForSome, option_map};
    ghost use Rattle.files_door.specs.SinksInMemory.{IsFirst, WrittenSinks, target_at, written_in};

    ghost Value = { WrittenSinks };

    ghost view = { λ s. record { written = written_in s.targets.items; current = option_map (target_at (written_in s.targets.items)) s.current } };

    ghost invariant = { λ s. ForSome s.current (IsFirst (written_in s.targets.items)) };
}

impl SteadySinks {
    /// No target was begun.
    pub fn none(alloc: Global) -> SteadySinks
        ensures { result ≡ record { written = []; current = None } }
    {
        SteadySinks {
            alloc,
            targets: Vec::new(alloc),
            current: None,
        }
    }

    /// What the target holds; none where it was never begun.
    pub fn written(&self, to: &Target) -> Option<&[u8]>
        ensures { option_copied result ≡ held_by to.now self.now.written }
    {
        let place = place_of(&self.targets, to)?;
        Some(&self.targets[place].1)
    }
}

impl Sinks for SteadySinks {
    ghost written = { λ s. Some s.written };

    ghost current = { λ s. s.current };

    ghost faults = { λ _. 0 };

    fn begin(&mut self, to: &Target) -> Result<(), Stop>
        ensures ok { OnOk result (self.new ≡ record { written = begin_target to.now self.old.written; current = Some to.now }) }
        ensures err { IfErr result (λ stop. (stop ≡ NoMemory) × (self.new ≡ record self.old { current = None })) }
    {
        self.current = None;
        self.current = Some(begin_in(self.alloc, &mut self.targets, to)?);
        Ok(())
    }

    fn write(&mut self, piece: &[u8]) -> Result<usize, Stop>
        requires { IsSome self.old.current }
        ensures whole { IfOk result (λ count. count ≡ length piece.now) }
        ensures appended { OnOk result (Does (puts self.old.current piece.now) (Some self.old.written) (Some self.new.written)) }
        ensures err { IfErr result (λ stop. (stop ≡ NoMemory) × (self.new ≡ self.old)) }
        ensures current { self.new.current ≡ self.old.current }
    {
        let place = self.current.unwrap();
        append_at(&mut self.targets, place, piece)?;
        Ok(piece.len())
    }
}

// The place of the target.
fn place_of(targets: &[(Target, Vec<u8>)], to: &Target) -> Option<usize>
    ensures { result ≡ position (λ held. same_target held.0 to.now) targets.now }
{
    targets.iter().position(|held| held.0.is_same(to))
}

// Begins the target, and answers its place.
fn begin_in(alloc: Global, targets: &mut Vec<(Target, Vec<u8>)>, to: &Target) -> Result<usize, Stop>
    ensures begun { OnOk result (written_in targets.new.items ≡ begin_target to.now (written_in targets.old.items)) }
    ensures place { IfOk result (λ place. place_of to.now (written_in targets.new.items) ≡ Some place) }
    ensures err { IfErr result (λ stop. (stop ≡ NoMemory) × (written_in targets.new.items ≡ written_in targets.old.items)) }
{
    if let Some(place) = place_of(targets, to) {
        restart(targets, place, to);
        return Ok(place);
    }
    let place = targets.len();
    targets.push((copy_of(alloc, to)?, Vec::new(alloc)))?;
    Ok(place)
}

// Begins the target at this place again.
fn restart(targets: &mut Vec<(Target, Vec<u8>)>, place: usize, to: &Target)
    requires { place_of to.now (written_in targets.old.items) ≡ Some place }
    ensures { written_in targets.new.items ≡ change to.now (kept_by to.now) (written_in targets.old.items) }
{
    match to {
        Target::Said => {}
        Target::Path(_) => targets[place].1.clear(),
    }
}

// Appends the piece to the target at this place.
fn append_at(targets: &mut Vec<(Target, Vec<u8>)>, place: usize, piece: &[u8]) -> Result<(), Stop>
    requires { IsFirst (written_in targets.old.items) place }
    ensures ok { OnOk result (written_in targets.new.items ≡ append_to (target_at (written_in targets.old.items) place) piece.now (written_in targets.old.items)) }
    ensures err { IfErr result (λ stop. (stop ≡ NoMemory) × (written_in targets.new.items ≡ written_in targets.old.items)) }
{
    targets[place].1.extend_from_slice(piece)?;
    Ok(())
}

// The same target again.
fn copy_of(alloc: Global, target: &Target) -> Result<Target, map_base::NoMemory>
    ensures { IfOk result (λ copy. copy ≡ target.now) }
{
    match target {
        Target::Said => Ok(Target::Said),
        Target::Path(path) => Ok(Target::Path(Text::of(alloc, path.as_str())?)),
    }
}
