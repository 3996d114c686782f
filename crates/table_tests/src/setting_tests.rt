//! Settings files that are read or refused.

use map_method::{Defaults, MapSettings};
use map_settings::{SettingsFault, settings_over};
use std::alloc::{AllocError, Global};
use std::test::Fail;

/// The settings that a file makes beside the defaults of `make`.
fn read(alloc: Global, file: &str) -> Result<MapSettings, SettingsFault> {
    settings_over(alloc, file.as_bytes(), Defaults::Make)
}

#[test]
fn reads_every_key(rt: HostRuntime) -> Result<(), Fail> {
    let file =
        "near = 20\ncell = 10\nbudget = 1\ntypes = [3]\njunction = [1, 2, 3]\nstation = [0, 0, 1000]\nimportance = { B = 16, A = 1 }\n";
    let settings = read(rt.alloc(), file).ok().ok_or("read")?.settings;
    assert_eq!(rt; settings.near, 20);
    assert_eq!(rt; settings.cell, 10);
    assert_eq!(rt; settings.budget, 1);
    let types = settings.types.as_slice();
    assert_eq!(rt; types, [3].as_slice());
    assert_eq!(rt; settings.weights[0].split, 2);
    assert_eq!(rt; settings.weights[1].sep, 1000);
    let pairs = settings.importance.as_slice();
    assert_eq!(rt; pairs.len(), 2);
    assert_eq!(rt; pairs[0].0.as_str(), "A");
    assert_eq!(rt; pairs[1].1, 16);
    Ok(())
}

/// A table of importances of so many lines.
fn importances(alloc: Global, count: u32) -> Result<String, AllocError> {
    let mut file = String::from_str(alloc, "[importance]\n")?;
    for number in 0..count {
        file.push_str(format!(in alloc; "R{number} = 2\n")?.as_str())?;
    }
    Ok(file)
}

#[test]
fn reads_a_thousand_importances(rt: HostRuntime) -> Result<(), Fail> {
    let thousand = read(rt.alloc(), importances(rt.alloc(), 1_000)?.as_str());
    assert_eq!(rt; thousand.is_ok(), true);
    let more = read(rt.alloc(), importances(rt.alloc(), 1_001)?.as_str());
    assert_eq!(rt; more.is_ok(), false);
    Ok(())
}
