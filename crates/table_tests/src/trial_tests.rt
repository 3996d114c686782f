//! Trials whose lines are worked by hand.

use files_door::read_all;
use std::alloc::Global;
use std::test::Fail;
use trial_feed::trial_files;

/// The bytes of a table of a trial.
fn table(alloc: Global, trial: u32, path: &str) -> Result<Vec<u8>, Fail> {
    let mut files = trial_files(alloc, trial)?;
    let bytes = read_all(alloc, &mut files, path, 100_000)
        .ok()
        .ok_or("no table")?;
    Ok(bytes)
}

#[test]
fn draws_the_lines_of_the_first_trial(rt: HostRuntime) -> Result<(), Fail> {
    let calls = table(rt.alloc(), 0, "trial/stop_times.txt")?;
    let calls = calls.as_slice();
    let expected =
        b"trip_id,stop_id,stop_sequence\nR01,3_0,1\nR01,4_0,2\nR11,1_0,1\nR11,2_0,2\nR11,2_1,3\nR11,2_2,4\nR11,3_2,5\nR11,3_3,6\nR11,4_3,7\n";
    assert_eq!(rt; calls, expected.as_slice());
    Ok(())
}
