//! A run of rounds.
use command_rounds::play_rounds;
use std::process::Abort;
use std::test::Fail;

/// Checks that these are the numbers.
fn has_numbers(rt: &impl Abort, found: &[u64], expected: &[u64]) {
    assert_eq!(rt; found, expected);
}

// Three threads play two rounds: the totals are 6 and 12.
#[test]
fn three_threads(rt: HostRuntime) -> Result<(), Fail> {
    let left = play_rounds(&rt, rt.alloc(), 3, 2)?;
    has_numbers(&rt, left.totals.as_slice(), &[6, 12]);
    drop(left);
    Ok(())
}
