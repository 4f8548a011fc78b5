//! Comparisons of tests.
use std::fmt::Debug;
use std::process::Abort;

/// Checks that what was found is what is expected. A comparison of its own costs each test some
/// seconds of its proof, and this one costs a call.
pub fn same<T: PartialEq + Debug>(rt: &impl Abort, found: &T, expected: &T) {
    assert_eq!(rt; *found, *expected);
}
