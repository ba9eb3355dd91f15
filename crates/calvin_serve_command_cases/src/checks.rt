//! How a test compares.
use std::fmt::Debug;
use std::process::Abort;

/// Two values are the same; else the test fails, and shows both.
pub(crate) fn same<T: PartialEq + Debug + Drop>(rt: &impl Abort, found: T, wanted: T) {
    assert_eq!(rt; found, wanted);
}
