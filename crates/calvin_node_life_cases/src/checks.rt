//! How a test compares.
use calvin_node_lives::Wrong;
use std::fmt::Debug;
use std::process::Abort;

/// It is so; else the test fails.
pub(crate) fn holds(rt: &impl Abort, is_so: bool) {
    assert!(rt; is_so);
}

/// Two values are the same; else the test fails, and shows both.
pub(crate) fn same<T: PartialEq + Debug + Drop>(rt: &impl Abort, found: T, wanted: T) {
    assert_eq!(rt; found, wanted);
}

/// A life goes on; else the test fails, and shows where and what is wrong.
pub(crate) fn goes_on(rt: &impl Abort, outcome: Result<(), (usize, Wrong)>) {
    same(rt, outcome, Ok(()));
}
