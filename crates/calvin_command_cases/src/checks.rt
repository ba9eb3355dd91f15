//! How a test compares.
use std::fmt::Debug;
use std::process::Abort;
use std::sync::Wait;
use std::thread::Threads;

/// What a test is given to run commands with.
pub(crate) trait Runtime: Abort + Threads + Wait + Copy + Send + Sync + 'static {}

impl<R: Abort + Threads + Wait + Copy + Send + Sync + 'static> Runtime for R {}

/// It is so; else the test fails.
pub(crate) fn holds(rt: &impl Abort, is_so: bool) {
    assert!(rt; is_so);
}

/// Two values are the same; else the test fails, and shows both.
pub(crate) fn same<T: PartialEq + Debug + Drop>(rt: &impl Abort, found: T, wanted: T) {
    assert_eq!(rt; found, wanted);
}
