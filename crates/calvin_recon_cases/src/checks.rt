//! How a test compares.
use std::process::Abort;

/// It is so; else the test fails.
pub(crate) fn holds(rt: &impl Abort, is_so: bool) {
    assert!(rt; is_so);
}
