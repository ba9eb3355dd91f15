//! How a test compares, and hands on what it fills.
use std::fmt::Debug;
use std::process::Abort;

/// It is so; else the test fails.
pub(crate) fn holds(rt: &impl Abort, is_so: bool) {
    assert!(rt; is_so);
}

/// Two values are the same; else the test fails, and shows both.
pub(crate) fn same<T: PartialEq + Debug + Drop>(rt: &impl Abort, found: T, wanted: T) {
    assert_eq!(rt; found, wanted);
}

/// What was to be filled, where that went well. A value that goes out of scope beside `?` is dearer to prove.
pub(crate) fn filled<T: Drop, E>(value: T, outcome: Result<(), E>) -> Result<T, E> {
    match outcome {
        Ok(()) => Ok(value),
        Err(fault) => {
            drop(value);
            Err(fault)
        }
    }
}
