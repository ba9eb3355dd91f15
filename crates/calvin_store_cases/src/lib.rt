//! The tests of keepers of rows, by public calls alone, at those of `calvin_store` and one that is made here. They are
//! checked here over the statements of the crates below: a test in a crate's own folder would have that crate proved once
//! more with it. The keeper that is made here can be used by the tests of other crates.
#![tactic(auto)]

#[cfg(test)]
mod beside;
#[cfg(test)]
mod calls;
#[cfg(test)]
mod checks;
#[cfg(test)]
mod drawn;
#[cfg(test)]
mod draws;
#[cfg(test)]
mod keepers;
mod list_rows;
#[cfg(test)]
mod model;
#[cfg(test)]
mod scarce;

pub use list_rows::ListRows;
