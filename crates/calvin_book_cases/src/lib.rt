//! Worked cases of books: a request's way from its submission to its answer, what a book refuses, and a life in which each
//! allocation can be refused. They are checked here over the statements of the crates below: a test in a crate's own folder would
//! have that crate proved once more with it.
#![tactic(auto)]

#[cfg(test)]
mod alike;
#[cfg(test)]
mod answers;
#[cfg(test)]
mod books;
#[cfg(test)]
mod checks;
#[cfg(test)]
mod enduring_book;
mod giving_back;
#[cfg(test)]
mod refusals;

pub use giving_back::give_back;
