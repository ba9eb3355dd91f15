//! Books are given back. It stands outside the tests, so that its proof belongs to the crate with and without them.
use calvin_run::Ran;

/// Gives a book's memory back.
pub fn give_back(ran: Ran) {
    drop(ran);
}
