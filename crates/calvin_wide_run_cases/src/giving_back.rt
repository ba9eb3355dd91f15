//! A book is given back. It stands outside the tests, so that its proof belongs to the crate with and without them.
use calvin_app::Kv;
use calvin_book::StoreBook;

/// Gives a book's memory back.
pub fn give_back(book: StoreBook<Kv>) {
    drop(book);
}
