//! Books are given back. It stands outside the tests, so that its proof belongs to the crate with and without them.
use calvin_book::StoreBook;
use calvin_once::Once;
use calvin_stock::Stock;

/// Gives a book's memory back.
pub fn give_back(book: StoreBook<Once<Stock>>) {
    drop(book);
}
