//! Books, histories, stores and receipts are given back. It stands outside the tests, so that its proof belongs to the crate with and
//! without them.
use calvin_app::Kv;
use calvin_book::StoreBook;
use calvin_histories::History;
use calvin_lock::QueueLocks;
use calvin_store::ColdRows;
use calvin_wide::{StoreWideCluster, WideAnswer, WideFounding, WideGate, WideTicket};

/// Gives a book's memory back.
pub fn give_back(book: StoreBook<Kv>) {
    drop(book);
}

/// Gives the memory of histories back.
pub fn give_histories_back(histories: Vec<History<Kv>>) {
    drop(histories);
}

/// Gives the memory of a store back whose threads have ended.
pub fn give_store_back<G: WideGate<Kv, QueueLocks, ColdRows<u64>>, J: WideFounding>(
    store: StoreWideCluster<Kv, G, J>,
) {
    drop(store);
}

/// Gives the memory of receipts back.
pub fn give_receipts_back<J: WideFounding>(ticket: WideTicket<Kv, J>, answer: WideAnswer<Kv, J>) {
    drop(ticket);
    drop(answer);
}
