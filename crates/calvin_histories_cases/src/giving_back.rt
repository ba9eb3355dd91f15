//! Books, nodes and histories are given back. It stands outside the tests, so that its proof belongs to the crate with and without them.
use calvin_app::Kv;
use calvin_book::StoreBook;
use calvin_histories::{History, StoreNode};

/// Gives a book's memory back.
pub fn give_back(book: StoreBook<Kv>) {
    drop(book);
}

/// Gives a node's memory back.
pub fn give_back_node(node: StoreNode<Kv>) {
    drop(node);
}

/// Gives the memory of nodes back.
pub fn give_back_nodes(nodes: Vec<StoreNode<Kv>>) {
    drop(nodes);
}

/// Gives a history's memory back.
pub fn give_back_history(history: History<Kv>) {
    drop(history);
}

/// Gives the memory of histories back.
pub fn give_back_histories(histories: Vec<History<Kv>>) {
    drop(histories);
}
