//! Worlds are given back. It stands outside the tests, so that its proof belongs to the crate with and without them.
use calvin_app::Kv;
use calvin_world::StoreWorld;

/// Gives a world's memory back.
pub fn give_back(world: StoreWorld<Kv>) {
    drop(world);
}
