//! How much memory an admitted request takes.
use crate::checks::same;
use calvin_app::Kv;
use calvin_sched::Turn;
use std::mem::size_of;
use std::test::Fail;

/// An admitted request isn't copied: it takes two words for where it lies, three for the rows that were read here, one for how far
/// it is, and four for the rows that came and the room for more of them; and the memory of these rows.
#[test]
fn admitted_requests_take_ten_words(rt: HostRuntime) -> Result<(), Fail> {
    same(&rt, size_of::<Turn<Kv>>(), 80);
    Ok(())
}
