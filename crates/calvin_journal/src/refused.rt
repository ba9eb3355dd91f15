//! What is left of a journal that can't go on.
use calvin_journal_log::Log;
use calvin_types::Fault;

/// Why a journal can't go on, and its log. The journal is gone: what a refused call left of the file is found by opening it
/// again.
#[derive(Drop)]
pub struct Refused<L: Log + Drop> {
    pub fault: Fault,
    pub log: L,
}
