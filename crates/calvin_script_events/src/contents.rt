//! What a script of events says.
use crate::event::ListedEvent;
use calvin_types::Config;

/// A script of events: what the store is opened with, the events in order, and the lines that are expected, without their
/// line feeds, where the script says which. `R` is how requests are kept: `Kept` for what is read.
#[derive(Drop)]
pub struct EventScript<R> {
    pub config: Config,
    pub events: Vec<ListedEvent<R>>,
    pub expect: Option<Vec<String>>,
}
