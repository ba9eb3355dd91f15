//! Scripts of events for the applications that there are.
use calvin_app::KvRequest;
use calvin_once::Named;
use calvin_script::Kept;
use calvin_script_events::EventScript;
use calvin_stock::StockRequest;

/// A script of events for the application that it names.
#[derive(Drop)]
pub enum AppEventScript {
    Kv(EventScript<Kept<KvRequest>>),
    Stock(EventScript<Kept<StockRequest>>),
    Once(EventScript<Kept<Named<StockRequest>>>),
}
