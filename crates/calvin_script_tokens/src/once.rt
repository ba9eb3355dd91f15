//! The operations of the application Stock, each request's name once.
use crate::operation::OperationTokens;
use calvin_once::Named;
use calvin_stock::StockRequest;
use calvin_types::RequestId;
use json::Reader;

impl OperationTokens for Named<StockRequest> {
    fn read_tokens(&mut self, reader: &mut Reader<'_>) -> Option<()> {
        self.id = RequestId {
            client: 0,
            number: 0,
        };
        self.args.read_tokens(reader)
    }

    fn give_name(&mut self, id: RequestId) -> Option<()> {
        self.id = id;
        Some(())
    }
}
