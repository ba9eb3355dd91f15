//! What of a replica outlives a restart.
use crate::acceptor::Acceptor;
use calvin_types::Batch;
use std::marker::Model;

/// What one replica keeps over a restart: its promises and votes, by slot, and the greatest round that it used, 0 before the
/// first ("Paxos Made Simple", section 2.5: what an acceptor and a proposer keep in stable storage).
#[derive(Drop)]
pub struct SynodRecord<Args> {
    pub(crate) acceptor: Acceptor<Batch<Args>>,
    pub(crate) used: u32,
}

impl<Args> Model for SynodRecord<Args> {
    ghost use Rattle.std.specs.Prelude.{List};
    ghost use Rattle.calvin_types.specs.declared.txn.Txn.{Txn};
    ghost use Rattle.calvin_synod.specs.Deeds.{RecordState};
    ghost use Rattle.calvin_synod.specs.MessageCodes.{coded_batch, coded_record};

    ghost Value = { RecordState (List (Txn Args)) };

    ghost coded = { coded_record (coded_batch Args.code) };

    ghost view = { λ r. record { acceptor = r.acceptor.records; used = r.used } };
}
