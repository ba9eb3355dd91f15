//! The lines of one epoch, wherever its batches stand.
ghost use Rattle.std.specs.Prelude.{IsOkAnd, OnOk, IsOkUnless};
ghost use Rattle.calvin_serial.specs.FirstSets.{NeedsFirst};
ghost use Rattle.calvin_serial.specs.Scouting.{with_sets, RunsOn};

use crate::scouted::push_scouted;
use crate::text::push_requests;
use crate::undeclared::UndeclaredSets;
use calvin_app::{Answer, Serial, Settles, View, Writes};
use calvin_order::{BatchSource, EpochRequests};
use calvin_script::{Kept, Operation};
use calvin_text::Printed;
use calvin_types::Fault;
use std::alloc::Global;

/// Runs the requests of an epoch one at a time on the rows that there are, and adds a line for each. Where sets are scouted, all
/// are found before the first request is run. Refused only for want of memory: then some of the requests may have been run, and
/// the text may have lines of them.
pub fn push_answers<A: Settles, B: BatchSource<Kept<A::Args>>>(
    alloc: Global,
    app: &A,
    store: &mut Serial<A>,
    requests: EpochRequests<'_, Kept<A::Args>, B>,
    sets: UndeclaredSets,
    text: &mut Vec<u8>,
) -> Result<(), Fault>
where
    A::Args: Operation,
    A::Reply: Printed,
    requires first { NeedsFirst A.Args.grammar A.meaning }
    ensures ok { OnOk result (IsOkAnd (with_sets A.meaning sets store.old requests.entry) (λ placed.
        RunsOn A.meaning A.Reply.printed placed store.old store.new text.old.items text.new.items)) }
    ensures only { IsOkUnless result Fault.OutOfMemory }
{
    match sets {
        UndeclaredSets::First => {
            let mut seen = View::new();
            let mut answer = Answer::Changed;
            let mut writes = Writes::new();
            push_requests(store, requests, &mut seen, &mut answer, &mut writes, text)
        }
        UndeclaredSets::Scouted => push_scouted(alloc, app, store, requests, text),
    }
}
