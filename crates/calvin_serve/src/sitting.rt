//! A desk with the requests that wait for its next epoch.
ghost use Rattle.std.specs.Prelude.{◌≡◌, ◌≢◌, ◌<◌, ◌≤◌, ◌∷◌, ◌++◌, ◌⊎◌, ℕ, List, [], Option, Result, Ok, Err, true, false, IfOk, IfErr, take, option_map};
ghost use Rattle.std.specs.Io.KnownBytes.{Appends};
ghost use Rattle.calvin_types.specs.declared.fault.Fault.{Fault as SomeFault};
ghost use Rattle.calvin_types.specs.declared.fault.Fault.TheVariants.{OutOfMemory, ReadFailed};
ghost use Rattle.calvin_serial.specs.FirstSets.{NeedsFirst};
ghost use Rattle.calvin_types.specs.declared.limits.TheConstants.{MOST_EPOCHS};
ghost use Rattle.calvin_journal.specs.Journals.{Becomes};
ghost use Rattle.calvin_script.specs.Scripts.{all_listed};
ghost use Rattle.calvin_journal.specs.Lines.{has_break};
ghost use Rattle.calvin_serve_desk.specs.Desks.{Standing, Commits};
ghost use Rattle.calvin_serve_lines.specs.Gathered.{gathered, has_room};
ghost use Rattle.calvin_serve_lines.specs.Asking.{Asked as TheAsked, request_line};
ghost use Rattle.calvin_serve.specs.Blame.{IsBlamed};
ghost use Rattle.calvin_serve.specs.Serving.{Follows, Ends};

use crate::refusal::refusal;
use calvin_app::Settles;
use calvin_edge::{Sink, write_all};
use calvin_journal::Refused;
use calvin_journal_log::Log;
use calvin_script::{Epoch, Kept, Operation};
use calvin_serve_desk::Desk;
use calvin_serve_lines::{Asked, Gathering, read_request};
use calvin_text::Printed;
use calvin_types::{Fault, MOST_EPOCHS};
use std::alloc::Global;
use std::marker::Model;

/// A desk, the requests that wait for its next epoch, and how many lines of the input were dealt with.
#[derive(Drop)]
pub(crate) struct Sitting<A: Settles + Drop, L: Log + Drop>
where
    A::Args: Operation,
{
    desk: Desk<A, L>,
    waiting: Gathering<A::Args>,
    count: u64,
    /// Whether a request waits.
    waits: bool,
}

impl<A: Settles + Drop, L: Log + Drop> Model for Sitting<A, L>
where
    A::Args: Operation,
{
    ghost use Rattle.std.specs.Prelude.{◌≡◌, ◌≤◌, false, []};
    ghost use Rattle.std.specs.Coded.{codes};
    ghost use Rattle.std.specs.FinMap.{code};
    ghost use Rattle.calvin_types.specs.declared.limits.TheConstants.{MOST_EPOCHS};
    ghost use Rattle.calvin_serve_lines.specs.Gathered.{gathered};
    ghost use Rattle.calvin_serve.specs.Serving.{Sitting};

    ghost Value = { Sitting A.Args A.Row };

    ghost coded = { Prim.hlevel (codes, code) };

    ghost view = { λ s. record { desk = s.desk; waiting = s.waiting; count = s.count; waits = s.waits } };

    ghost invariant = { λ s. (s.count ≤ MOST_EPOCHS) × (s.waits ≡ false → s.waiting ≡ gathered s.desk.setting.partitions []) };
}

impl<A: Settles + Drop, L: Log + Drop> Sitting<A, L>
where
    A::Args: Operation,
    A::Reply: Printed,
{
    /// A desk for which no request waits, where so many lines of the input were dealt with.
    pub(crate) fn new(
        alloc: Global,
        desk: Desk<A, L>,
        count: u64,
    ) -> Result<Sitting<A, L>, Refused<L>>
        requires in_range { count ≤ MOST_EPOCHS }
        ensures ok { IfOk result (λ s. s ≡ record { desk = desk; waiting = gathered desk.setting.partitions []; count = count; waits = false }) }
        ensures err { IfErr result (λ s. Becomes (option_map (λ ls. (ls, ls)) desk.lines) (L.told s.log)) }
        ensures only { IfErr result (λ s. s.fault ≡ OutOfMemory) }
        ensures failures { IfErr result (λ s. L.failures s.log ≡ desk.failures) }
    {
        match Gathering::new(alloc, desk.setting().partitions) {
            Ok(waiting) => Ok(Sitting {
                desk,
                waiting,
                count,
                waits: false,
            }),
            Err(_) => Err(Refused {
                fault: Fault::OutOfMemory,
                log: desk.into_log(),
            }),
        }
    }

    /// The end, for a reason that isn't the journal's.
    pub(crate) fn stop(self, fault: Fault) -> Refused<L>
        ensures fault { result.fault ≡ fault }
        ensures left { Becomes (option_map (λ ls. (ls, ls)) self.desk.lines) (L.told result.log) }
        ensures failures { L.failures result.log ≡ self.desk.failures }
    {
        Refused {
            fault,
            log: self.desk.into_log(),
        }
    }

    /// The requests that wait, if one does, are the next epoch: it is added to the journal and kept, run, and answered.
    pub(crate) fn settle<K: Sink>(
        self,
        alloc: Global,
        sink: &mut K,
    ) -> Result<Sitting<A, L>, Refused<L>>
        requires first { NeedsFirst A.Args.grammar A.meaning }
        ensures ok { IfOk result (λ s. (old : Standing A.Row) → (out : Option (List ℕ)) → (lines : List (Result (TheAsked A.Args) SomeFault))
            → Follows A.meaning A.Reply.printed A.Args.grammar old out lines self (K.taken sink.old)
            → Follows A.meaning A.Reply.printed A.Args.grammar old out lines s (K.taken sink.new)) }
        ensures rests { IfOk result (λ s. s.waits ≡ false) }
        ensures count { IfOk result (λ s. s.count ≡ self.count) }
        ensures none { IfOk result (λ s. s.waiting ≡ gathered self.desk.setting.partitions []) }
        ensures err { IfErr result (λ s. (old : Standing A.Row) → (out : Option (List ℕ)) → (lines : List (Result (TheAsked A.Args) SomeFault))
            → Follows A.meaning A.Reply.printed A.Args.grammar old out lines self (K.taken sink.old)
            → Ends A.meaning A.Reply.printed A.Args.grammar old out lines (L.told s.log) (K.taken sink.new)) }
        ensures no_failure { IfOk result (λ s. (s.desk.failures ≡ self.desk.failures) × (K.failures sink.new ≡ K.failures sink.old)) }
        ensures blame { IfErr result (λ s. IsBlamed s.fault self.desk.failures (L.failures s.log) (K.failures sink.old) (K.failures sink.new)) }
        ensures unread { IfErr result (λ s. s.fault ≢ ReadFailed) }
    {
        if !self.waits {
            return Ok(self);
        }
        match self.waiting.into_epoch(alloc) {
            Ok((line, epoch)) => settle_as(alloc, self.desk, self.count, &line, &epoch, sink),
            Err(_) => Err(Refused {
                fault: Fault::OutOfMemory,
                log: self.desk.into_log(),
            }),
        }
    }

    /// Deals with one line more of the input: a request waits for the next epoch, anything else is refused in its turn.
    pub(crate) fn take_line<K: Sink>(
        self,
        alloc: Global,
        line: &[u8],
        sink: &mut K,
    ) -> Result<Sitting<A, L>, Refused<L>>
        requires first { NeedsFirst A.Args.grammar A.meaning }
        ensures ok { IfOk result (λ s. (old : Standing A.Row) → (out : Option (List ℕ)) → (lines : List (Result (TheAsked A.Args) SomeFault))
            → Follows A.meaning A.Reply.printed A.Args.grammar old out lines self (K.taken sink.old)
            → Follows A.meaning A.Reply.printed A.Args.grammar old out (lines ++ request_line A.Args.grammar old.setting.partitions line.now ∷ []) s (K.taken sink.new)) }
        ensures err { IfErr result (λ s. (old : Standing A.Row) → (out : Option (List ℕ)) → (lines : List (Result (TheAsked A.Args) SomeFault))
            → Follows A.meaning A.Reply.printed A.Args.grammar old out lines self (K.taken sink.old)
            → Ends A.meaning A.Reply.printed A.Args.grammar old out (lines ++ request_line A.Args.grammar old.setting.partitions line.now ∷ []) (L.told s.log) (K.taken sink.new)) }
        ensures no_failure { IfOk result (λ s. (s.desk.failures ≡ self.desk.failures) × (K.failures sink.new ≡ K.failures sink.old)) }
        ensures blame { IfErr result (λ s. IsBlamed s.fault self.desk.failures (L.failures s.log) (K.failures sink.old) (K.failures sink.new)) }
        ensures unread { IfErr result (λ s. s.fault ≢ ReadFailed) }
    {
        if self.count >= MOST_EPOCHS {
            return Err(self.stop(Fault::EpochsSpent));
        }
        match read_request(alloc, self.desk.setting().partitions, line) {
            Ok(asked) => self.take(alloc, asked, sink),
            Err(fault) => {
                if fault == Fault::OutOfMemory {
                    return Err(self.stop(Fault::OutOfMemory));
                }
                self.refuse(alloc, fault, sink)
            }
        }
    }

    /// A request waits for the next epoch; the ones that wait are an epoch of their own where there is no room for it.
    fn take<K: Sink>(
        self,
        alloc: Global,
        asked: Asked<A::Args>,
        sink: &mut K,
    ) -> Result<Sitting<A, L>, Refused<L>>
        requires first { NeedsFirst A.Args.grammar A.meaning }
        requires in_range { self.count < MOST_EPOCHS }
        requires group { asked.group < self.desk.setting.partitions }
        ensures ok { IfOk result (λ s. (old : Standing A.Row) → (out : Option (List ℕ)) → (lines : List (Result (TheAsked A.Args) SomeFault))
            → Follows A.meaning A.Reply.printed A.Args.grammar old out lines self (K.taken sink.old)
            → Follows A.meaning A.Reply.printed A.Args.grammar old out (lines ++ Ok asked ∷ []) s (K.taken sink.new)) }
        ensures err { IfErr result (λ s. (old : Standing A.Row) → (out : Option (List ℕ)) → (lines : List (Result (TheAsked A.Args) SomeFault))
            → Follows A.meaning A.Reply.printed A.Args.grammar old out lines self (K.taken sink.old)
            → Ends A.meaning A.Reply.printed A.Args.grammar old out (lines ++ Ok asked ∷ []) (L.told s.log) (K.taken sink.new)) }
        ensures no_failure { IfOk result (λ s. (s.desk.failures ≡ self.desk.failures) × (K.failures sink.new ≡ K.failures sink.old)) }
        ensures blame { IfErr result (λ s. IsBlamed s.fault self.desk.failures (L.failures s.log) (K.failures sink.old) (K.failures sink.new)) }
        ensures unread { IfErr result (λ s. s.fault ≢ ReadFailed) }
    {
        if self.waiting.has_room(asked.group()) {
            return self.add(asked);
        }
        match self.settle(alloc, sink) {
            Ok(settled) => settled.add(asked),
            Err(stopped) => Err(stopped),
        }
    }

    /// A request waits for the next epoch.
    fn add(self, asked: Asked<A::Args>) -> Result<Sitting<A, L>, Refused<L>>
        requires in_range { self.count < MOST_EPOCHS }
        requires room { has_room self.waiting asked.group ≡ true }
        ensures ok { IfOk result (λ s. (old : Standing A.Row) → (out : Option (List ℕ)) → (out_now : Option (List ℕ)) → (lines : List (Result (TheAsked A.Args) SomeFault))
            → Follows A.meaning A.Reply.printed A.Args.grammar old out lines self out_now
            → Follows A.meaning A.Reply.printed A.Args.grammar old out (lines ++ Ok asked ∷ []) s out_now) }
        ensures err { IfErr result (λ s. Becomes (option_map (λ ls. (ls, ls)) self.desk.lines) (L.told s.log)) }
        ensures no_failure { IfOk result (λ s. s.desk.failures ≡ self.desk.failures) }
        ensures only { IfErr result (λ s. s.fault ≡ OutOfMemory) }
        ensures failures { IfErr result (λ s. L.failures s.log ≡ self.desk.failures) }
    {
        let mut waiting = self.waiting;
        match waiting.add(asked) {
            Ok(()) => Ok(Sitting {
                desk: self.desk,
                waiting,
                count: self.count + 1,
                waits: true,
            }),
            Err(_) => Err(Refused {
                fault: Fault::OutOfMemory,
                log: self.desk.into_log(),
            }),
        }
    }

    /// A line that is no request is told, when all requests before it are answered.
    fn refuse<K: Sink>(
        self,
        alloc: Global,
        fault: Fault,
        sink: &mut K,
    ) -> Result<Sitting<A, L>, Refused<L>>
        requires first { NeedsFirst A.Args.grammar A.meaning }
        requires in_range { self.count < MOST_EPOCHS }
        ensures ok { IfOk result (λ s. (old : Standing A.Row) → (out : Option (List ℕ)) → (lines : List (Result (TheAsked A.Args) SomeFault))
            → Follows A.meaning A.Reply.printed A.Args.grammar old out lines self (K.taken sink.old)
            → Follows A.meaning A.Reply.printed A.Args.grammar old out (lines ++ Err fault ∷ []) s (K.taken sink.new)) }
        ensures err { IfErr result (λ s. (old : Standing A.Row) → (out : Option (List ℕ)) → (lines : List (Result (TheAsked A.Args) SomeFault))
            → Follows A.meaning A.Reply.printed A.Args.grammar old out lines self (K.taken sink.old)
            → Ends A.meaning A.Reply.printed A.Args.grammar old out (lines ++ Err fault ∷ []) (L.told s.log) (K.taken sink.new)) }
        ensures no_failure { IfOk result (λ s. (s.desk.failures ≡ self.desk.failures) × (K.failures sink.new ≡ K.failures sink.old)) }
        ensures blame { IfErr result (λ s. IsBlamed s.fault self.desk.failures (L.failures s.log) (K.failures sink.old) (K.failures sink.new)) }
        ensures unread { IfErr result (λ s. s.fault ≢ ReadFailed) }
    {
        match self.settle(alloc, sink) {
            Ok(settled) => settled.tell(alloc, fault, sink),
            Err(stopped) => Err(stopped),
        }
    }

    /// The same where no request waits.
    fn tell<K: Sink>(
        self,
        alloc: Global,
        fault: Fault,
        sink: &mut K,
    ) -> Result<Sitting<A, L>, Refused<L>>
        requires rests { self.waits ≡ false }
        requires in_range { self.count < MOST_EPOCHS }
        ensures ok { IfOk result (λ s. (old : Standing A.Row) → (out : Option (List ℕ)) → (lines : List (Result (TheAsked A.Args) SomeFault))
            → Follows A.meaning A.Reply.printed A.Args.grammar old out lines self (K.taken sink.old)
            → Follows A.meaning A.Reply.printed A.Args.grammar old out (lines ++ Err fault ∷ []) s (K.taken sink.new)) }
        ensures err { IfErr result (λ s. (old : Standing A.Row) → (out : Option (List ℕ)) → (lines : List (Result (TheAsked A.Args) SomeFault))
            → Follows A.meaning A.Reply.printed A.Args.grammar old out lines self (K.taken sink.old)
            → Ends A.meaning A.Reply.printed A.Args.grammar old out (lines ++ Err fault ∷ []) (L.told s.log) (K.taken sink.new)) }
        ensures no_failure { IfOk result (λ s. (s.desk.failures ≡ self.desk.failures) × (K.failures sink.new ≡ K.failures sink.old)) }
        ensures blame { IfErr result (λ s. IsBlamed s.fault self.desk.failures (L.failures s.log) (K.failures sink.old) (K.failures sink.new)) }
        ensures unread { IfErr result (λ s. s.fault ≢ ReadFailed) }
    {
        let Ok(text) = refusal(alloc, self.count + 1, fault) else {
            return Err(self.stop(Fault::OutOfMemory));
        };
        match write_all(sink, &text) {
            Ok(()) => Ok(Sitting {
                desk: self.desk,
                waiting: self.waiting,
                count: self.count + 1,
                waits: false,
            }),
            Err(_) => Err(self.stop(Fault::WriteFailed)),
        }
    }

    /// The desk.
    pub(crate) fn into_desk(self) -> Desk<A, L>
        ensures { result ≡ self.desk }
    {
        self.desk
    }
}

/// An epoch is added to the journal and kept, run, and answered.
fn settle_as<A: Settles + Drop, L: Log + Drop, K: Sink>(
    alloc: Global,
    desk: Desk<A, L>,
    count: u64,
    line: &[u8],
    epoch: &Epoch<Kept<A::Args>>,
    sink: &mut K,
) -> Result<Sitting<A, L>, Refused<L>>
where
    A::Args: Operation,
    A::Reply: Printed,
    requires first { NeedsFirst A.Args.grammar A.meaning }
    requires one_line { has_break line.now ≡ false }
    requires in_range { count ≤ MOST_EPOCHS }
    ensures ok { IfOk result (λ s. (said : List ℕ) × Commits A.meaning A.Reply.printed desk line.now (all_listed epoch.now) s.desk [] said × Appends (K.taken sink.old) (K.taken sink.new) said) }
    ensures rests { IfOk result (λ s. s ≡ record { desk = s.desk; waiting = gathered desk.setting.partitions []; count = count; waits = false }) }
    // Nothing was printed; or a part of the answers, of an epoch that is kept.
    ensures err { IfErr result (λ s. (Becomes (option_map (λ ls. (ls, ls ++ line.now ∷ [])) desk.lines) (L.told s.log) × (K.taken sink.new ≡ K.taken sink.old))
        ⊎ ((d : Standing A.Row) × (said : List ℕ) × (n : ℕ) × Commits A.meaning A.Reply.printed desk line.now (all_listed epoch.now) d [] said
        × Appends (K.taken sink.old) (K.taken sink.new) (take n said) × Becomes (option_map (λ ls. (ls, ls)) d.lines) (L.told s.log))) }
    ensures no_failure { IfOk result (λ s. (s.desk.failures ≡ desk.failures) × (K.failures sink.new ≡ K.failures sink.old)) }
    ensures blame { IfErr result (λ s. IsBlamed s.fault desk.failures (L.failures s.log) (K.failures sink.old) (K.failures sink.new)) }
    ensures unread { IfErr result (λ s. s.fault ≢ ReadFailed) }
{
    let mut text = Vec::new(alloc);
    match desk.commit(alloc, line, epoch, &mut text) {
        Ok(desk) => match write_all(sink, &text) {
            Ok(()) => Sitting::new(alloc, desk, count),
            Err(_) => Err(Refused {
                fault: Fault::WriteFailed,
                log: desk.into_log(),
            }),
        },
        Err(stopped) => Err(stopped),
    }
}
