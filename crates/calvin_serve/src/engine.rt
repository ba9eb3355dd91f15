//! The engine `serve`.
ghost use Rattle.std.specs.Prelude.{◌≡◌, ◌≢◌, ◌+◌, ◌++◌, ℕ, List, [], Option, Result, false, IfOk, IfErr, IfSome, map};
ghost use mathlib.Core.List.{IsPrefix};
ghost use Rattle.calvin_types.specs.declared.fault.Fault.{Fault as SomeFault};
ghost use Rattle.calvin_types.specs.declared.fault.Fault.TheVariants.{ReadFailed};
ghost use Rattle.calvin_serial.specs.FirstSets.{NeedsFirst};
ghost use Rattle.calvin_serve_lines.specs.Asking.{Asked as TheAsked, request_line};
ghost use Rattle.calvin_serve_lines.specs.declared.limits.TheConstants.{MOST_LINE_BYTES};
ghost use Rattle.calvin_serve_desk.specs.Desks.{Standing};
ghost use Rattle.calvin_serve_input.specs.Inputs.{input_lines, coming};
ghost use Rattle.calvin_serve.specs.Blame.{IsBlamed};
ghost use Rattle.calvin_serve.specs.Serving.{Serves, Follows, Ends, ServesInput, EndsInput, Takes, TakesInPart};

use crate::sitting::Sitting;
use calvin_app::Settles;
use calvin_edge::{Sink, Source};
use calvin_journal::Refused;
use calvin_journal_log::Log;
use calvin_script::Operation;
use calvin_serve_desk::Desk;
use calvin_serve_input::Input;
use calvin_serve_lines::MOST_LINE_BYTES;
use calvin_text::Printed;
use calvin_types::Fault;
use std::alloc::Global;

/// The most reads of an input.
const MOST_READS: u64 = u64::MAX;

/// Answers the requests of an input, a line each, to its end. What has come is one epoch, of at most 256 requests of a group; it is
/// added to the journal and kept there before it is run, and its answers go out before more is read. A line that is no request is
/// refused in its turn, and is no event.
///
/// Ended before the input does: by a journal that can't go on, a device that failed, or for want of memory. Then no answer is out of
/// an epoch that isn't kept, and beside those that were answered the journal may have one epoch more.
pub fn serve<A: Settles + Drop, L: Log + Drop, S: Source, K: Sink>(
    alloc: Global,
    desk: Desk<A, L>,
    source: &mut S,
    sink: &mut K,
) -> Result<Desk<A, L>, Refused<L>>
where
    A::Args: Operation,
    A::Reply: Printed,
    requires first { NeedsFirst A.Args.grammar A.meaning }
    // All lines were dealt with.
    ensures ok { IfOk result (λ now. (lines : List (Result (TheAsked A.Args) SomeFault))
        × Serves A.meaning A.Reply.printed A.Args.grammar desk (K.taken sink.old) lines now (K.taken sink.new)
        × IfSome (S.left source.old) (λ bytes. lines ≡ map (request_line A.Args.grammar desk.setting.partitions) (input_lines bytes))) }
    // Or the first so many.
    ensures stopped { IfErr result (λ stopped. (lines : List (Result (TheAsked A.Args) SomeFault))
        × Ends A.meaning A.Reply.printed A.Args.grammar desk (K.taken sink.old) lines (L.told stopped.log) (K.taken sink.new)
        × IfSome (S.left source.old) (λ bytes. IsPrefix lines (map (request_line A.Args.grammar desk.setting.partitions) (input_lines bytes)))) }
    // Which device failed, and that none did but the one that is told.
    ensures no_failure { IfOk result (λ now. (now.failures ≡ desk.failures) × (S.failures source.new ≡ S.failures source.old) × (K.failures sink.new ≡ K.failures sink.old)) }
    ensures blame { IfErr result (λ stopped. IsBlamed stopped.fault desk.failures (L.failures stopped.log) (K.failures sink.old) (K.failures sink.new)) }
    ensures read_failed { IfErr result (λ stopped. stopped.fault ≡ ReadFailed → S.failures source.new ≡ S.failures source.old + 1) }
    ensures read_well { IfErr result (λ stopped. stopped.fault ≢ ReadFailed → S.failures source.new ≡ S.failures source.old) }
{
    match Sitting::new(alloc, desk, 0) {
        Ok(sitting) => match Input::new(alloc, MOST_LINE_BYTES + 1) {
            Ok(input) => serve_input(alloc, sitting, input, source, sink),
            Err(_) => Err(sitting.stop(Fault::OutOfMemory)),
        },
        Err(stopped) => Err(stopped),
    }
}

/// Deals with an input, piece after piece as it comes.
fn serve_input<A: Settles + Drop, L: Log + Drop, S: Source, K: Sink>(
    alloc: Global,
    sitting: Sitting<A, L>,
    input: Input,
    source: &mut S,
    sink: &mut K,
) -> Result<Desk<A, L>, Refused<L>>
where
    A::Args: Operation,
    A::Reply: Printed,
    requires first { NeedsFirst A.Args.grammar A.meaning }
    requires most { input.most ≡ MOST_LINE_BYTES + 1 }
    ensures ok { IfOk result (λ desk. (old : Standing A.Row) → (out : Option (List ℕ)) → Follows A.meaning A.Reply.printed A.Args.grammar old out [] sitting (K.taken sink.old)
        → ServesInput A.meaning A.Reply.printed A.Args.grammar old out input (S.left source.old) desk (K.taken sink.new)) }
    ensures err { IfErr result (λ stopped. (old : Standing A.Row) → (out : Option (List ℕ)) → Follows A.meaning A.Reply.printed A.Args.grammar old out [] sitting (K.taken sink.old)
        → EndsInput A.meaning A.Reply.printed A.Args.grammar old out input (S.left source.old) (L.told stopped.log) (K.taken sink.new)) }
    ensures no_failure { IfOk result (λ desk. (desk.failures ≡ sitting.desk.failures) × (S.failures source.new ≡ S.failures source.old) × (K.failures sink.new ≡ K.failures sink.old)) }
    ensures blame { IfErr result (λ stopped. IsBlamed stopped.fault sitting.desk.failures (L.failures stopped.log) (K.failures sink.old) (K.failures sink.new)) }
    ensures read_failed { IfErr result (λ stopped. stopped.fault ≡ ReadFailed → S.failures source.new ≡ S.failures source.old + 1) }
    ensures read_well { IfErr result (λ stopped. stopped.fault ≢ ReadFailed → S.failures source.new ≡ S.failures source.old) }
{
    let mut sitting = sitting;
    let mut input = input;
    let mut line = Vec::new(alloc);
    'reads: for _ in 0..MOST_READS {
        match take_lines(alloc, sitting, &mut input, &mut line, sink) {
            Ok(taken) => sitting = taken,
            Err(stopped) => return Err(stopped),
        }
        match input.read(source) {
            Ok(true) => {}
            Ok(false) => return finish(alloc, sitting, &mut input, &mut line, sink),
            Err(_) => return Err(sitting.stop(Fault::ReadFailed)),
        }
    }
    Err(sitting.stop(Fault::EpochsSpent))
}

/// Deals with all lines that were read; the requests among them that wait then are an epoch.
fn take_lines<A: Settles + Drop, L: Log + Drop, K: Sink>(
    alloc: Global,
    sitting: Sitting<A, L>,
    input: &mut Input,
    line: &mut Vec<u8>,
    sink: &mut K,
) -> Result<Sitting<A, L>, Refused<L>>
where
    A::Args: Operation,
    A::Reply: Printed,
    requires first { NeedsFirst A.Args.grammar A.meaning }
    ensures ok { IfOk result (λ s. Takes A.meaning A.Reply.printed A.Args.grammar input.old input.new sitting (K.taken sink.old) s (K.taken sink.new)) }
    ensures rests { IfOk result (λ s. (s.waits ≡ false) × (input.new.ahead ≡ []) × (input.new.most ≡ input.old.most)) }
    ensures err { IfErr result (λ stopped. TakesInPart A.meaning A.Reply.printed A.Args.grammar input.old sitting (K.taken sink.old) (L.told stopped.log) (K.taken sink.new)) }
    ensures no_failure { IfOk result (λ s. (s.desk.failures ≡ sitting.desk.failures) × (K.failures sink.new ≡ K.failures sink.old)) }
    ensures blame { IfErr result (λ stopped. IsBlamed stopped.fault sitting.desk.failures (L.failures stopped.log) (K.failures sink.old) (K.failures sink.new)) }
    ensures unread { IfErr result (λ stopped. stopped.fault ≢ ReadFailed) }
{
    let mut sitting = sitting;
    'lines: loop {
        match input.next_line(line) {
            Ok(true) => match sitting.take_line(alloc, line, sink) {
                Ok(taken) => sitting = taken,
                Err(stopped) => return Err(stopped),
            },
            Ok(false) => return sitting.settle(alloc, sink),
            Err(_) => return Err(sitting.stop(Fault::OutOfMemory)),
        }
    }
}

/// Deals with what stands behind the last line feed of an input that is read to its end.
fn finish<A: Settles + Drop, L: Log + Drop, K: Sink>(
    alloc: Global,
    sitting: Sitting<A, L>,
    input: &mut Input,
    line: &mut Vec<u8>,
    sink: &mut K,
) -> Result<Desk<A, L>, Refused<L>>
where
    A::Args: Operation,
    A::Reply: Printed,
    requires first { NeedsFirst A.Args.grammar A.meaning }
    requires read { input.old.ahead ≡ [] }
    requires rests { sitting.waits ≡ false }
    ensures ok { IfOk result (λ desk. (old : Standing A.Row) → (out : Option (List ℕ)) → (lines : List (Result (TheAsked A.Args) SomeFault))
        → Follows A.meaning A.Reply.printed A.Args.grammar old out lines sitting (K.taken sink.old)
        → Serves A.meaning A.Reply.printed A.Args.grammar old out (lines ++ map (request_line A.Args.grammar old.setting.partitions) (coming input.old [])) desk (K.taken sink.new)) }
    ensures err { IfErr result (λ stopped. (old : Standing A.Row) → (out : Option (List ℕ)) → (lines : List (Result (TheAsked A.Args) SomeFault))
        → Follows A.meaning A.Reply.printed A.Args.grammar old out lines sitting (K.taken sink.old)
        → Ends A.meaning A.Reply.printed A.Args.grammar old out (lines ++ map (request_line A.Args.grammar old.setting.partitions) (coming input.old [])) (L.told stopped.log) (K.taken sink.new)) }
    ensures no_failure { IfOk result (λ desk. (desk.failures ≡ sitting.desk.failures) × (K.failures sink.new ≡ K.failures sink.old)) }
    ensures blame { IfErr result (λ stopped. IsBlamed stopped.fault sitting.desk.failures (L.failures stopped.log) (K.failures sink.old) (K.failures sink.new)) }
    ensures unread { IfErr result (λ stopped. stopped.fault ≢ ReadFailed) }
{
    if !input.last_line(line) {
        return Ok(sitting.into_desk());
    }
    match sitting.take_line(alloc, line, sink) {
        Ok(taken) => end(alloc, taken, sink),
        Err(stopped) => Err(stopped),
    }
}

/// The requests that wait, if one does, are the last epoch.
fn end<A: Settles + Drop, L: Log + Drop, K: Sink>(
    alloc: Global,
    sitting: Sitting<A, L>,
    sink: &mut K,
) -> Result<Desk<A, L>, Refused<L>>
where
    A::Args: Operation,
    A::Reply: Printed,
    requires first { NeedsFirst A.Args.grammar A.meaning }
    ensures ok { IfOk result (λ desk. (old : Standing A.Row) → (out : Option (List ℕ)) → (lines : List (Result (TheAsked A.Args) SomeFault))
        → Follows A.meaning A.Reply.printed A.Args.grammar old out lines sitting (K.taken sink.old)
        → Serves A.meaning A.Reply.printed A.Args.grammar old out lines desk (K.taken sink.new)) }
    ensures err { IfErr result (λ stopped. (old : Standing A.Row) → (out : Option (List ℕ)) → (lines : List (Result (TheAsked A.Args) SomeFault))
        → Follows A.meaning A.Reply.printed A.Args.grammar old out lines sitting (K.taken sink.old)
        → Ends A.meaning A.Reply.printed A.Args.grammar old out lines (L.told stopped.log) (K.taken sink.new)) }
    ensures no_failure { IfOk result (λ desk. (desk.failures ≡ sitting.desk.failures) × (K.failures sink.new ≡ K.failures sink.old)) }
    ensures blame { IfErr result (λ stopped. IsBlamed stopped.fault sitting.desk.failures (L.failures stopped.log) (K.failures sink.old) (K.failures sink.new)) }
    ensures unread { IfErr result (λ stopped. stopped.fault ≢ ReadFailed) }
{
    match sitting.settle(alloc, sink) {
        Ok(settled) => Ok(settled.into_desk()),
        Err(stopped) => Err(stopped),
    }
}
