//! Sessions of a service, each from the bytes that come in.
use crate::checks::same;
use calvin_app::{Kv, Serial};
use calvin_edge::{FailingSource, MemorySink};
use calvin_journal::Opening;
use calvin_journal_log::MemoryLog;
use calvin_serial::UndeclaredSets;
use calvin_serve::serve;
use calvin_serve_desk::{Desk, Setting};
use std::alloc::Global;
use std::process::Abort;
use std::test::Fail;

/// The first line of the journals.
const HEADING: &[u8] = b"journal";

/// What came of a service: what it printed, whether it came to the end of its input, and its log.
#[derive(Drop)]
pub(crate) struct Served {
    pub text: Vec<u8>,
    pub is_whole: bool,
    pub log: MemoryLog,
}

/// An empty log.
pub(crate) fn empty(alloc: Global) -> MemoryLog {
    MemoryLog::new(Vec::new(alloc))
}

/// Serves an input, with a new journal in a log and for two partitions.
pub(crate) fn serve_all(alloc: Global, log: MemoryLog, source: &mut FailingSource<'_>) -> Served {
    let setting = Setting {
        partitions: 2,
        sets: UndeclaredSets::First,
    };
    let nothing = Vec::new(alloc);
    let mut opening = match Opening::begin(alloc, log, HEADING) {
        Ok(opening) => opening,
        Err(refused) => {
            return Served {
                text: nothing,
                is_whole: false,
                log: refused.log,
            };
        }
    };
    let mut line = Vec::new(alloc);
    let Ok(false) = opening.next_line(alloc, &mut line) else {
        return Served {
            text: nothing,
            is_whole: false,
            log: opening.into_log(),
        };
    };
    let journal = match opening.finish() {
        Ok(journal) => journal,
        Err(refused) => {
            return Served {
                text: nothing,
                is_whole: false,
                log: refused.log,
            };
        }
    };
    let desk = Desk::new(Kv, setting, Serial::new(alloc, Kv), 0, journal);
    let mut sink = MemorySink::new(alloc);
    match serve(alloc, desk, source, &mut sink) {
        Ok(desk) => Served {
            text: sink.taken,
            is_whole: true,
            log: desk.into_log(),
        },
        Err(stopped) => Served {
            text: sink.taken,
            is_whole: false,
            log: stopped.log,
        },
    }
}

/// The input is answered so, and its epochs are these lines of the journal.
fn check(
    rt: &impl Abort,
    alloc: Global,
    source: &mut FailingSource<'_>,
    text: &str,
    journal: &str,
) {
    let served = serve_all(alloc, empty(alloc), source);
    same(rt, served.is_whole, true);
    same(rt, served.text.as_slice(), text.as_bytes());
    same(rt, served.log.bytes.as_slice(), journal.as_bytes());
}

#[test]
fn three_lines_in_three_out(rt: HostRuntime) {
    let lines = "{\"client\":2,\"number\":1,\"op\":[\"put\",1,7]}\n\
        {\"client\":2,\"number\":2,\"op\":[\"get\",[1]]}\n\
        {\"number\":1,\"client\":4,\"op\":[\"add\",1,3]}\n";
    check(
        &rt,
        rt.alloc(),
        &mut FailingSource::new(lines.as_bytes()),
        "0.0 2:1 done\n0.1 2:2 value 7\n0.2 4:1 value 10\n",
        "journal\n[{\"group\":0,\"txns\":[{\"client\":2,\"number\":1,\"op\":[\"put\",1,7]},\
        {\"client\":2,\"number\":2,\"op\":[\"get\",[1]]},{\"client\":4,\"number\":1,\"op\":[\"add\",1,3]}]}]\n",
    );
}

#[test]
fn groups_by_client_or_as_they_say(rt: HostRuntime) {
    let lines = "{\"client\":1,\"number\":1,\"op\":[\"put\",1,7]}\n\
        {\"client\":2,\"number\":1,\"op\":[\"put\",2,8]}\n\
        {\"client\":1,\"number\":2,\"op\":[\"get\",[1]],\"group\":0}\n";
    check(
        &rt,
        rt.alloc(),
        &mut FailingSource::new(lines.as_bytes()),
        "0.0 2:1 done\n0.1 1:2 none\n0.2 1:1 done\n",
        "journal\n[{\"group\":0,\"txns\":[{\"client\":2,\"number\":1,\"op\":[\"put\",2,8]},\
        {\"client\":1,\"number\":2,\"op\":[\"get\",[1]]}]},\
        {\"group\":1,\"txns\":[{\"client\":1,\"number\":1,\"op\":[\"put\",1,7]}]}]\n",
    );
}

#[test]
fn a_line_that_is_no_request_is_refused_in_its_turn(rt: HostRuntime) {
    let lines = "{\"client\":2,\"number\":1,\"op\":[\"put\",1,7]}\n\
        no JSON\n\
        {\"client\":2,\"number\":2}\n\
        \n\
        {\"client\":2,\"number\":3,\"op\":[\"get\",[]]}\n\
        {\"client\":2,\"number\":4,\"attempt\":9,\"op\":[\"get\",[1]]}\n\
        {\"client\":2,\"number\":5,\"op\":[\"get\",[1]]}";
    check(
        &rt,
        rt.alloc(),
        &mut FailingSource::new(lines.as_bytes()),
        "0.0 2:1 done\nline 2 refused 90 BadJson\nline 3 refused 91 BadScript\nline 4 refused 90 BadJson\n\
        line 5 refused 31 EmptySets\nline 6 refused 32 TooManyAttempts\n1.0 2:5 value 7\n",
        "journal\n[{\"group\":0,\"txns\":[{\"client\":2,\"number\":1,\"op\":[\"put\",1,7]}]}]\n\
        [{\"group\":0,\"txns\":[{\"client\":2,\"number\":5,\"op\":[\"get\",[1]]}]}]\n",
    );
}

#[test]
fn what_has_come_is_one_epoch(rt: HostRuntime) {
    let lines = "{\"client\":2,\"number\":1,\"op\":[\"put\",1,7]}\n\
        {\"client\":2,\"number\":2,\"op\":[\"add\",1,1]}\n\
        {\"client\":2,\"number\":3,\"op\":[\"add\",1,1]}\n";
    let mut source = FailingSource::new(lines.as_bytes());
    // The first two lines have 80 bytes; the third one comes in two pieces.
    source.most = 90;
    check(
        &rt,
        rt.alloc(),
        &mut source,
        "0.0 2:1 done\n0.1 2:2 value 8\n1.0 2:3 value 9\n",
        "journal\n[{\"group\":0,\"txns\":[{\"client\":2,\"number\":1,\"op\":[\"put\",1,7]},\
        {\"client\":2,\"number\":2,\"op\":[\"add\",1,1]}]}]\n\
        [{\"group\":0,\"txns\":[{\"client\":2,\"number\":3,\"op\":[\"add\",1,1]}]}]\n",
    );
}

#[test]
fn nothing_in_nothing_out(rt: HostRuntime) {
    check(
        &rt,
        rt.alloc(),
        &mut FailingSource::new(b""),
        "",
        "journal\n",
    );
}

#[test]
fn a_line_too_long_is_passed_over(rt: HostRuntime) -> Result<(), Fail> {
    let mut lines = Vec::new(rt.alloc());
    lines.resize(200_000, b' ')?;
    lines.extend_from_slice(b"\n{\"client\":2,\"number\":1,\"op\":[\"put\",1,7]}\n")?;
    check(
        &rt,
        rt.alloc(),
        &mut FailingSource::new(&lines),
        "line 1 refused 90 BadJson\n0.0 2:1 done\n",
        "journal\n[{\"group\":0,\"txns\":[{\"client\":2,\"number\":1,\"op\":[\"put\",1,7]}]}]\n",
    );
    Ok(())
}
