//! Journals that are compacted.
use crate::checks::same;
use crate::journals::{OneJournal, journal, prints, refuses, run};
use calvin_journal_log::Access;
use calvin_types::Fault;
use std::alloc::Global;
use std::process::Abort;

const SERVE: &[&str] = &["calvin", "serve", "--journal", "j"];

const COMPACT: &[&str] = &["calvin", "serve", "--journal", "j", "--compact"];

const REPLAY: &[&str] = &["calvin", "serve", "--journal", "j", "--replay"];

/// Two epochs: 100 is put under key 1 and 3 under key 0, and 25 is added to the first.
const TWO: &[u8] = b"{\"journal\":1,\"partitions\":1,\"app\":\"kv\",\"scout\":false}\n\
    [{\"group\":0,\"txns\":[{\"client\":7,\"number\":1,\"op\":[\"put\",1,100]},{\"client\":7,\"number\":2,\"op\":[\"put\",0,3]}]}]\n\
    [{\"group\":0,\"txns\":[{\"client\":8,\"number\":1,\"op\":[\"add\",1,25]}]}]\n";

/// What it is when it was compacted.
const ROWS: &[u8] = b"{\"journal\":1,\"partitions\":1,\"app\":\"kv\",\"scout\":false}\n\
    [\"rows\",2,2]\n[0,0,3]\n[0,1,125]\n";

/// The words are run over a journal with these bytes and an input; this is printed, and these bytes have replaced the journal.
fn compacts(
    rt: &impl Abort,
    alloc: Global,
    words: &[&str],
    bytes: &[u8],
    input: &[u8],
    text: &[u8],
    anew: &[u8],
) {
    let ended = run(alloc, words, journal(alloc, bytes), input);
    same(rt, ended.output.as_slice(), text);
    same(rt, ended.error.as_slice(), b"".as_slice());
    same(rt, ended.status, 0);
    same(rt, ended.access, Some(Access::Add));
    same(rt, ended.log.left(0), anew);
}

#[test]
fn a_journal_begins_with_its_rows(rt: HostRuntime) {
    let alloc = rt.alloc();
    compacts(&rt, alloc, COMPACT, TWO, b"", b"finished 1\n", ROWS);
    compacts(&rt, alloc, COMPACT, ROWS, b"", b"finished 1\n", ROWS);
    let none = b"{\"journal\":1,\"partitions\":1,\"app\":\"kv\",\"scout\":false}\n[\"rows\",0,0]\n";
    compacts(&rt, alloc, COMPACT, b"", b"", b"finished none\n", none);
    let get = b"{\"client\":8,\"number\":2,\"op\":[\"get\",[0,1]]}\n";
    let text = b"2.0 8:2 value 3 value 125\nfinished 2\n";
    compacts(&rt, alloc, COMPACT, TWO, get, text, ROWS);
    prints(&rt, alloc, SERVE, ROWS, get, text);
}

#[test]
fn a_replay_prints_what_was_answered_since(rt: HostRuntime) {
    let alloc = rt.alloc();
    prints(&rt, alloc, REPLAY, ROWS, b"", b"finished 1\n");
    let later = b"{\"journal\":1,\"partitions\":1,\"app\":\"kv\",\"scout\":false}\n\
        [\"rows\",2,2]\n[0,0,3]\n[0,1,125]\n\
        [{\"group\":0,\"txns\":[{\"client\":8,\"number\":3,\"op\":[\"move\",1,0,5]}]}]\n\
        [{\"group\":0,\"txns\":[{\"client\":8,\"number\":4,\"op\":[\"get\",[0,1]]}]}]\n";
    let text = b"2.0 8:3 done\n3.0 8:4 value 8 value 120\nfinished 3\n";
    prints(&rt, alloc, REPLAY, later, b"", text);
}

#[test]
fn the_rows_of_each_application(rt: HostRuntime) {
    let alloc = rt.alloc();
    let asked = b"{\"client\":2,\"number\":1,\"op\":[\"open\",9]}\n\
        {\"client\":2,\"number\":2,\"op\":[\"payin\",9,300]}\n\
        {\"client\":2,\"number\":3,\"op\":[\"additem\",4,10,25]}\n\
        {\"client\":2,\"number\":4,\"op\":[\"order\",9,6,[[4,2]]]}\n";
    let answered = b"0.0 2:1 done\n0.1 2:2 done\n0.2 2:3 done\n0.3 2:4 ordered 50\nfinished 0\n";
    let heading = b"{\"journal\":1,\"partitions\":1,\"app\":\"stock\",\"scout\":false}\n\
        [{\"group\":0,\"txns\":[{\"client\":2,\"number\":1,\"op\":[\"open\",9]},\
        {\"client\":2,\"number\":2,\"op\":[\"payin\",9,300]},\
        {\"client\":2,\"number\":3,\"op\":[\"additem\",4,10,25]},\
        {\"client\":2,\"number\":4,\"op\":[\"order\",9,6,[[4,2]]]}]}]\n";
    let rows =
        b"{\"journal\":1,\"partitions\":1,\"app\":\"stock\",\"scout\":false}\n[\"rows\",1,3]\n\
        [1,9,[\"customer\",300,6]]\n[2,4,[\"item\",8,25]]\n[3,6,[\"order\",9,50,false]]\n";
    let words = ["calvin", "serve", "--app=stock", "--journal=j", "--compact"];
    prints(&rt, alloc, &words, b"", asked, answered);
    compacts(&rt, alloc, &words, heading, b"", b"finished 0\n", rows);
    let once = ["calvin", "serve", "--app=once", "--journal=j", "--compact"];
    let heading = b"{\"journal\":1,\"partitions\":1,\"app\":\"once\",\"scout\":false}\n\
        [{\"group\":0,\"txns\":[{\"client\":0,\"number\":1,\"op\":[\"open\",9]},\
        {\"client\":0,\"number\":2,\"op\":[\"balance\",9]}]}]\n";
    let rows =
        b"{\"journal\":1,\"partitions\":1,\"app\":\"once\",\"scout\":false}\n[\"rows\",1,3]\n\
        [1,9,[\"customer\",0,null]]\n[4,1,[\"reply\",[\"done\"]]]\n[4,2,[\"reply\",[\"cents\",0]]]\n";
    compacts(&rt, alloc, &once, heading, b"", b"finished 0\n", rows);
    // A kept reply is told again, and nothing is opened twice.
    let again = b"{\"client\":0,\"number\":2,\"op\":[\"open\",9]}\n";
    compacts(
        &rt,
        alloc,
        &once,
        rows,
        again,
        b"1.0 0:2 cents 0\nfinished 1\n",
        rows,
    );
}

/// The words are refused so, and the journal is as it was.
fn stays(rt: &impl Abort, alloc: Global, mut old: OneJournal, status: u8, told: &[u8]) {
    old.log.synced = old.log.size;
    let ended = run(alloc, COMPACT, old, b"");
    same(rt, (told, ended.status), (told, status));
    same(rt, (told, ended.error.as_slice()), (told, told));
    same(rt, (told, ended.output.as_slice()), (told, b"".as_slice()));
    same(rt, (told, ended.log.left(0)), (told, TWO));
}

#[test]
fn a_journal_that_can_not_be_replaced_stays(rt: HostRuntime) {
    let alloc = rt.alloc();
    let mut old = journal(alloc, TWO);
    old.blocked = Some(Fault::JournalInUse);
    stays(&rt, alloc, old, 5, b"calvin: 94 JournalInUse\n");
    let mut old = journal(alloc, TWO);
    old.blocked = Some(Fault::JournalFailed);
    stays(&rt, alloc, old, 5, b"calvin: 97 JournalFailed\n");
    let mut old = journal(alloc, TWO);
    old.fixed = Some(Fault::JournalFailed);
    stays(&rt, alloc, old, 5, b"calvin: 97 JournalFailed\n");
}

#[test]
fn a_line_asks_for_one_thing(rt: HostRuntime) {
    let words = ["calvin", "serve", "--journal", "j", "--compact", "--replay"];
    let old = journal(rt.alloc(), TWO);
    refuses(&rt, rt.alloc(), &words, old, 2, b"calvin: bad line\n");
}
