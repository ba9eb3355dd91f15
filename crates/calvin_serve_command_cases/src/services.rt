//! Services and replays.
use crate::checks::same;
use crate::journals::{journal, prints, refuses, run};
use calvin_journal_log::Access;
use calvin_types::Fault;

const SERVE: &[&str] = &["calvin", "serve", "--journal", "j"];

const REPLAY: &[&str] = &["calvin", "serve", "--journal", "j", "--replay"];

/// Two epochs: 100 is put under key 1, and 25 is added to it.
const TWO: &[u8] = b"{\"journal\":1,\"partitions\":1,\"app\":\"kv\",\"scout\":false}\n\
    [{\"group\":0,\"txns\":[{\"client\":7,\"number\":1,\"op\":[\"put\",1,100]}]}]\n\
    [{\"group\":0,\"txns\":[{\"client\":8,\"number\":1,\"op\":[\"add\",1,25]}]}]\n";

#[test]
fn a_new_journal(rt: HostRuntime) {
    let input = b"{\"client\":7,\"number\":1,\"op\":[\"put\",1,100]}\n\
        {\"client\":8,\"number\":1,\"op\":[\"add\",1,25]}\n\
        {\"client\":8,\"number\":1\n";
    let text = b"0.0 7:1 done\n0.1 8:1 value 125\nline 3 refused 90 BadJson\nfinished 0\n";
    prints(&rt, rt.alloc(), SERVE, b"", input, text);
    prints(&rt, rt.alloc(), SERVE, b"", b"", b"finished none\n");
}

#[test]
fn a_journal_is_gone_on_with(rt: HostRuntime) {
    let input = b"{\"client\":8,\"number\":2,\"op\":[\"get\",[1]]}";
    prints(
        &rt,
        rt.alloc(),
        SERVE,
        TWO,
        input,
        b"2.0 8:2 value 125\nfinished 2\n",
    );
    prints(&rt, rt.alloc(), SERVE, TWO, b"", b"finished 1\n");
}

#[test]
fn a_replay_prints_what_was_answered(rt: HostRuntime) {
    let text = b"0.0 7:1 done\n1.0 8:1 value 125\nfinished 1\n";
    prints(&rt, rt.alloc(), REPLAY, TWO, b"no line is read", text);
    prints(&rt, rt.alloc(), REPLAY, b"", b"", b"finished none\n");
    let ended = run(rt.alloc(), REPLAY, journal(rt.alloc(), TWO), b"");
    same(&rt, ended.access, Some(Access::Read));
    let ended = run(rt.alloc(), SERVE, journal(rt.alloc(), TWO), b"");
    same(&rt, ended.access, Some(Access::Add));
}

#[test]
fn each_application_has_its_journal(rt: HostRuntime) {
    let pay = b"{\"client\":2,\"number\":1,\"op\":[\"open\",9]}\n\
        {\"client\":2,\"number\":2,\"op\":[\"payin\",9,300]}\n\
        {\"client\":2,\"number\":2,\"op\":[\"payin\",9,300]}\n\
        {\"client\":2,\"number\":3,\"op\":[\"balance\",9]}\n";
    let stock = ["calvin", "serve", "--app", "stock", "--journal", "j"];
    prints(
        &rt,
        rt.alloc(),
        &stock,
        b"{\"journal\":1,\"partitions\":1,\"app\":\"stock\",\"scout\":false}\n",
        pay,
        b"0.0 2:1 done\n0.1 2:2 done\n0.2 2:2 done\n0.3 2:3 cents 600\nfinished 0\n",
    );
    let once = [
        "calvin",
        "serve",
        "--app=once",
        "--partitions=2",
        "--journal=j",
    ];
    prints(
        &rt,
        rt.alloc(),
        &once,
        b"{\"journal\":1,\"partitions\":2,\"app\":\"once\",\"scout\":false}\n",
        pay,
        b"0.0 2:1 done\n0.1 2:2 done\n0.2 2:2 done\n0.3 2:3 cents 300\nfinished 0\n",
    );
}

#[test]
fn scouted_sets_are_those_before_the_epoch(rt: HostRuntime) {
    let lines = b"{\"client\":7,\"number\":1,\"op\":[\"follow\",5]}\n";
    let heading = b"{\"journal\":1,\"partitions\":1,\"app\":\"kv\",\"scout\":true}\n\
        [{\"group\":0,\"txns\":[{\"client\":7,\"number\":8,\"op\":[\"put\",5,6]},{\"client\":7,\"number\":9,\"op\":[\"put\",6,70]}]}]\n";
    let words = ["calvin", "serve", "--journal", "j", "--scout"];
    prints(
        &rt,
        rt.alloc(),
        &words,
        heading,
        lines,
        b"1.0 7:1 value 70\nfinished 1\n",
    );
}

#[test]
fn journals_that_are_refused(rt: HostRuntime) {
    let alloc = rt.alloc();
    let two = ["calvin", "serve", "--journal", "j", "--partitions", "2"];
    refuses(
        &rt,
        alloc,
        &two,
        journal(alloc, TWO),
        2,
        b"calvin: 93 NotAJournal\n",
    );
    let torn = &TWO[..TWO.len().saturating_sub(3)];
    if let Ok(mut middle) = torn.to_vec(alloc) {
        if middle.extend_from_slice(b"\n").is_ok() {
            let middle = journal(alloc, &middle);
            refuses(&rt, alloc, SERVE, middle, 2, b"calvin: 93 NotAJournal\n");
        }
    }
    for (fault, status, told) in [
        (
            Fault::NotAJournal,
            2u8,
            b"calvin: 93 NotAJournal\n".as_slice(),
        ),
        (Fault::JournalInUse, 5, b"calvin: 94 JournalInUse\n"),
        (Fault::JournalFailed, 5, b"calvin: 97 JournalFailed\n"),
    ] {
        let mut none = journal(alloc, b"");
        none.refused = Some(fault);
        refuses(&rt, alloc, SERVE, none, status, told);
    }
}
