//! Lines of words.
use crate::checks::same;
use crate::journals::{journal, refuses, run};
use calvin_serve_command::is_serve_line;

#[test]
fn bad_lines(rt: HostRuntime) {
    let lines: [&[&str]; 10] = [
        &["calvin", "serve"],
        &["calvin", "serve", "--journal"],
        &["calvin", "serve", "j"],
        &["calvin", "serve", "--journal", "j", "--app", "shop"],
        &["calvin", "serve", "--journal", "j", "--partitions", "0"],
        &["calvin", "serve", "--journal", "j", "--partitions", "17"],
        &["calvin", "serve", "--journal", "j", "--journal", "k"],
        &["calvin", "serve", "--journal", "j", "--scout", "--scout"],
        &["calvin", "serve", "--journal", "j", "--replicas", "3"],
        &["calvin", "serve", "--journal", "j", "k"],
    ];
    for words in lines.iter().copied() {
        let none = journal(rt.alloc(), b"");
        refuses(&rt, rt.alloc(), words, none, 2, b"calvin: bad line\n");
    }
}

/// Whether the bytes are a text in which this part stands.
fn has_text(whole: &[u8], part: &str) -> bool {
    match str::from_utf8(whole) {
        Ok(text) => text.contains(part),
        Err(_) => false,
    }
}

#[test]
fn help_tells_of_journals(rt: HostRuntime) {
    let lines: [&[&str]; 2] = [&["calvin", "serve", "--help"], &["calvin", "serve", "-h"]];
    for words in lines.iter().copied() {
        let ended = run(rt.alloc(), words, journal(rt.alloc(), b""), b"");
        same(&rt, ended.status, 0);
        same(&rt, ended.error.as_slice(), b"".as_slice());
        let parts = [
            "--journal <FILE>",
            "--partitions",
            "--compact",
            "--replay",
            "Statuses:",
        ];
        for part in parts {
            let found = has_text(ended.output.as_slice(), part);
            same(&rt, (part, found), (part, true));
        }
    }
}

#[test]
fn the_second_word_names_the_command(rt: HostRuntime) {
    same(&rt, is_serve_line(&["calvin", "serve"]), true);
    same(&rt, is_serve_line(&["calvin", "serial"]), false);
    same(&rt, is_serve_line(&["serve"]), false);
    same(&rt, is_serve_line(&["calvin", "--help", "serve"]), false);
}
