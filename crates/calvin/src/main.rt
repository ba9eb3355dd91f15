//! The program `calvin`: a deterministic, partitioned, replicated transaction store. `calvin serial` runs a script of
//! epochs one request at a time and prints what each request was answered; `calvin sim` runs one in a world of replicas, and
//! `calvin run` in a store of threads, and both print the same; `calvin check` runs a list of events in a world and prints what
//! became of them. `calvin serve` keeps requests in a journal as they come, and answers each.
#![tactic(auto)]

use calvin_command::command;
use calvin_edge::{InputSource, OutputSink};
use calvin_ending::refuse_words;
use calvin_serve_command::{FileJournals, is_serve_line, serve_command};
use std::process::ExitCode;
use std::{env, io};

fn main(rt: HostRuntime) -> ExitCode {
    let mut input = InputSource::new(rt.stdin());
    let mut output = OutputSink::new(rt.stdout());
    let mut error = OutputSink::new(rt.stderr());
    let status = match words_of(&rt) {
        Ok(words) if is_serve_line(&words) => {
            let mut journals = FileJournals::new(rt);
            serve_command(
                rt.alloc(),
                &words,
                &mut journals,
                &mut input,
                &mut output,
                &mut error,
            )
        }
        Ok(words) => command(rt, rt.alloc(), &words, &mut input, &mut output, &mut error),
        Err(why) => refuse_words(why.kind(), &mut error),
    };
    ExitCode::from(status)
}

/// The words of the command line, the program's name first.
fn words_of(rt: &HostRuntime) -> io::Result<Vec<String>> {
    Ok(env::args(rt)?.collect(rt.alloc())?)
}
