//! The command line as clap sees it.
ghost use Rattle.std.specs.Prelude.{◌≡◌, codes, false, IfOk};
ghost use Rattle.clap.specs.declared.builder.command.Command.TheViews.{out-Command as fields_of};
ghost use Rattle.clap.specs.Words.{app_of, rule_of};
ghost use Rattle.calvin_command.specs.Line.{scout_flag, restarts_flag, repeat_flag, start_option, steps_option, replicas_option, lose_option, workers_option, wide_flag, serial_app, check_app, sim_app, run_app, calvin};

use crate::help::{EVENTS_HELP, RUN_HELP, SCRIPT_HELP, SIM_HELP, STATUS_HELP};
use calvin_cluster::MOST_WORKERS;
use calvin_options::{flag, number_option, optional_number};
use calvin_sim_events::MOST_STEPS;
use calvin_types::MOST_REPLICAS;
use clap::{Arg, Command};
use std::alloc::{AllocError, Global};

/// The flag `--scout` of `serial`.
fn scout_flag<'a>(alloc: Global) -> Arg<'a>
    ensures rule { rule_of result ≡ scout_flag }
    ensures local { result.global ≡ false }
{
    flag(alloc, "scout").help("Finds undeclared sets over the rows as they stand before the epoch")
}

/// The flag `--restarts` of `sim`.
fn restarts_flag<'a>(alloc: Global) -> Arg<'a>
    ensures rule { rule_of result ≡ restarts_flag }
    ensures local { result.global ≡ false }
{
    flag(alloc, "restarts").help(
        "Nodes of the replicas above 0 restart, points are opened, and rows cool, now and then",
    )
}

/// The flag `--repeat` of `sim`.
fn repeat_flag<'a>(alloc: Global) -> Arg<'a>
    ensures rule { rule_of result ≡ repeat_flag }
    ensures local { result.global ≡ false }
{
    flag(alloc, "repeat").help(
        "Each packet that is there at the beginning of a round is delivered again in it",
    )
}

/// The option `--start` of `sim`.
fn start_option<'a>(alloc: Global) -> Arg<'a>
    ensures rule { rule_of result ≡ start_option }
    ensures local { result.global ≡ false }
{
    number_option(alloc, "start", 0, u64::MAX, "1").help("The number from which events are drawn")
}

/// The option `--steps` of `sim`.
fn steps_option<'a>(alloc: Global) -> Arg<'a>
    ensures rule { rule_of result ≡ steps_option }
    ensures local { result.global ≡ false }
{
    number_option(alloc, "steps", 0, u64::from(MOST_STEPS), "1000").help(
        "How many events are drawn, at most 100000",
    )
}

/// The option `--replicas` of `sim` and `run`.
fn replicas_option<'a>(alloc: Global) -> Arg<'a>
    ensures rule { rule_of result ≡ replicas_option }
    ensures local { result.global ≡ false }
{
    number_option(alloc, "replicas", 1, u64::from(MOST_REPLICAS), "3").help(
        "How many replicas there are, 1 to 7",
    )
}

/// The option `--lose` of `sim`.
fn lose_option<'a>(alloc: Global) -> Arg<'a>
    ensures rule { rule_of result ≡ lose_option }
    ensures local { result.global ≡ false }
{
    optional_number(alloc, "lose", 1, u64::from(MOST_REPLICAS) - 1).help(
        "Of which replica all packets are lost, 1 to one less than there are replicas",
    )
}

/// The option `--workers` of `run`.
fn workers_option<'a>(alloc: Global) -> Arg<'a>
    ensures rule { rule_of result ≡ workers_option }
    ensures local { result.global ≡ false }
{
    number_option(alloc, "workers", 1, MOST_WORKERS as u64, "4").help(
        "How many threads run requests, 1 to 16",
    )
}

/// The flag `--wide` of `run`.
fn wide_flag<'a>(alloc: Global) -> Arg<'a>
    ensures rule { rule_of result ≡ wide_flag }
    ensures local { result.global ≡ false }
{
    flag(alloc, "wide").help(
        "Each node has a lock of its own, and one list of events is made of what each did",
    )
}

/// The subcommand `serial`.
fn serial_line<'a>(alloc: Global) -> Result<Command<'a>, AllocError>
    ensures app { IfOk result (λ c. app_of c ≡ serial_app) }
    ensures local { IfOk result (λ c. (fields_of c).has_globals ≡ false) }
{
    Command::new(alloc, "serial")
        .about("Runs a script one request at a time and prints what each was answered")
        .after_help(SCRIPT_HELP)
        .arg(scout_flag(alloc))
}

/// The subcommand `check`.
fn check_line<'a>(alloc: Global) -> Command<'a>
    ensures app { app_of result ≡ check_app }
    ensures local { (fields_of result).has_globals ≡ false }
{
    Command::new(alloc, "check")
        .about("Runs a list of events in a world and prints what became of them")
        .after_help(EVENTS_HELP)
}

/// The subcommand `sim`.
fn sim_line<'a>(alloc: Global) -> Result<Command<'a>, AllocError>
    ensures app { IfOk result (λ c. app_of c ≡ sim_app) }
    ensures local { IfOk result (λ c. (fields_of c).has_globals ≡ false) }
{
    Command::new(alloc, "sim")
        .about("Runs a script in a world of replicas and prints what each request was answered")
        .after_help(SIM_HELP)
        .arg(start_option(alloc))?
        .arg(steps_option(alloc))?
        .arg(replicas_option(alloc))?
        .arg(restarts_flag(alloc))?
        .arg(repeat_flag(alloc))?
        .arg(lose_option(alloc))
}

/// The subcommand `run`.
fn run_line<'a>(alloc: Global) -> Result<Command<'a>, AllocError>
    ensures app { IfOk result (λ c. app_of c ≡ run_app) }
    ensures local { IfOk result (λ c. (fields_of c).has_globals ≡ false) }
{
    Command::new(alloc, "run")
        .about("Runs a script in a store of threads and prints what each request was answered")
        .after_help(RUN_HELP)
        .arg(replicas_option(alloc))?
        .arg(workers_option(alloc))?
        .arg(wide_flag(alloc))
}

/// The program's command line.
pub(crate) fn line<'a>(alloc: Global) -> Result<Command<'a>, AllocError>
    ensures { IfOk result (λ c. app_of c ≡ calvin) }
{
    let serial = serial_line(alloc)?;
    let sim = sim_line(alloc)?;
    let run = run_line(alloc)?;
    Command::new(alloc, "calvin")
        .about("Calvin: a deterministic, partitioned, replicated transaction store")
        .after_help(STATUS_HELP)
        .subcommand_required(true)
        .subcommand(serial)?
        .subcommand(check_line(alloc))?
        .subcommand(sim)?
        .subcommand(run)
}
