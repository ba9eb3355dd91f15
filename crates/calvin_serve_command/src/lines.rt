//! The command line as clap sees it.
ghost use Rattle.std.specs.Prelude.{◌≡◌, codes, false, IfOk};
ghost use Rattle.clap.specs.declared.builder.command.Command.TheViews.{out-Command as fields_of};
ghost use Rattle.clap.specs.Words.{app_of, rule_of};
ghost use Rattle.calvin_serve_command.specs.Line.{journal_option, app_option, partitions_option, scout_flag, compact_flag, replay_flag, serve_app, calvin};

use crate::help::SERVE_HELP;
use calvin_options::{flag, number_option};
use calvin_types::MOST_PARTITIONS;
use clap::{Arg, ArgAction, Command};
use std::alloc::{AllocError, Global};

/// The option `--journal`.
fn journal_option<'a>(alloc: Global) -> Arg<'a>
    ensures rule { rule_of result ≡ journal_option }
    ensures local { result.global ≡ false }
{
    Arg::new(alloc, "journal")
        .long("journal")
        .action(ArgAction::Set)
        .value_name("FILE")
        .required(true)
        .help("The file in which all epochs are kept")
}

/// The option `--app`.
fn app_option<'a>(alloc: Global) -> Arg<'a>
    ensures rule { rule_of result ≡ app_option }
    ensures local { result.global ≡ false }
{
    Arg::new(alloc, "app")
        .long("app")
        .action(ArgAction::Set)
        .value_name("APP")
        .default_value("kv")
        .help("The application: kv, stock or once")
}

/// The option `--partitions`.
fn partitions_option<'a>(alloc: Global) -> Arg<'a>
    ensures rule { rule_of result ≡ partitions_option }
    ensures local { result.global ≡ false }
{
    number_option(alloc, "partitions", 1, u64::from(MOST_PARTITIONS), "1").help(
        "How many partitions there are, 1 to 16",
    )
}

/// The flag `--scout`.
fn scout_flag<'a>(alloc: Global) -> Arg<'a>
    ensures rule { rule_of result ≡ scout_flag }
    ensures local { result.global ≡ false }
{
    flag(alloc, "scout").help("Finds undeclared sets over the rows as they stand before the epoch")
}

/// The flag `--compact`.
fn compact_flag<'a>(alloc: Global) -> Arg<'a>
    ensures rule { rule_of result ≡ compact_flag }
    ensures local { result.global ≡ false }
{
    flag(alloc, "compact").help("Has the journal begin with the rows in which its epochs end")
}

/// The flag `--replay`.
fn replay_flag<'a>(alloc: Global) -> Arg<'a>
    ensures rule { rule_of result ≡ replay_flag }
    ensures local { result.global ≡ false }
{
    flag(alloc, "replay").help("Prints what all epochs of the journal were answered")
}

/// The subcommand `serve`.
fn serve_line<'a>(alloc: Global) -> Result<Command<'a>, AllocError>
    ensures app { IfOk result (λ c. app_of c ≡ serve_app) }
    ensures local { IfOk result (λ c. (fields_of c).has_globals ≡ false) }
{
    Command::new(alloc, "serve")
        .about("Keeps requests in a journal as they come, and answers each")
        .after_help(SERVE_HELP)
        .arg(journal_option(alloc))?
        .arg(partitions_option(alloc))?
        .arg(app_option(alloc))?
        .arg(scout_flag(alloc))?
        .arg(compact_flag(alloc))?
        .arg(replay_flag(alloc))
}

/// The program's command line, where it is for `serve`.
pub(crate) fn line<'a>(alloc: Global) -> Result<Command<'a>, AllocError>
    ensures { IfOk result (λ c. app_of c ≡ calvin) }
{
    let serve = serve_line(alloc)?;
    Command::new(alloc, "calvin")
        .about("Calvin: a deterministic, partitioned, replicated transaction store")
        .subcommand_required(true)
        .subcommand(serve)
}
