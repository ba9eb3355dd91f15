//! What the words of a line ask for.
ghost use Rattle.std.specs.Prelude.{◌≡◌, map, codes, IfSome, IsSome, Some, if◌then◌else◌};
ghost use Rattle.clap.specs.Words.{found_of, rows_of, subcommand_name_of, subcommand_rows_of};
ghost use Rattle.calvin_serve_command.specs.declared.order.Order.{Order as TheOrder};
ghost use Rattle.calvin_serve_desk.specs.declared.setting.Setting.{Setting as TheSetting};
ghost use Rattle.calvin_options.specs.Options.{has_flag, number_of, rows_found};
ghost use Rattle.calvin_serve_command.specs.Line.{application_named, task_asked, IsOrderOf, IsTaken, IsAsked, IsHelpLine, IsBadLine};
ghost use Rattle.calvin_serve_command.specs.Wishes.{IsFor, IsServe, IsHelp, IsRefused, HasSets};

use crate::lines::line;
use crate::order::{Order, Task};
use calvin_options::{has_flag, number_of};
use calvin_script::AppName;
use calvin_serial::UndeclaredSets;
use calvin_serve_desk::Setting;
use calvin_types::MOST_PARTITIONS;
use clap::error::ErrorKind;
use clap::{ArgMatches, Error};
use std::alloc::Global;
use std::convert::AsStr;

/// What a command line asks for.
pub(crate) enum Wish<'a> {
    /// A service, or what one has answered.
    Serve(Order<'a>),
    /// Help was asked for, and this is its text.
    Help(Error),
}

/// Why a command line asks for nothing.
pub(crate) enum Refusal {
    BadLine,
    OutOfMemory,
}

/// The application of a name.
fn application_named(name: &str) -> Option<AppName>
    ensures { result ≡ application_named name.now }
{
    if name == "kv" {
        return Some(AppName::Kv);
    }
    if name == "stock" {
        return Some(AppName::Stock);
    }
    if name == "once" {
        return Some(AppName::Once);
    }
    None
}

/// The sets of requests that declare none.
fn sets_of(found: &ArgMatches<'_>) -> UndeclaredSets
    ensures { HasSets (rows_of (found_of found.now)) result }
{
    if has_flag(found, "scout") {
        UndeclaredSets::Scouted
    } else {
        UndeclaredSets::First
    }
}

/// What the journal that was found is to be of.
fn setting_of(found: &ArgMatches<'_>) -> Option<Setting>
    ensures ok { IfSome result (λ s. (number_of (codes "partitions") (rows_of (found_of found.now)) ≡ Some s.partitions) × HasSets (rows_of (found_of found.now)) s.sets) }
    ensures some { (setting : TheSetting) → number_of (codes "partitions") (rows_of (found_of found.now)) ≡ Some setting.partitions → IsSome result }
{
    let partitions = u8::try_from(number_of(found, "partitions")?).ok()?;
    if partitions == 0 || partitions > MOST_PARTITIONS {
        return None;
    }
    let sets = sets_of(found);
    Some(Setting { partitions, sets })
}

/// What is to be done with the journal that was found, if it is one thing.
fn task_of(found: &ArgMatches<'_>) -> Option<Task>
    ensures { result ≡ task_asked (has_flag (codes "compact") (rows_of (found_of found.now))) (has_flag (codes "replay") (rows_of (found_of found.now))) }
{
    match (has_flag(found, "compact"), has_flag(found, "replay")) {
        (false, false) => Some(Task::Serve),
        (true, false) => Some(Task::Compact),
        (false, true) => Some(Task::Replay),
        (true, true) => None,
    }
}

/// What was found of `serve` asks for.
fn order_of<'a>(found: &ArgMatches<'a>) -> Option<Order<'a>>
    ensures ok { IfSome result (IsOrderOf (rows_of (found_of found.now))) }
    ensures some { (order : TheOrder) → IsOrderOf (rows_of (found_of found.now)) order → IsSome result }
{
    let name = found.get_str("journal")?;
    let application = application_named(found.get_str("app")?)?;
    let setting = setting_of(found)?;
    let task = task_of(found)?;
    Some(Order {
        name,
        application,
        setting,
        task,
    })
}

/// What the matches of a line ask for.
fn wish_of<'a>(matches: &ArgMatches<'a>) -> Option<Order<'a>>
    ensures ok { IfSome result (λ order. (subcommand_name_of matches.now ≡ Some (codes "serve")) × IsOrderOf (rows_found (subcommand_rows_of matches.now)) order) }
    ensures some { subcommand_name_of matches.now ≡ Some (codes "serve") → (order : TheOrder) → IsOrderOf (rows_found (subcommand_rows_of matches.now)) order → IsSome result }
{
    match matches.subcommand_matches("serve") {
        Some(found) => order_of(found),
        None => None,
    }
}

/// What a line asks for, as clap reads it.
pub(crate) fn parse<'a, W: AsStr>(alloc: Global, words: &'a [W]) -> Result<Wish<'a>, Refusal>
    ensures only { IsFor (map W.text words.entry.now) result }
    ensures serve { IsTaken (map W.text words.entry.now) → (order : TheOrder) → IsAsked (map W.text words.entry.now) order → IsServe result }
    ensures help { IsHelpLine (map W.text words.entry.now) → IsHelp result }
    ensures bad { IsBadLine (map W.text words.entry.now) → IsRefused result }
{
    let Ok(command) = line(alloc) else {
        return Err(Refusal::OutOfMemory);
    };
    match command.try_get_matches_from(words) {
        Ok(matches) => match wish_of(&matches) {
            Some(order) => Ok(Wish::Serve(order)),
            None => Err(Refusal::BadLine),
        },
        Err(e) => match e.kind() {
            ErrorKind::DisplayHelp => Ok(Wish::Help(e)),
            ErrorKind::OutOfMemory => Err(Refusal::OutOfMemory),
            _ => Err(Refusal::BadLine),
        },
    }
}
