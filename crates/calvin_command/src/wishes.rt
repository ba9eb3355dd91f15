//! What a line asks for.
ghost use Rattle.std.specs.Prelude.{◌≡◌, map, codes, IfSome, IsSome, Some, None};
ghost use Rattle.clap.specs.Words.{found_of, rows_of, subcommand_name_of, subcommand_rows_of};
ghost use Rattle.calvin_sim_events.specs.declared.schedule.Schedule.{Schedule};
ghost use Rattle.calvin_run.specs.declared.team.Team.{Team};
ghost use Rattle.calvin_options.specs.Options.{number_of, rows_found};
ghost use Rattle.calvin_command.specs.Line.{IsSerialLine, IsCheckLine, IsSimLine, IsRunLine, IsHelpLine, IsBadLine, sets_of, sets_asked, LosesWell, IsScheduleOf, IsTeamOf, IsOf, IsAskedBy, IsFor, IsSerial, IsCheck, IsSim, IsRun, IsHelp, IsRefused};
ghost use Rattle.calvin_command.specs.declared.wishes.Wish.TheVariants.{Serial, Check, Sim, Run};

use crate::lines::line;
use calvin_options::{has_flag, number_of};
use calvin_run::Team;
use calvin_serial::UndeclaredSets;
use calvin_sim_events::{Restarts, Schedule};
use clap::error::ErrorKind;
use clap::{ArgMatches, Error};
use std::alloc::Global;
use std::convert::AsStr;

/// What a command line asks for.
pub(crate) enum Wish {
    /// The serial run, where requests that declare no sets have these.
    Serial(UndeclaredSets),
    /// The run of a list of events.
    Check,
    /// The run of a script in a world, under this schedule.
    Sim(Schedule),
    /// The run of a script in threads, by this team.
    Run(Team),
    /// Help was asked for, and this is its text.
    Help(Error),
}

/// Why a command line asks for nothing.
pub(crate) enum Refusal {
    BadLine,
    OutOfMemory,
}

/// The schedule, but the packets of the replica are lost that was found for `--lose`, if one was: none where that is the replica
/// 0 or isn't there.
fn losing(schedule: Schedule, sim: &ArgMatches<'_>) -> Option<Schedule>
    requires whole { schedule.lost ≡ None }
    ensures ok { IfSome result (λ s. s ≡ record schedule { lost = number_of (codes "lose") (rows_of (found_of sim.now)) }) }
    ensures well { IfSome result (λ s. LosesWell schedule.replicas (rows_of (found_of sim.now))) }
    ensures some { LosesWell schedule.replicas (rows_of (found_of sim.now)) → IsSome result }
{
    match number_of(sim, "lose") {
        Some(lost) => schedule.losing(u8::try_from(lost).ok()?),
        None => Some(schedule),
    }
}

/// The schedule that what was found of `sim` asks for.
fn schedule_of(sim: &ArgMatches<'_>) -> Option<Schedule>
    ensures ok { IfSome result (IsScheduleOf (rows_of (found_of sim.now))) }
    ensures some { (schedule : Schedule) → IsScheduleOf (rows_of (found_of sim.now)) schedule → IsSome result }
{
    let start = number_of(sim, "start")?;
    let steps = u32::try_from(number_of(sim, "steps")?).ok()?;
    let replicas = u8::try_from(number_of(sim, "replicas")?).ok()?;
    let restarts = if has_flag(sim, "restarts") {
        Restarts::AboveReplicaZero
    } else {
        Restarts::Never
    };
    let schedule = Schedule::new(start, steps, replicas, restarts)?;
    if has_flag(sim, "repeat") {
        return losing(schedule.with_repeats(), sim);
    }
    losing(schedule, sim)
}

/// The team that what was found of `run` asks for.
fn team_of(run: &ArgMatches<'_>) -> Option<Team>
    ensures ok { IfSome result (IsTeamOf (rows_of (found_of run.now))) }
    ensures some { (team : Team) → IsTeamOf (rows_of (found_of run.now)) team → IsSome result }
{
    let replicas = u8::try_from(number_of(run, "replicas")?).ok()?;
    let workers = usize::try_from(number_of(run, "workers")?).ok()?;
    Team::new(replicas, workers, has_flag(run, "wide"))
}

/// What the matches of a line ask for.
fn wish_of(matches: &ArgMatches<'_>) -> Option<Wish>
    ensures serial { subcommand_name_of matches.now ≡ Some (codes "serial") → result ≡ Some (Serial (sets_of (subcommand_rows_of matches.now))) }
    ensures check { subcommand_name_of matches.now ≡ Some (codes "check") → result ≡ Some Check }
    ensures sim { subcommand_name_of matches.now ≡ Some (codes "sim") → (asked : Schedule) → IsScheduleOf (rows_found (subcommand_rows_of matches.now)) asked
        → (schedule : Schedule) × (result ≡ Some (Sim schedule)) × IsScheduleOf (rows_found (subcommand_rows_of matches.now)) schedule }
    ensures run { subcommand_name_of matches.now ≡ Some (codes "run") → (asked : Team) → IsTeamOf (rows_found (subcommand_rows_of matches.now)) asked
        → (team : Team) × (result ≡ Some (Run team)) × IsTeamOf (rows_found (subcommand_rows_of matches.now)) team }
    ensures only { IfSome result (IsOf (subcommand_name_of matches.now)) }
    ensures asked { IfSome result (IsAskedBy (rows_found (subcommand_rows_of matches.now))) }
{
    if let Some(serial) = matches.subcommand_matches("serial") {
        if has_flag(serial, "scout") {
            return Some(Wish::Serial(UndeclaredSets::Scouted));
        }
        return Some(Wish::Serial(UndeclaredSets::First));
    }
    if matches.subcommand_matches("check").is_some() {
        return Some(Wish::Check);
    }
    if let Some(sim) = matches.subcommand_matches("sim") {
        return Some(Wish::Sim(schedule_of(sim)?));
    }
    if let Some(run) = matches.subcommand_matches("run") {
        return Some(Wish::Run(team_of(run)?));
    }
    None
}

/// What a line asks for, as clap reads it.
pub(crate) fn parse<'a, W: AsStr>(alloc: Global, words: &'a [W]) -> Result<Wish, Refusal>
    ensures only { IsFor (map W.text words.entry.now) result }
    ensures serial { IsSerialLine (map W.text words.entry.now) → IsSerial (sets_asked (map W.text words.entry.now)) result }
    ensures check { IsCheckLine (map W.text words.entry.now) → IsCheck result }
    ensures sim { IsSimLine (map W.text words.entry.now) → IsSim (map W.text words.entry.now) result }
    ensures run { IsRunLine (map W.text words.entry.now) → IsRun (map W.text words.entry.now) result }
    ensures help { IsHelpLine (map W.text words.entry.now) → IsHelp result }
    ensures bad { IsBadLine (map W.text words.entry.now) → IsRefused result }
{
    let Ok(command) = line(alloc) else {
        return Err(Refusal::OutOfMemory);
    };
    match command.try_get_matches_from(words) {
        Ok(matches) => match wish_of(&matches) {
            Some(wish) => Ok(wish),
            None => Err(Refusal::BadLine),
        },
        Err(e) => match e.kind() {
            ErrorKind::DisplayHelp => Ok(Wish::Help(e)),
            ErrorKind::OutOfMemory => Err(Refusal::OutOfMemory),
            _ => Err(Refusal::BadLine),
        },
    }
}
