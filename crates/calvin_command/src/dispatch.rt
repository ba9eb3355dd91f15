//! What a line runs, and how that ends.
ghost use Rattle.std.specs.Prelude.{◌≡◌, ◌≢◌, ◌+◌, map, codes, ◌⊎◌};
ghost use Rattle.calvin_serial.specs.Engine.{serial_text};
ghost use Rattle.calvin_check.specs.Checks.{check_text, IsExpected};
ghost use Rattle.calvin_sim_events.specs.declared.schedule.Schedule.{Schedule};
ghost use Rattle.calvin_run.specs.declared.team.Team.{Team};
ghost use Rattle.calvin_ending.specs.Telling.{Tells};
ghost use Rattle.calvin_command.specs.Ends.{LeavesDevices, RunsEngine, RunsSim, RunsCluster, Expects, StopsEarly};
ghost use Rattle.calvin_command.specs.Line.{IsTaken, IsSerialLine, IsCheckLine, IsSimLine, IsRunLine, IsHelpLine, IsBadLine, HasHelpWord, IsPlainSerialLine, IsPlainCheckLine, IsPlainSimLine, IsPlainRunLine, IsScoutLine, sets_asked, wide_asked, IsAsked, IsTeamAsked, IsUsual, IsUsualTeam};
ghost use Rattle.calvin_ending.specs.Statuses.{IsStatus};

use crate::wishes::{Refusal, Wish, parse};
use calvin_check::check;
use calvin_cluster::Open;
use calvin_edge::{Sink, Source};
use calvin_ending::{end_with, print_help, refuse_line};
use calvin_run::{Team, run};
use calvin_serial::{UndeclaredSets, serial};
use calvin_sim::sim;
use calvin_sim_events::Schedule;
use calvin_types::Fault;
use std::alloc::Global;
use std::convert::AsStr;
use std::mem;
use std::sync::Wait;
use std::thread::Threads;

/// Runs the engine `serial`, tells a fault, and answers the status.
#[tactic(auto, using(crate::proofs::Endings::serial_status))]
fn run_serial<S: Source, K: Sink, E: Sink>(
    alloc: Global,
    sets: UndeclaredSets,
    input: &mut S,
    output: &mut K,
    error: &mut E,
) -> u8
    ensures statuses { IsStatus result }
    ensures devices { LeavesDevices S.Source K.Sink E.Sink input.old input.new output.old output.new error.old error.new result }
    ensures serial { RunsEngine S.Source K.Sink E.Sink input.old input.new output.old output.new error.old error.new result (serial_text sets) }
    ensures expected { result ≢ 3 }
{
    match serial(alloc, sets, input, output) {
        Ok(()) => 0,
        Err(fault) => end_with(fault, error),
    }
}

/// Runs the engine `check`, tells a fault, and answers the status.
#[tactic(auto, using(crate::proofs::Endings::check_status))]
fn run_check<S: Source, K: Sink, E: Sink>(
    alloc: Global,
    input: &mut S,
    output: &mut K,
    error: &mut E,
) -> u8
    ensures statuses { IsStatus result }
    ensures devices { LeavesDevices S.Source K.Sink E.Sink input.old input.new output.old output.new error.old error.new result }
    ensures check { RunsEngine S.Source K.Sink E.Sink input.old input.new output.old output.new error.old error.new result check_text }
    ensures expects { Expects S.Source K.Sink E.Sink input.old input.new output.old output.new error.old error.new result check_text IsExpected }
{
    let Err(fault) = check(alloc, input, output) else {
        return 0;
    };
    end_with(fault, error)
}

/// Runs the engine `sim`, tells a fault, and answers the status. The world stays in memory: who runs a line ends thereafter, and
/// gives its pieces back all at once.
#[tactic(auto, using(crate::proofs::Endings::sim_status))]
fn run_sim<S: Source, K: Sink, E: Sink>(
    alloc: Global,
    schedule: &Schedule,
    input: &mut S,
    output: &mut K,
    error: &mut E,
) -> u8
    ensures statuses { IsStatus result }
    ensures devices { LeavesDevices S.Source K.Sink E.Sink input.old input.new output.old output.new error.old error.new result }
    ensures sim { RunsSim S.Source K.Sink E.Sink input.old input.new output.old output.new error.old error.new result schedule.now }
    ensures expected { result ≢ 3 }
{
    match sim(alloc, schedule, input, output) {
        Ok(world) => {
            mem::forget(world);
            0
        }
        Err(fault) => end_with(fault, error),
    }
}

/// Runs the engine `run`, whose workers no gate holds, tells a fault, and answers the status. The book stays in memory, as the world
/// of `sim` does.
#[tactic(auto, using(crate::proofs::Endings::run_status))]
fn run_cluster<S, K, E, R>(
    rt: R,
    alloc: Global,
    team: &Team,
    input: &mut S,
    output: &mut K,
    error: &mut E,
) -> u8
where
    S: Source,
    K: Sink,
    E: Sink,
    R: Threads + Wait + Copy + Send + Sync + 'static,
    ensures statuses { IsStatus result }
    ensures devices { LeavesDevices S.Source K.Sink E.Sink input.old input.new output.old output.new error.old error.new result }
    ensures run { RunsCluster S.Source K.Sink E.Sink input.old input.new output.old output.new error.old error.new result team.now.replicas team.now.wide }
    ensures stops { StopsEarly S.Source K.Sink E.Sink input.old input.new output.old output.new error.old error.new result team.now.wide }
{
    match run(rt, alloc, team, Open, input, output) {
        Ok(book) => {
            mem::forget(book);
            0
        }
        Err(fault) => end_with(fault, error),
    }
}

/// Runs a command line, and answers its status: 0 where all went well, 2 where the line or the script is refused, 3 where the
/// answers aren't those that a script of `check` expects, or the cluster of `run` closed early or is still shared, or its nodes' histories
/// have no list, 4 for want of memory, 5 where a device failed. The line on standard error may fail to be written; the status stays.
/// Threads are started for `run` alone.
#[tactic(auto, using(crate::proofs::Named::is_taken_line, crate::proofs::Words::is_plain_line, crate::proofs::Words::is_scout_line, crate::proofs::Helped::is_covered))]
pub fn command<W, S, K, E, R>(
    rt: R,
    alloc: Global,
    words: &[W],
    input: &mut S,
    output: &mut K,
    error: &mut E,
) -> u8
where
    W: AsStr,
    S: Source,
    K: Sink,
    E: Sink,
    R: Threads + Wait + Copy + Send + Sync + 'static,
    ensures statuses { IsStatus result }
    // A line that clap takes is for `serial`, `check`, `sim` or `run`; `calvin serial` is such a line, and asks for the first sets,
    // and `calvin serial --scout` is one that asks for scouted ones; so is `calvin check`, and `calvin sim`, which asks for
    // no other schedule than the usual one, and `calvin run`, which asks for no other team than the usual one.
    ensures taken { IsTaken (map W.text words.now)
        → IsSerialLine (map W.text words.now) ⊎ IsCheckLine (map W.text words.now) ⊎ IsSimLine (map W.text words.now) ⊎ IsRunLine (map W.text words.now) }
    ensures plain { IsPlainSerialLine (map W.text words.now)
        → IsSerialLine (map W.text words.now) × (sets_asked (map W.text words.now) ≡ UndeclaredSets.First) }
    ensures scout { IsScoutLine (map W.text words.now)
        → IsSerialLine (map W.text words.now) × (sets_asked (map W.text words.now) ≡ UndeclaredSets.Scouted) }
    ensures plain_check { IsPlainCheckLine (map W.text words.now) → IsCheckLine (map W.text words.now) }
    ensures plain_sim { IsPlainSimLine (map W.text words.now)
        → IsSimLine (map W.text words.now) × ((schedule : Schedule) → IsAsked (map W.text words.now) schedule → IsUsual schedule) }
    ensures plain_run { IsPlainRunLine (map W.text words.now)
        → IsRunLine (map W.text words.now) × ((team : Team) → IsTeamAsked (map W.text words.now) team → IsUsualTeam team) }
    // A line without the word `help` is such a line, a call for help or a bad line.
    ensures covered { ¬ HasHelpWord (map W.text words.now) → ¬ IsSerialLine (map W.text words.now) → ¬ IsCheckLine (map W.text words.now)
        → ¬ IsSimLine (map W.text words.now) → ¬ IsRunLine (map W.text words.now) → ¬ IsHelpLine (map W.text words.now) → IsBadLine (map W.text words.now) }
    // A line that isn't for a subcommand reads nothing.
    ensures idle { ¬ IsSerialLine (map W.text words.now) → ¬ IsCheckLine (map W.text words.now) → ¬ IsSimLine (map W.text words.now)
        → ¬ IsRunLine (map W.text words.now) → input.new ≡ input.old }
    // A line that asks for help isn't refused, and a bad line is, unless memory runs out.
    ensures help { IsHelpLine (map W.text words.now) → result ≢ 2 }
    ensures bad { IsBadLine (map W.text words.now) → (result ≡ 2) ⊎ (result ≡ 4) }
    ensures told_bad_line { ¬ IsSerialLine (map W.text words.now) → ¬ IsCheckLine (map W.text words.now) → ¬ IsSimLine (map W.text words.now)
        → ¬ IsRunLine (map W.text words.now) → result ≡ 2
        → Tells (E.taken error.old) (E.taken error.new) (E.failures error.old) (E.failures error.new) (codes "calvin: bad line\n") }
    // Which device failed, what is left as it was, and what standard error is told.
    ensures devices { LeavesDevices S.Source K.Sink E.Sink input.old input.new output.old output.new error.old error.new result }
    // `serial` writes the text for the script with the sets that are asked for, or refuses it.
    ensures serial { IsSerialLine (map W.text words.now)
        → RunsEngine S.Source K.Sink E.Sink input.old input.new output.old output.new error.old error.new result (serial_text (sets_asked (map W.text words.now))) }
    // `check` writes the text for the script, or refuses it; 3 is for it and `run` alone, and says here that the answers aren't as expected.
    ensures check { IsCheckLine (map W.text words.now)
        → RunsEngine S.Source K.Sink E.Sink input.old input.new output.old output.new error.old error.new result check_text }
    ensures expects { IsCheckLine (map W.text words.now)
        → Expects S.Source K.Sink E.Sink input.old input.new output.old output.new error.old error.new result check_text IsExpected }
    ensures unexpected { result ≡ 3 → IsCheckLine (map W.text words.now) ⊎ IsRunLine (map W.text words.now) }
    // `sim` has a schedule that is asked for, and writes the text of a world to which the script led under it, or refuses it.
    ensures sim { IsSimLine (map W.text words.now) → (schedule : Schedule) × IsAsked (map W.text words.now) schedule
        × RunsSim S.Source K.Sink E.Sink input.old input.new output.old output.new error.old error.new result schedule }
    // `run` has a team that is asked for, and writes the text of a book that a cluster of it left, or, where it is wide, of one that its
    // nodes' histories were assembled to, or refuses the script; 3 says that the cluster closed early or is still shared, or, where it
    // is wide, that no list gives the histories.
    ensures run { IsRunLine (map W.text words.now) → (team : Team) × IsTeamAsked (map W.text words.now) team
        × RunsCluster S.Source K.Sink E.Sink input.old input.new output.old output.new error.old error.new result team.replicas team.wide }
    ensures stops { IsRunLine (map W.text words.now)
        → StopsEarly S.Source K.Sink E.Sink input.old input.new output.old output.new error.old error.new result (wide_asked (map W.text words.now)) }
{
    match parse(alloc, words) {
        Ok(Wish::Serial(sets)) => run_serial(alloc, sets, input, output, error),
        Ok(Wish::Check) => run_check(alloc, input, output, error),
        Ok(Wish::Sim(schedule)) => run_sim(alloc, &schedule, input, output, error),
        Ok(Wish::Run(team)) => run_cluster(rt, alloc, &team, input, output, error),
        Ok(Wish::Help(help)) => print_help(alloc, &help, output, error),
        Err(Refusal::BadLine) => refuse_line(error),
        Err(Refusal::OutOfMemory) => end_with(Fault::OutOfMemory, error),
    }
}
