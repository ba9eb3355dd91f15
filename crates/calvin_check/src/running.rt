//! The events of a script, one after another.
ghost use Rattle.std.specs.Prelude.{◌≡◌, ◌++◌, List, map, OnOk, IsOkUnless};
ghost use Rattle.calvin_world.specs.declared.event.Outcome.{Outcome};
ghost use Rattle.calvin_world.specs.SettledWorlds.{SettledLeads};
ghost use Rattle.calvin_world.specs.Through.{WithoutWant};
ghost use Rattle.calvin_script_events.specs.EventForms.{event_of};
ghost use Rattle.calvin_report.specs.Reports.{outcome_lines};

use calvin_app::App;
use calvin_lock::Locks;
use calvin_report::push_outcome;
use calvin_script::{Kept, Operation};
use calvin_script_events::ListedEvent;
use calvin_store::Rows;
use calvin_types::Fault;
use calvin_world::{Outcome, World, outcome_of};

/// Lets the events happen, and adds a line for each. Refused with `OutOfMemory` where an event was, and where there was no
/// room for its line.
pub(crate) fn run_events<A: App + Drop, L: Locks + Drop, S: Rows<A::Row> + Drop>(
    world: &mut World<A, L, S>,
    events: &[ListedEvent<Kept<A::Args>>],
    text: &mut Vec<u8>,
) -> Result<(), Fault>
where
    A::Args: Operation,
    ensures led { OnOk result ((outcomes : List Outcome) × SettledLeads A.meaning world.old (map event_of events.now) outcomes world.new
        × WithoutWant outcomes × (text.new.items ≡ text.old.items ++ outcome_lines 0 outcomes)) }
    ensures only { IsOkUnless result Fault.OutOfMemory }
{
    for (number, listed) in events.iter().enumerate() {
        let outcome = outcome_of(world.step(&listed.event()));
        if outcome == Outcome::Refused(Fault::OutOfMemory) {
            return Err(Fault::OutOfMemory);
        }
        push_outcome(text, number, outcome)?;
    }
    Ok(())
}
