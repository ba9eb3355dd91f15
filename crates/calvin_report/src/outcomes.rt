//! The lines of events.
ghost use Rattle.std.specs.Prelude.{◌≡◌, ◌++◌, OnOk};
ghost use Rattle.calvin_report.specs.Reports.{outcome_line, outcome_lines};

use calvin_text::push_number;
use calvin_world::Outcome;
use std::alloc::AllocError;

/// Adds how the event of a number ended.
pub fn push_outcome(text: &mut Vec<u8>, event: usize, outcome: Outcome) -> Result<(), AllocError>
    ensures { OnOk result (text.new.items ≡ text.old.items ++ outcome_line event outcome) }
{
    push_number(text, event as u64)?;
    match outcome {
        Outcome::Done => text.extend_from_slice(b" ok\n"),
        Outcome::Refused(fault) => {
            text.extend_from_slice(b" refused ")?;
            push_number(text, fault.number() as u64)?;
            text.extend_from_slice(b"\n")
        }
    }
}

/// Adds how each event ended, by its number from 0.
pub fn push_outcomes(text: &mut Vec<u8>, outcomes: &[Outcome]) -> Result<(), AllocError>
    ensures { OnOk result (text.new.items ≡ text.old.items ++ outcome_lines 0 outcomes.now) }
{
    for (event, outcome) in outcomes.iter().enumerate() {
        push_outcome(text, event, *outcome)?;
    }
    Ok(())
}
