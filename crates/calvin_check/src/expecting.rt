//! Whether the answers are the ones that a script expects.
ghost use Rattle.std.specs.Prelude.{◌≡◌, ◌++◌, [], ◌∷◌, map, codes, string_bytes, IfOk, IsOkUnless};
ghost use Rattle.calvin_text.specs.Texts.{line, finished_at};
ghost use Rattle.calvin_check.specs.Checks.{are_lines};

use calvin_report::Replies;
use calvin_text::{Printed, push_last, push_line};
use calvin_types::Fault;
use std::alloc::Global;

/// The line of a text: with a line feed behind it.
fn line_of(alloc: Global, text: &str) -> Result<Vec<u8>, Fault>
    ensures line { IfOk result (λ l. l.items ≡ text.now ++ codes "\n") }
    ensures only { IsOkUnless result Fault.OutOfMemory }
{
    let mut line = Vec::new(alloc);
    line.extend_from_slice(text.as_bytes())?;
    line.extend_from_slice(b"\n")?;
    Ok(line)
}

/// The lines that are expected.
fn lines_of(alloc: Global, texts: &[String]) -> Result<Vec<Vec<u8>>, Fault>
    ensures lines { IfOk result (λ ls. map (λ l. l.items) ls.items ≡ map (λ t. string_bytes t ++ codes "\n") texts.now) }
    ensures only { IsOkUnless result Fault.OutOfMemory }
{
    let mut lines = Vec::new(alloc);
    for text in texts {
        lines.push(line_of(alloc, text)?)?;
    }
    Ok(lines)
}

/// The lines of the replies, in the order of their places, and the last line.
fn answer_lines<R: Printed>(
    alloc: Global,
    replies: &Replies<R>,
    finished: Option<u64>,
) -> Result<Vec<Vec<u8>>, Fault>
    ensures lines { IfOk result (λ ls. map (λ l. l.items) ls.items ≡ map (λ e. line R.printed e.0 e.1.0 e.1.1) replies.now.items ++ finished_at finished ∷ []) }
    ensures only { IsOkUnless result Fault.OutOfMemory }
{
    let mut lines = Vec::new(alloc);
    for (place, (id, answer)) in replies.iter() {
        let mut line = Vec::new(alloc);
        push_line(&mut line, *place, *id, answer)?;
        lines.push(line)?;
    }
    let mut line = Vec::new(alloc);
    push_last(&mut line, finished)?;
    lines.push(line)?;
    Ok(lines)
}

/// Whether the texts are the lines of the replies and the last line. Refused with `OutOfMemory` where there was no room for
/// these lines.
pub(crate) fn are_lines<R: Printed>(
    alloc: Global,
    replies: &Replies<R>,
    finished: Option<u64>,
    texts: &[String],
) -> Result<bool, Fault>
    ensures same { IfOk result (λ are. are ≡ are_lines (map string_bytes texts.now) (map (λ e. line R.printed e.0 e.1.0 e.1.1) replies.now.items ++ finished_at finished ∷ [])) }
    ensures only { IsOkUnless result Fault.OutOfMemory }
{
    let expected = lines_of(alloc, texts)?;
    Ok(expected == answer_lines(alloc, replies, finished)?)
}
