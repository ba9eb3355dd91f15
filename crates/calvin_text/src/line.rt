//! The lines of answers.
ghost use Rattle.std.specs.Prelude.{◌≡◌, ◌++◌, OnOk, codes};
ghost use Rattle.calvin_text.specs.Texts.{place_text, id_text, answer_text, line, finished, finished_at};

use crate::printed::{Printed, SHORT, push_number, put_short};
use calvin_app::Answer;
use calvin_types::{Place, RequestId};
use std::alloc::AllocError;

/// Adds a place.
fn push_place(text: &mut Vec<u8>, place: Place) -> Result<(), AllocError>
    ensures { OnOk result (text.new.items ≡ text.old.items ++ place_text place) }
{
    push_number(text, place.epoch)?;
    text.extend_from_slice(b".")?;
    push_number(text, place.n as u64)
}

/// Adds the name of a request.
fn push_id(text: &mut Vec<u8>, id: RequestId) -> Result<(), AllocError>
    ensures { OnOk result (text.new.items ≡ text.old.items ++ id_text id) }
{
    push_number(text, id.client as u64)?;
    text.extend_from_slice(b":")?;
    push_number(text, id.number as u64)
}

/// Adds a place and a name, each with a space behind it. Where no number has more than five digits there is one test for
/// room.
#[inline(always)]
fn push_head(text: &mut Vec<u8>, place: Place, id: RequestId) -> Result<(), AllocError>
    ensures { OnOk result (text.new.items ≡ text.old.items ++ place_text place ++ codes " " ++ id_text id ++ codes " ") }
{
    if place.epoch < SHORT as u64 && place.n < SHORT && id.client < SHORT && id.number < SHORT {
        text.reserve(24)?;
        put_short(text, place.epoch as u32);
        text.push_reserved(b'.');
        put_short(text, place.n);
        text.push_reserved(b' ');
        put_short(text, id.client);
        text.push_reserved(b':');
        put_short(text, id.number);
        text.push_reserved(b' ');
        return Ok(());
    }
    push_place(text, place)?;
    text.extend_from_slice(b" ")?;
    push_id(text, id)?;
    text.extend_from_slice(b" ")
}

/// Adds an answer.
fn push_answer<R: Printed>(text: &mut Vec<u8>, answer: &Answer<R>) -> Result<(), AllocError>
    ensures { OnOk result (text.new.items ≡ text.old.items ++ answer_text R.printed answer.now) }
{
    match answer {
        Answer::Reply(reply) => reply.push_to(text),
        Answer::Changed => text.extend_from_slice(b"changed"),
    }
}

/// Adds the line of one request.
pub fn push_line<R: Printed>(
    text: &mut Vec<u8>,
    place: Place,
    id: RequestId,
    answer: &Answer<R>,
) -> Result<(), AllocError>
    ensures { OnOk result (text.new.items ≡ text.old.items ++ line R.printed place id answer.now) }
{
    push_head(text, place, id)?;
    push_answer(text, answer)?;
    text.extend_from_slice(b"\n")
}

/// Adds the last line: the last epoch that is finished, if there is one.
pub fn push_last(text: &mut Vec<u8>, last: Option<u64>) -> Result<(), AllocError>
    ensures { OnOk result (text.new.items ≡ text.old.items ++ finished_at last) }
{
    let Some(epoch) = last else {
        return text.extend_from_slice(b"finished none\n");
    };
    text.extend_from_slice(b"finished ")?;
    push_number(text, epoch)?;
    text.extend_from_slice(b"\n")
}

/// Adds the last line of so many epochs.
pub fn push_finished(text: &mut Vec<u8>, epochs: usize) -> Result<(), AllocError>
    ensures { OnOk result (text.new.items ≡ text.old.items ++ finished epochs) }
{
    if epochs == 0 {
        return push_last(text, None);
    }
    push_last(text, Some((epochs - 1) as u64))
}
