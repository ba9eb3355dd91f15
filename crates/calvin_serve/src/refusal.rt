//! What is printed of a line that is no request.
ghost use Rattle.std.specs.Prelude.{◌≡◌, IfOk};
ghost use Rattle.calvin_serve.specs.Turns.{refusal};

use calvin_text::push_number;
use calvin_types::Fault;
use std::alloc::{AllocError, Global};

/// `line K refused NUMBER NAME`, with a line feed.
pub(crate) fn refusal(alloc: Global, number: u64, fault: Fault) -> Result<Vec<u8>, AllocError>
    ensures { IfOk result (λ text. text.items ≡ refusal number fault) }
{
    let mut text = Vec::new(alloc);
    text.extend_from_slice(b"line ")?;
    push_number(&mut text, number)?;
    text.extend_from_slice(b" refused ")?;
    push_number(&mut text, fault.number() as u64)?;
    text.extend_from_slice(b" ")?;
    text.extend_from_slice(fault.name().as_bytes())?;
    text.extend_from_slice(b"\n")?;
    Ok(text)
}
