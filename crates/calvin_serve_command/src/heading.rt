//! The first line of a journal.
ghost use Rattle.std.specs.Prelude.{◌≡◌, false, IfOk};
ghost use Rattle.calvin_journal.specs.Lines.{has_break};
ghost use Rattle.calvin_serve_command.specs.Headings.{heading, name_of};

use calvin_script::AppName;
use calvin_serial::UndeclaredSets;
use calvin_serve_desk::Setting;
use calvin_text::push_number;
use std::alloc::{AllocError, Global};

/// The name of an application.
pub(crate) fn name_of(application: AppName) -> &'static str
    ensures { result.now ≡ name_of application }
{
    match application {
        AppName::Kv => "kv",
        AppName::Stock => "stock",
        AppName::Once => "once",
    }
}

/// The heading's text.
fn spelled(alloc: Global, application: AppName, setting: &Setting) -> Result<Vec<u8>, AllocError>
    ensures { IfOk result (λ text. text.items ≡ heading application setting.now) }
{
    let mut text = Vec::new(alloc);
    text.extend_from_slice(b"{\"journal\":1,\"partitions\":")?;
    push_number(&mut text, setting.partitions as u64)?;
    text.extend_from_slice(b",\"app\":\"")?;
    text.extend_from_slice(name_of(application).as_bytes())?;
    text.extend_from_slice(b"\",\"scout\":")?;
    match setting.sets {
        UndeclaredSets::First => text.extend_from_slice(b"false}")?,
        UndeclaredSets::Scouted => text.extend_from_slice(b"true}")?,
    }
    Ok(text)
}

/// `{"journal":1,"partitions":P,"app":APP,"scout":B}`.
pub(crate) fn heading(
    alloc: Global,
    application: AppName,
    setting: &Setting,
) -> Result<Vec<u8>, AllocError>
    ensures text { IfOk result (λ text. text.items ≡ heading application setting.now) }
    ensures one_line { IfOk result (λ text. has_break text.items ≡ false) }
{
    let text = spelled(alloc, application, setting)?;
    Ok(text)
}
