//! The whole script, read from tokens, and from bytes.
ghost use Rattle.std.specs.Prelude.{◌≡◌, IfSome, Ok};
ghost use Rattle.calvin_script.specs.Scripts.{contents, script};
ghost use Rattle.calvin_script.specs.Reading.{Reads, script_from};
ghost use Rattle.calvin_script_tokens.specs.Spelled.{Spells};

use crate::list::list_of;
use crate::object::{Object, read_object};
use crate::operation::OperationTokens;
use crate::tokens::{between, epoch_value, is_same, string_at};
use calvin_script::{Epoch, Kept, Script};
use calvin_types::{Fault, MOST_PARTITIONS};
use json::{Reader, Scratch};
use std::alloc::Global;

/// The members of a script that were read.
#[derive(Drop)]
pub(crate) struct ScriptMembers<R> {
    partitions: Option<u8>,
    /// Its application was read, and is the wanted one.
    has_app: bool,
    /// Where it wasn't read, no batch is woven.
    woven_from: Option<u64>,
    epochs: Option<Vec<Epoch<R>>>,
}

impl<Op: OperationTokens> Object for ScriptMembers<Kept<Op>> {
    ghost use Rattle.calvin_script_tokens.specs.Gathered.{HoldsScript};

    ghost holds = { HoldsScript Op.grammar };

    ghost deep = { 126 };

    fn read_member(&mut self, alloc: Global, reader: &mut Reader<'_>, name: &str) -> Option<()> {
        if is_same(name, "partitions") {
            self.partitions = Some(between(1, MOST_PARTITIONS, reader)?);
            return Some(());
        }
        if is_same(name, "app") {
            if !is_same(string_at(reader)?, Op::app_name()) {
                return None;
            }
            self.has_app = true;
            return Some(());
        }
        if is_same(name, "epochs") {
            self.epochs = Some(list_of(alloc, reader)?);
            return Some(());
        }
        if is_same(name, "woven_from") {
            self.woven_from = Some(epoch_value(reader)?);
            return Some(());
        }
        None
    }
}

/// The script that the next tokens spell.
fn read_script<Op: OperationTokens>(
    alloc: Global,
    reader: &mut Reader<'_>,
) -> Option<Script<Kept<Op>>>
    ensures { IfSome result (λ s. Spells (script Op.grammar) 127 reader.old (contents s) reader.new) }
{
    let mut members = ScriptMembers {
        partitions: None,
        has_app: false,
        woven_from: None,
        epochs: None,
    };
    read_object(alloc, reader, &mut members)?;
    if !members.has_app {
        return None;
    }
    let partitions = members.partitions?;
    let epochs = members.epochs?;
    Script::new(partitions, members.woven_from, epochs)
}

/// The script that a text is, for an application, where it is written as usual: then it is read without a value of the
/// whole JSON. There is no answer for another text, script or not, nor where memory runs out. What reading needs of memory
/// is lent, so that who tries one application after another needs it once.
///
/// As usual are members in any order, numbers in digits alone, and no set of declared keys given twice.
pub(crate) fn script_in_text<Op: OperationTokens>(
    alloc: Global,
    text: &str,
    scratch: &mut Scratch,
) -> Option<Script<Kept<Op>>>
    ensures { IfSome result (λ s. script_from Op.grammar text.now ≡ Ok (contents s)) }
{
    let Ok(mut reader) = Reader::new(text, scratch) else {
        return None;
    };
    let script = read_script(alloc, &mut reader)?;
    if reader.next().is_some() {
        return None;
    }
    Some(script)
}

/// The script that bytes are, for an application, where they are a text that is written as usual. There is no answer for
/// other bytes, scripts or not, nor where memory runs out.
pub fn usual_script<Op: OperationTokens>(
    alloc: Global,
    bytes: &[u8],
    scratch: &mut Scratch,
) -> Option<Script<Kept<Op>>>
    ensures { IfSome result (λ s. script_from Op.grammar bytes.now ≡ Ok (contents s)) }
{
    let text = text_of(bytes)?;
    script_in_text(alloc, text, scratch)
}

/// The text that bytes are, if they are one.
pub fn text_of(bytes: &[u8]) -> Option<&str>
    ensures { IfSome result (λ text. text.now ≡ bytes.now) }
{
    simdutf8::compat::from_utf8(bytes).ok()
}

/// The script that bytes are, for an application. Refused with `BadJson` where the bytes aren't JSON, with `BadScript`
/// where the JSON doesn't have the form of a script for this application, and with `OutOfMemory`.
pub fn script_from<Op: OperationTokens>(
    alloc: Global,
    bytes: &[u8],
) -> Result<Script<Kept<Op>>, Fault>
    ensures { Reads contents result (script_from Op.grammar bytes.now) }
{
    match usual_script(alloc, bytes, &mut Scratch::new(alloc)) {
        Some(script) => Ok(script),
        None => calvin_script::script_from(alloc, bytes),
    }
}
