//! Texts of JSON, joined.
ghost use Rattle.std.specs.Prelude.{◌≡◌, ◌≤◌, ◌++◌, IfOk, OnOk, List, map, codes, decimal};
ghost use Rattle.json.specs.Json.{Json};
ghost use Rattle.json.specs.Tree.{HasNumbers, depth};
ghost use Rattle.json.specs.Print.{escape};
ghost use Rattle.serde_json.specs.Read.{read, of_json, max_depth};
ghost use Rattle.calvin_journal_texts.specs.Joined.{continued, joined};
ghost use Rattle.calvin_journal_texts.specs.Texts.{items_of, script_front, script_text};
ghost use Rattle.calvin_journal_texts.specs.Trees.{printed, script_json};

use itoa::Buffer;
use std::alloc::{AllocError, Global};

/// The script of these epochs, each as its line, for so many partitions and the application of this name, which is one that
/// stands in JSON as it is. No epoch of it is woven. Refused only for want of memory.
pub fn script_text(
    alloc: Global,
    partitions: u8,
    app: &str,
    epochs: &[Vec<u8>],
) -> Result<Vec<u8>, AllocError>
    requires plain { escape app.now ≡ app.now }
    ensures text { IfOk result (λ text. text.items ≡ script_text partitions app.now (items_of epochs.now)) }
    ensures json { IfOk result (λ text. (js : List Json) → items_of epochs.now ≡ map printed js
        → text.items ≡ printed (script_json partitions app.now js)) }
    // It is read as that JSON, where it nests no deeper than JSON is read.
    ensures reads { IfOk result (λ text. (js : List Json) → items_of epochs.now ≡ map printed js
        → HasNumbers (script_json partitions app.now js) → depth (script_json partitions app.now js) ≤ max_depth
        → read text.items ≡ of_json (script_json partitions app.now js)) }
{
    let mut text = Vec::new(alloc);
    push_script(&mut text, partitions, app, epochs)?;
    Ok(text)
}

/// Adds the JSON of a script.
fn push_script(
    text: &mut Vec<u8>,
    partitions: u8,
    app: &str,
    epochs: &[Vec<u8>],
) -> Result<(), AllocError>
    ensures { OnOk result (text.new.items ≡ text.old.items ++ script_text partitions app.now (items_of epochs.now)) }
{
    push_script_front(text, partitions, app)?;
    push_joined(text, epochs)?;
    text.extend_from_slice(b"]}")?;
    Ok(())
}

/// Adds the JSON of a script up to its first epoch.
fn push_script_front(text: &mut Vec<u8>, partitions: u8, app: &str) -> Result<(), AllocError>
    ensures { OnOk result (text.new.items ≡ text.old.items ++ script_front partitions app.now) }
{
    push_partitions(text, partitions)?;
    text.extend_from_slice(b",\"app\":\"")?;
    text.extend_from_slice(app.as_bytes())?;
    text.extend_from_slice(b"\",\"epochs\":[")?;
    Ok(())
}

/// Adds the first member of a script.
fn push_partitions(text: &mut Vec<u8>, partitions: u8) -> Result<(), AllocError>
    ensures { OnOk result (text.new.items ≡ text.old.items ++ (codes "{\"partitions\":" ++ decimal partitions)) }
{
    let mut number = Buffer::new();
    text.extend_from_slice(b"{\"partitions\":")?;
    text.extend_from_slice(number.format(partitions).as_bytes())?;
    Ok(())
}

/// Adds texts, with a comma between two.
fn push_joined(text: &mut Vec<u8>, texts: &[Vec<u8>]) -> Result<(), AllocError>
    ensures { OnOk result (text.new.items ≡ text.old.items ++ joined (items_of texts.now)) }
{
    if let Some((first, rest)) = texts.split_first() {
        text.extend_from_slice(first)?;
        push_continued(text, rest)?;
    }
    Ok(())
}

/// Adds texts, each behind a comma.
fn push_continued(text: &mut Vec<u8>, texts: &[Vec<u8>]) -> Result<(), AllocError>
    ensures { OnOk result (text.new.items ≡ text.old.items ++ continued (items_of texts.now)) }
{
    for next in texts {
        text.push(b',')?;
        text.extend_from_slice(next)?;
    }
    Ok(())
}
