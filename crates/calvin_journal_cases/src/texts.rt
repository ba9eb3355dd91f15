//! Texts of scripts, as they are written.
use crate::checks::same;
use calvin_journal_texts::script_text;
use std::test::Fail;

#[test]
#[tactic(auto, unfolding(json::specs::Print::escape_byte))]
fn the_lines_of_a_journal_are_a_script(rt: HostRuntime) -> Result<(), Fail> {
    let alloc = rt.alloc();
    let mut lines = Vec::new(alloc);
    let none = script_text(alloc, 1, "kv", &lines)?;
    let wanted = b"{\"partitions\":1,\"app\":\"kv\",\"epochs\":[]}";
    same(&rt, none.as_slice(), wanted.as_slice());
    lines.push(b"[]".to_vec(alloc)?)?;
    lines.push(b"[{\"group\":1,\"txns\":[]}]".to_vec(alloc)?)?;
    let script = script_text(alloc, 16, "stock", &lines)?;
    let wanted =
        b"{\"partitions\":16,\"app\":\"stock\",\"epochs\":[[],[{\"group\":1,\"txns\":[]}]]}";
    same(&rt, script.as_slice(), wanted.as_slice());
    Ok(())
}
