//! Scripts for the application that they name.
use crate::checks::same;
use calvin_script::{AppName, AppScript};
use calvin_script_tokens::read_script;
use calvin_types::Fault;
use std::alloc::{AllocError, Global};
use std::test::Fail;

/// The application of the script that a text is.
fn app_of(alloc: Global, text: &str) -> Result<Result<AppName, Fault>, AllocError> {
    let mut bytes = Vec::new(alloc);
    bytes.extend_from_slice(text.as_bytes())?;
    let read = read_script(alloc, bytes);
    let app = match &read {
        Ok(AppScript::Kv(_)) => Ok(AppName::Kv),
        Ok(AppScript::Stock(_)) => Ok(AppName::Stock),
        Ok(AppScript::Once(_)) => Ok(AppName::Once),
        Err(fault) => Err(*fault),
    };
    drop(read);
    Ok(app)
}

/// Texts, the usual and others, and the application of the script that each is.
const TEXTS: [(&str, Result<AppName, Fault>); 12] = [
    (
        r#"{"partitions":1,"app":"kv","epochs":[]}"#,
        Ok(AppName::Kv),
    ),
    (
        r#"{"partitions":1,"app":"stock","epochs":[]}"#,
        Ok(AppName::Stock),
    ),
    (
        r#"{"partitions":1,"app":"once","epochs":[]}"#,
        Ok(AppName::Once),
    ),
    (
        r#"{"partitions":1,"epochs":[],"app":"once"}"#,
        Ok(AppName::Once),
    ),
    (
        r#"{"partitions":1,"epochs":[],"app":"o\u006ece"}"#,
        Ok(AppName::Once),
    ),
    (
        r#"{"partitions":1,"epochs":[],"app":"st\u006fck"}"#,
        Ok(AppName::Stock),
    ),
    (
        r#"{"partitions":1,"epochs":[],"app":"\u006bv"}"#,
        Ok(AppName::Kv),
    ),
    (
        r#"{"partitions":1,"epochs":[[{"group":0,"txns":[{"client":7,"number":5,"op":["settle",9]}]}]],"app":"once"}"#,
        Ok(AppName::Once),
    ),
    (
        r#"{"partitions":1,"epochs":[[{"group":0,"txns":[{"client":7,"number":5,"op":["put",9,1]}]}]],"app":"once"}"#,
        Err(Fault::BadScript),
    ),
    (
        r#"{"partitions":1,"app":"twice","epochs":[]}"#,
        Err(Fault::BadScript),
    ),
    (r#"{"partitions":1,"epochs":[]}"#, Err(Fault::BadScript)),
    (
        r#"{"partitions":1,"app":"once","epochs":[}"#,
        Err(Fault::BadJson),
    ),
];

#[test]
fn named_application(rt: HostRuntime) -> Result<(), Fail> {
    for &(text, app) in &TEXTS {
        same(&rt, (text, app_of(rt.alloc(), text)?), (text, app));
    }
    Ok(())
}
