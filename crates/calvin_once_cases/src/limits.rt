//! The worked case `once_bounds`: what the application says of itself, and where it keeps a reply. And what is too wide for it.
use crate::asserted::same;
use calvin_app::{App, Kv};
use calvin_once::{Once, kept_key};
use calvin_stock::{Stock, stock_once};
use calvin_types::{Config, Fault, Key, RequestId};
use std::process::Abort;
use std::test::Fail;

/// What an application says of itself.
fn limits<A: App>(app: &A) -> (usize, u8) {
    (app.most_keys(), app.top_table())
}

#[test]
fn once_bounds(rt: HostRuntime) -> Result<(), Fail> {
    let app = stock_once();
    same(&rt, limits(&app), (7, 4));
    let id = RequestId {
        client: 7,
        number: 5,
    };
    let key = app.kept_key(id);
    same(
        &rt,
        key,
        Key {
            table: 4,
            id: 30_064_771_077,
        },
    );
    same(&rt, kept_key(3, id), key);
    same(&rt, Config::new(2, 1)?.partition_of(&key), 1);
    Ok(())
}

/// The refusal of an application, or 0 where it is made.
fn refused(made: Result<(), Fault>) -> u8 {
    match made {
        Ok(()) => 0,
        Err(fault) => fault.number(),
    }
}

#[test]
fn too_wide(rt: HostRuntime) -> Result<(), Fail> {
    same(&rt, refused(Once::new(Kv).map(|_app| ())), 71);
    same(&rt, refused(Once::new(Stock).map(|_app| ())), 0);
    Ok(())
}
