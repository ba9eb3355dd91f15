//! What a request that begins answers.

use calvin_app::{App, View};
use calvin_types::{Few, Txn};
use std::marker::Model;

/// A request that began, with the rows that it read here, and the other partitions that run it, ascending: these wait for
/// the rows, where keys that are read are stored here.
#[derive(Drop)]
pub struct Serving<A: App> {
    pub txn: Txn<A::Args>,
    pub rows: View<A::Row>,
    pub others: Few<u8>,
}

impl<A: App> Model for Serving<A> {
    ghost use Rattle.std.specs.Coded.{codes};
    ghost use Rattle.std.specs.FinMap.{code};
    ghost use Rattle.calvin_sched.specs.Steps as steps;

    ghost Value = { steps.Serving A.Args A.Row };

    ghost coded = { Prim.hlevel (codes, code) };

    ghost view = { λ s. record { request = s.txn; rows = s.rows; others = s.others } };
}
