//! Requests that carry their name, rows with kept replies among them, and the applications whose replies can be kept.
ghost use Rattle.std.proofs.Common.{lit<};
ghost use Rattle.std.specs.Mem.{FitsInMemory};
ghost use Rattle.calvin_app.specs.contracts.view.View.{the_row as the_view_row};
ghost use Rattle.calvin_app.specs.contracts.job.Job.{the_row as the_job_row};
ghost use Rattle.calvin_app.specs.contracts.job.Work.{the_row as the_work_row};
ghost use Rattle.calvin_once.specs.contracts.kept.Named.{the_row as the_named_row};
ghost use Rattle.calvin_once.specs.contracts.kept.OnceRow.{the_row as the_once_row};

use calvin_app::{App, Kv};
use calvin_types::RequestId;

/// A request's arguments with its name.
#[derive(Clone, Copy, Debug, PartialEq, Eq)]
pub struct Named<Args> {
    pub id: RequestId,
    pub args: Args,
}

/// A row of the application within, or a reply that is kept.
#[derive(Clone, Copy, Debug, PartialEq, Eq)]
pub enum OnceRow<Row, Reply> {
    Row(Row),
    Reply(Reply),
}

/// An application whose replies can be kept among its rows: as many of both as a request needs fit in memory.
pub trait Keepable: App {
    /// Sixteen rows or kept replies fit in memory.
    ghost kept_rows_fit: { FitsInMemory (the_view_row (the_once_row Self.Row.row Self.Reply.row)) };

    /// So do a named request with what it sees, and these with what came of it.
    ghost kept_job_fits: { FitsInMemory (the_job_row (the_named_row Self.Args.row) (the_once_row Self.Row.row Self.Reply.row)) };

    ghost kept_work_fits: { FitsInMemory (the_work_row (the_named_row Self.Args.row) (the_once_row Self.Row.row Self.Reply.row) Self.Reply.row) };
}

impl Keepable for Kv {
    ghost kept_rows_fit = { lit< tt };

    ghost kept_job_fits = { lit< tt };

    ghost kept_work_fits = { lit< tt };
}
