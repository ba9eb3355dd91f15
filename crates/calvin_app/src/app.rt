//! What an application is.
ghost use Rattle.std.specs.Prelude.{◌≡◌, [], ℕ, Bool};
ghost use Rattle.std.specs.Mem.{FitsInMemory};
ghost use Rattle.calvin_app.specs.Meaning.{Meaning, IsLawful, IsExact};
ghost use Rattle.calvin_app.specs.contracts.view.View.{the_row as the_view_row};
ghost use Rattle.calvin_app.specs.contracts.job.Job.{the_row as the_job_row};
ghost use Rattle.calvin_app.specs.contracts.job.Work.{the_row as the_work_row};
ghost use Rattle.calvin_app.specs.declared.answer.Answer.TheVariants.{Reply};
ghost use Rattle.calvin_types.specs.SameKeys.{same_sets};

use crate::answer::Answer;
use crate::view::View;
use crate::writes::Writes;
use calvin_types::Sets;

/// An application: which keys a request needs, and what it does. Both follow from its arguments and from the rows that
/// it sees alone, so that every node that runs a request does the same (Thomson et al. 2012, section 2).
pub trait App {
    /// What a request asks for.
    type Args: Copy + Eq;

    /// What is stored under a key.
    type Row: Copy + Eq;

    /// What a request is told.
    type Reply: Copy + Eq;

    /// The sets that arguments need on a view, and their reply and writes on it.
    ghost meaning: { Meaning Self.Args Self.Row Self.Reply };

    /// Whether the sets that arguments need may depend on rows.
    ghost is_dependent: { Self.Args → Bool };

    /// The most keys of a set that a request needs.
    ghost key_limit: { ℕ };

    /// The highest table of a key that a request needs.
    ghost table_limit: { ℕ };

    /// No set that a request needs has more keys than this; it is at most 16.
    fn most_keys(&self) -> usize
        ensures { result ≡ key_limit };

    /// No key that a request needs is in a table above this.
    fn top_table(&self) -> u8
        ensures { result ≡ table_limit };

    /// Whether the sets may depend on rows, so that they have to be looked for before the request can be declared
    /// (Thomson et al. 2012, section 3.2.1: a dependent transaction, whose sets a reconnaissance query finds).
    fn dependent(&self, args: &Self::Args) -> bool
        ensures { result ≡ is_dependent args.now };

    /// The sets that the request needs on these rows. A key that the view doesn't have counts as one without a row.
    fn sets(&self, args: &Self::Args, view: &View<Self::Row>) -> Sets
        ensures { result ≡ meaning.needs args.now view.now };

    /// Whether these are the sets that `sets` gives. An application may tell so without making them.
    fn needs_only(&self, args: &Self::Args, view: &View<Self::Row>, sets: &Sets) -> bool
        ensures { result ≡ same_sets (meaning.needs args.now view.now) sets.now }
    {
        self.sets(args, view) == *sets
    }

    /// What the request is told and what it writes on these rows. It writes only keys of the writes that it needs.
    fn run(&self, args: &Self::Args, view: &View<Self::Row>) -> (Self::Reply, Writes<Self::Row>)
        ensures { result ≡ meaning.outcome args.now view.now };

    /// The same as `run`, with the reply in place of an answer that is there and the writes put where there are none yet,
    /// so that large ones needn't be moved.
    fn run_into(
        &self,
        args: &Self::Args,
        view: &View<Self::Row>,
        answer: &mut Answer<Self::Reply>,
        writes: &mut Writes<Self::Row>,
    )
        requires { writes.old ≡ [] }
        ensures answer { answer.new ≡ Reply (meaning.outcome args.now view.now).0 }
        ensures writes { writes.new ≡ (meaning.outcome args.now view.now).1 }
    {
        let (reply, all) = self.run(args, view);
        *answer = Answer::Reply(reply);
        *writes = all;
    }

    /// The laws of applications.
    ghost lawful: { IsLawful meaning is_dependent key_limit table_limit };

    /// Sixteen rows fit in memory.
    ghost rows_fit: { FitsInMemory (the_view_row Self.Row.row) };

    /// So do a request with what it sees, and these with what came of it.
    ghost job_fits: { FitsInMemory (the_job_row Self.Args.row Self.Row.row) };

    ghost work_fits: { FitsInMemory (the_work_row Self.Args.row Self.Row.row Self.Reply.row) };

    /// Arguments, rows and replies that compare equal are the same.
    ghost args_exact: { IsExact Self.Args.eq };

    ghost rows_exact: { IsExact Self.Row.eq };

    ghost replies_exact: { IsExact Self.Reply.eq };
}
