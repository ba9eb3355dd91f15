//! The application round another one.
ghost use Rattle.std.specs.Prelude.{◌≡◌, ◌↔◌, ◌⊎◌, ◌+◌, ◌<◌, false, [], length, min, refl, IsTrue, IfOk, IsErr, IsOkUnless};
ghost use Rattle.calvin_types.specs.Keys.{insert_key};
ghost use Rattle.calvin_types.specs.declared.limits.TheConstants.{MOST_KEYS};
ghost use Rattle.calvin_app.specs.declared.answer.Answer.TheVariants.{Reply};
ghost use Rattle.std.specs.FinMap as finmap;
ghost use Rattle.calvin_once.specs.Once.{once, inside, kept_key, kept_writes, wrapped, is_narrow};
ghost use Rattle.calvin_once.specs.OnceLaws.{once_lawful, once_settles};
ghost use Rattle.calvin_once.specs.OnceExact.{named_exact, kept_exact};

use crate::endings::without_last;
use crate::inside::{add_inside, as_reply, keep};
use crate::kept::{Keepable, Named, OnceRow};
use crate::keys::kept_key;
use calvin_app::{Answer, App, Settles, View, Writes};
use calvin_types::{Fault, Key, RequestId, Sets, Txn};
use std::alloc::AllocError;

/// An application by which each request's name has its effect once: the first request of a name that isn't answered
/// `Changed` is run by the application within, and its reply is kept as a row; each later one is told that reply, and
/// writes nothing. Rows are those of the one within, or kept replies. The one within leaves room for one more key and one
/// more table.
pub struct Once<A: Keepable> {
    app: A,
    ghost narrow: { IsTrue (is_narrow A.key_limit A.table_limit) },
}

impl<A: Keepable + Copy> Copy for Once<A> {}

impl<A: Keepable + Copy> Clone for Once<A> {
    ghost use Rattle.std.specs.Prelude.{◌≡◌, ⊤};

    ghost is_clone = { λ x y. y ≡ x };

    ghost is_infallible = { λ _. ⊤ };

    fn clone(&self) -> Result<Once<A>, AllocError> {
        Ok(*self)
    }
}

impl<A: Keepable + Drop> Once<A> {
    /// The application round one that leaves room. Refused with `TooWide` where that one's sets may have sixteen keys, or
    /// a key in the last table.
    pub fn new(app: A) -> Result<Once<A>, Fault>
        ensures wide { IsErr result ↔ (is_narrow A.key_limit A.table_limit ≡ false) }
        ensures only { IsOkUnless result Fault.TooWide }
    {
        if app.most_keys() <= 15 && app.top_table() < 255 {
            Ok(Once { app })
        } else {
            Err(Fault::TooWide)
        }
    }
}

impl<A: Keepable> Once<A> {
    /// A request of the application within, with its name among its arguments and the key of its kept reply among its
    /// declared sets. Refused with `TooManyKeys` where that key would be the seventeenth of a set.
    pub fn wrap(&self, txn: Txn<A::Args>) -> Result<Txn<Named<A::Args>>, Fault>
        ensures ok { IfOk result (λ named. named ≡ wrapped A.table_limit txn) }
        ensures full { IsErr result ↔ ((MOST_KEYS < length (insert_key (kept_key A.table_limit txn.id) txn.sets.reads))
            ⊎ (MOST_KEYS < length (insert_key (kept_key A.table_limit txn.id) txn.sets.writes))) }
        ensures only { IsOkUnless result Fault.TooManyKeys }
    {
        let key = self.kept_key(txn.id);
        let mut sets = txn.sets;
        sets.reads.insert(key)?;
        sets.writes.insert(key)?;
        Ok(Txn {
            id: txn.id,
            attempt: txn.attempt,
            args: Named {
                id: txn.id,
                args: txn.args,
            },
            sets,
        })
    }

    /// Where the reply to the request of this name is kept.
    pub fn kept_key(&self, id: RequestId) -> Key
        ensures { result ≡ kept_key A.table_limit id }
    {
        kept_key(self.app.top_table(), id)
    }

    /// Puts the rows of the application within into a view that has none yet, if its sets depend on them.
    fn add_looked_at(
        &self,
        args: &A::Args,
        view: &View<OnceRow<A::Row, A::Reply>>,
        seen: &mut View<A::Row>,
    )
        requires { seen.old ≡ finmap.empty }
        ensures { A.meaning.needs args.now seen.new ≡ A.meaning.needs args.now (inside A.table_limit view.now) }
    {
        if self.app.dependent(args) {
            add_inside(view, self.app.top_table(), seen);
        }
    }

    /// Tells the kept reply, in place of an answer that is there, or does what is asked and keeps the reply, among writes
    /// that are none yet.
    fn tell(
        &self,
        args: &Named<A::Args>,
        view: &View<OnceRow<A::Row, A::Reply>>,
        answer: &mut Answer<A::Reply>,
        writes: &mut Writes<OnceRow<A::Row, A::Reply>>,
    )
        requires { writes.old ≡ [] }
        ensures answer { answer.new ≡ Reply ((once A.meaning A.key_limit A.table_limit).outcome args.now view.now).0 }
        ensures writes { writes.new ≡ ((once A.meaning A.key_limit A.table_limit).outcome args.now view.now).1 }
    {
        let key = self.kept_key(args.id);
        match as_reply(view.get(&key)) {
            Some(reply) => *answer = Answer::Reply(reply),
            None => self.run_inside(&args.args, key, view, answer, writes),
        }
    }

    /// Does what is asked on the rows of the application within, and keeps the reply under this key.
    fn run_inside(
        &self,
        args: &A::Args,
        key: Key,
        view: &View<OnceRow<A::Row, A::Reply>>,
        answer: &mut Answer<A::Reply>,
        writes: &mut Writes<OnceRow<A::Row, A::Reply>>,
    )
        requires none { writes.old ≡ [] }
        requires above { A.table_limit < key.table }
        ensures answer { answer.new ≡ Reply (A.meaning.outcome args.now (inside A.table_limit view.now)).0 }
        ensures writes { writes.new ≡ kept_writes key (A.meaning.outcome args.now (inside A.table_limit view.now)) }
    {
        let mut seen = View::new();
        add_inside(view, self.app.top_table(), &mut seen);
        let mut done = Writes::new();
        self.app.run_into(args, &seen, answer, &mut done);
        match answer {
            Answer::Reply(reply) => keep(&done, key, *reply, writes),
            Answer::Changed => unreachable!(),
        }
    }
}

impl<A: Keepable> App for Once<A> {
    type Args = Named<A::Args>;

    type Row = OnceRow<A::Row, A::Reply>;

    type Reply = A::Reply;

    ghost meaning = { once A.meaning A.key_limit A.table_limit };

    ghost is_dependent = { λ a. A.is_dependent a.args };

    ghost key_limit = { min (A.key_limit + 1) 16 };

    ghost table_limit = { min (A.table_limit + 1) 255 };

    fn most_keys(&self) -> usize {
        (self.app.most_keys() + 1).min(16)
    }

    fn top_table(&self) -> u8 {
        self.app.top_table().saturating_add(1)
    }

    fn dependent(&self, args: &Named<A::Args>) -> bool {
        self.app.dependent(&args.args)
    }

    fn sets(&self, args: &Named<A::Args>, view: &View<OnceRow<A::Row, A::Reply>>) -> Sets {
        let key = self.kept_key(args.id);
        let mut seen = View::new();
        self.add_looked_at(&args.args, view, &mut seen);
        let mut sets = self.app.sets(&args.args, &seen);
        sets.reads.grow(key);
        sets.writes.grow(key);
        sets
    }

    fn needs_only(
        &self,
        args: &Named<A::Args>,
        view: &View<OnceRow<A::Row, A::Reply>>,
        sets: &Sets,
    ) -> bool {
        let Some(others) = without_last(sets, self.kept_key(args.id)) else {
            return false;
        };
        let mut seen = View::new();
        self.add_looked_at(&args.args, view, &mut seen);
        self.app.needs_only(&args.args, &seen, &others)
    }

    fn run(
        &self,
        args: &Named<A::Args>,
        view: &View<OnceRow<A::Row, A::Reply>>,
    ) -> (A::Reply, Writes<OnceRow<A::Row, A::Reply>>) {
        let mut answer = Answer::Changed;
        let mut writes = Writes::new();
        self.tell(args, view, &mut answer, &mut writes);
        match answer {
            Answer::Reply(reply) => (reply, writes),
            Answer::Changed => unreachable!(),
        }
    }

    fn run_into(
        &self,
        args: &Named<A::Args>,
        view: &View<OnceRow<A::Row, A::Reply>>,
        answer: &mut Answer<A::Reply>,
        writes: &mut Writes<OnceRow<A::Row, A::Reply>>,
    ) {
        self.tell(args, view, answer, writes);
    }

    ghost lawful = { once_lawful A.meaning A.is_dependent A.key_limit A.table_limit A.lawful };

    ghost rows_fit = { A.kept_rows_fit };

    ghost job_fits = { A.kept_job_fits };

    ghost work_fits = { A.kept_work_fits };

    ghost args_exact = { named_exact A.Args.eq A.args_exact };

    ghost rows_exact = { kept_exact _ A.rows_exact A.replies_exact (λ _ _. refl) (λ _ _. refl) };

    ghost replies_exact = { A.replies_exact };
}

impl<A: Keepable + Settles> Settles for Once<A> {
    ghost settles = { once_settles A.meaning A.key_limit A.table_limit A.settles };
}
