//! A request that can be run anywhere, and what came of it.
ghost use Rattle.std.specs.Prelude.{◌≡◌, MatchBool};
ghost use Rattle.calvin_app.specs.Serial.{answer_on, writes_on};

use crate::answer::Answer;
use crate::app::App;
use crate::view::View;
use crate::writes::Writes;
use calvin_types::{Place, Txn};

/// A request with its place and with all that it sees, the rows of its declared reads: whoever has it can run it
/// (Thomson et al. 2012, section 3.2: a transaction is executed once its remote reads have come).
#[derive(Clone, Copy)]
pub struct Job<Args: Copy, Row: Copy> {
    pub place: Place,
    pub txn: Txn<Args>,
    pub view: View<Row>,
}

/// What a request was answered and what it writes, beside the request and what it saw, as plain data: of a `Computed` a
/// law of applications says by it that it fits in memory. None is made.
#[derive(Clone, Copy)]
pub struct Work<Args: Copy, Row: Copy, Reply: Copy> {
    pub job: Job<Args, Row>,
    pub answer: Answer<Reply>,
    pub writes: Writes<Row>,
}

/// A request that was run: what it was answered and what it writes belong to the request and to what it saw, whoever hands
/// it on.
#[derive(Drop)]
pub struct Computed<A: App> {
    pub job: Job<A::Args, A::Row>,
    pub answer: Answer<A::Reply>,
    pub writes: Writes<A::Row>,
    pub ghost answered: { answer ≡ answer_on A.meaning job.txn job.view },
    pub ghost written: { writes ≡ writes_on A.meaning job.txn job.view },
}

impl<Args: Copy + Eq, Row: Copy + Eq> Job<Args, Row> {
    /// Runs the request on what it sees: it is answered `Changed`, and writes nothing, where its declared sets aren't
    /// those that it needs there.
    #[tactic(auto, unfolding(crate::specs::Serial::answer_on, crate::specs::Serial::writes_on))]
    pub fn compute<A: App<Args = Args, Row = Row>>(self, app: &A) -> Computed<A>
        ensures { result.job ≡ self }
    {
        if !app.needs_only(&self.txn.args, &self.view, &self.txn.sets) {
            return Computed {
                job: self,
                answer: Answer::Changed,
                writes: Writes::new(),
            };
        }
        let (reply, writes) = app.run(&self.txn.args, &self.view);
        Computed {
            job: self,
            answer: Answer::Reply(reply),
            writes,
        }
    }
}

/// Whether two jobs of one place are the same request that sees the same rows.
pub fn is_same_job<A: App>(one: &Job<A::Args, A::Row>, other: &Job<A::Args, A::Row>) -> bool
    ensures { one.now.place ≡ other.now.place → MatchBool result (one.now ≡ other.now) (one.now ≡ other.now → ⊥) }
{
    one.txn == other.txn && one.view.is_same(&other.view)
}
