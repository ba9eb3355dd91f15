//! The book with the pen of its history.
ghost use Rattle.std.specs.Prelude.{◌≡◌, ◌≢◌, ◌++◌, ◌∷◌, [], IfOk, IfErr, IfSome, IsTrue, None};
ghost use Rattle.calvin_cluster_desk.specs.Receipts.{told_epoch};

use crate::receipt::{Founding, Report, Ticket, Told};
use crate::stopped::Stopped;
use calvin_app::{Answer, App, Computed};
use calvin_book::{Book, EventList, Look, unheard_at_first};
use calvin_chronicle::{Mark, Naming, Pen};
use calvin_lock::Locks;
use calvin_node::Act;
use calvin_store::Rows;
use calvin_types::{Fault, NodeId, Txn};
use calvin_world::Event;
use std::marker::Model;

/// A book, and the pen that writes its history, unless another hand wrote there. To a contract it is the events.
#[derive(Drop)]
pub struct Desk<A: App + Drop, L: Locks + Drop, S: Rows<A::Row> + Drop, J: Founding> {
    pub(crate) book: Book<A, L, S>,
    pen: Option<Pen<Event<A::Args>, J>>,
    /// No request is taken any more, and nobody waits for an answer.
    pub(crate) closed: bool,
    /// An event was refused for want of memory since this was set back.
    pub(crate) is_short: bool,
}

impl<A: App + Drop, L: Locks + Drop, S: Rows<A::Row> + Drop, J: Founding> Model
    for Desk<A, L, S, J> {
    ghost use Rattle.std.specs.Prelude.{◌≡◌, List, IfSome};
    ghost use Rattle.calvin_world.specs.declared.event.Event.{Event};

    ghost Value = { List (Event A.Args) };

    ghost view = { λ d. d.book.events };

    ghost invariant = { λ d. IfSome d.pen (λ p. p ≡ d.book.events) × (d.book.config ≡ J.config) };
}

/// Writes events one after another into a new history, and says whether that could be done.
fn write_all<Args: Copy, J: Naming>(pen: &mut Pen<Event<Args>, J>, events: &EventList<Args>) -> bool
    requires { pen.old ≡ [] }
    ensures { IsTrue result → pen.new ≡ events.now.items }
{
    for number in 0..events.len() {
        let Some(event) = events.get(number) else {
            return true;
        };
        if !pen.write(&event) {
            return false;
        }
    }
    true
}

/// A desk with a book, and a mark of what happened in it so far.
pub type Founded<A, L, S, J> = (Desk<A, L, S, J>, Mark<Event<<A as App>::Args>, J>);

impl<A: App + Drop, L: Locks + Drop, S: Rows<A::Row> + Drop, J: Founding> Desk<A, L, S, J> {
    /// A book, whose events are written into a new history, of which there is a mark. Where another hand wrote there, the book is
    /// handed back.
    pub fn new(
        book: Book<A, L, S>,
        mut pen: Pen<Event<A::Args>, J>,
    ) -> Result<Founded<A, L, S, J>, Book<A, L, S>>
        requires pen { pen ≡ [] }
        requires config { book.config ≡ J.config }
        ensures ok { IfOk result (λ r. (r.0 ≡ book.events) × (r.1 ≡ book.events)) }
        ensures back { IfErr result (λ b. b ≡ book) }
    {
        if !write_all(&mut pen, book.events()) {
            return Err(book);
        }
        let mark = pen.mark();
        Ok((
            Desk {
                book,
                pen: Some(pen),
                closed: false,
                is_short: false,
            },
            mark,
        ))
    }

    /// An event happens in the book and is written into the history, of which there is a mark. Refused as `Book::apply` is, and
    /// with `Closed` where another hand wrote into the history: then nothing happens any more.
    pub fn record(&mut self, event: &Event<A::Args>) -> Result<Mark<Event<A::Args>, J>, Fault>
        ensures { IfOk result (λ mark. (self.new ≡ self.old ++ event.now ∷ []) × (mark ≡ self.new)) }
    {
        let Some(mut pen) = self.pen.take() else {
            return Err(Fault::Closed);
        };
        match self.book.apply(event) {
            Ok(()) => {}
            Err(fault) => {
                self.pen = Some(pen);
                self.note(fault);
                return Err(fault);
            }
        }
        if !pen.write(event) {
            self.closed = true;
            return Err(Fault::Closed);
        }
        let mark = pen.mark();
        self.pen = Some(pen);
        Ok(mark)
    }

    /// An event was refused.
    fn note(&mut self, fault: Fault)
        ensures { self.new ≡ self.old }
    {
        if matches!(fault, Fault::OutOfMemory) {
            self.is_short = true;
        }
    }

    /// Takes what came of a node's job, and writes that into the history. Refused as `Book::finish_with` is, and with `Closed`
    /// where another hand wrote there.
    pub fn finish(&mut self, id: NodeId, computed: &Computed<A>) -> Result<(), Fault> {
        let Some(mut pen) = self.pen.take() else {
            return Err(Fault::Closed);
        };
        match self.book.finish_with(id, computed) {
            Ok(()) => {}
            Err(fault) => {
                self.pen = Some(pen);
                self.note(fault);
                return Err(fault);
            }
        }
        if !pen.write(&Event::At(id, Act::Finish(computed.job.place))) {
            self.closed = true;
            return Err(Fault::Closed);
        }
        self.pen = Some(pen);
        Ok(())
    }

    /// A request is submitted at a node, by a caller that was told so much. Refused with `Closed` where no request is taken any
    /// more, else as `Book::submit` is.
    pub fn submit(
        &mut self,
        told: &Told<A, J>,
        id: NodeId,
        txn: Txn<A::Args>,
    ) -> Result<Ticket<A, J>, Fault>
        ensures { IfOk result (λ t. (t.node ≡ id) × (t.txn ≡ txn) × (t.told ≡ told_epoch told.now.report)) }
    {
        if self.closed {
            return Err(Fault::Closed);
        }
        let Some(mut pen) = self.pen.take() else {
            return Err(Fault::Closed);
        };
        let submission = match self.book.submit(id, txn, told.epoch()) {
            Ok(submission) => submission,
            Err(fault) => {
                self.pen = Some(pen);
                return Err(fault);
            }
        };
        if !pen.write(&Event::At(id, Act::Submit(txn))) {
            self.closed = true;
            return Err(Fault::Closed);
        }
        let mark = pen.mark();
        self.pen = Some(pen);
        Ok(Ticket { submission, mark })
    }

    /// The answer to a ticket's request, and what its caller is told by it: none where there is none yet, or another hand wrote
    /// into the history.
    pub fn answer(&self, ticket: &Ticket<A, J>) -> Option<(Answer<A::Reply>, Told<A, J>)>
        ensures { IfSome result (λ r. IfSome r.1.report (λ a. (a.submission ≡ ticket.now) × (a.answer ≡ r.0)) × (r.1.report ≢ None)) }
    {
        unheard_at_first::<A::Args, A::Row, A::Reply>();
        let Some(pen) = &self.pen else {
            return None;
        };
        let Look::Found(place, answer) = self.book.look(&ticket.submission, 0) else {
            return None;
        };
        let report = Report {
            answered: ticket.submission.answered(place, answer),
            asked: ticket.mark.again(),
            mark: pen.mark(),
        };
        let report = Some(report);
        Some((answer, Told { report }))
    }

    /// Ends the history. The book is left as it stands. None where another hand wrote there.
    pub fn end(self) -> Option<Stopped<A, L, S, J>>
        ensures { IfSome result (λ s. (s.config ≡ J.config) × (s.events ≡ self)) }
    {
        let Desk { book, pen, .. } = self;
        let whole = pen?.end()?;
        Some(Stopped { book, whole })
    }
}
