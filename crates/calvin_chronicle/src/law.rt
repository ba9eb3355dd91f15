//! The law of a history's log, and a history before anything is written.
ghost use Rattle.std.specs.Prelude.{◌≡◌, []};

use crate::pen::Pen;
use logbook::{Gain, Plain, Play, Rule, Seen, Start, Word};
use std::marker::{Brand, Model, PhantomData};

/// The log only grows, and nothing stands after its end. An entry of it is an event that happened, or the end.
pub(crate) struct Law;

impl<E> Rule<Option<E>, u64> for Law {
    ghost use Rattle.std.specs.Prelude.{[]};
    ghost use base.Fml.{ftrue};
    ghost use Rattle.calvin_chronicle.specs.Rules.{IsKept};

    ghost holds = { λ cells log. IsKept cells log };

    ghost first = { [] };

    ghost hinted = { λ n log. Unit {0} };

    ghost shows = { λ log. [] };

    ghost keeps = { λ names log. ftrue };

    ghost moves = { λ ask before after answer. Unit {0} };
}

/// Whoever writes gains nothing by it.
pub(crate) struct Nothing;

impl<E> Gain<Option<E>, u64> for Nothing {
    ghost use base.Fml.{ftrue};

    ghost after = { λ names about answer. ftrue };
}

/// A step that adds an entry, and as an offer the one that adds an event.
pub(crate) struct Add;

impl<E> Play<Option<E>, u64> for Add {
    ghost use Rattle.calvin_chronicle.specs.Rules.{Adds};

    ghost then = { Adds };
}

impl<E> Plain<E, Option<E>, u64> for Add {
    ghost use Rattle.std.specs.Prelude.{None, Some};

    ghost ask = { λ event. Some event };

    ghost state = { λ event. None };
}

/// The offer that adds the end.
pub(crate) struct End;

impl<E> Plain<(), Option<E>, u64> for End {
    ghost use Rattle.std.specs.Prelude.{None};

    ghost ask = { λ unit. None };

    ghost state = { λ unit. None };
}

/// Which history it is. A pen, its marks and its whole have it in their type, so that a mark of another history never passes for
/// one of this. Each call of a program picks it for a proof; at run time nothing of it is there.
pub trait Naming: Send + Sync {
    ghost use Rattle.logbook.specs.Pages.{Book};

    ghost book: { Book };
}

/// What a call passes that picks its history.
impl Naming for Brand {
    ghost book = { record { number = 0; log_name = 0; cells_name = 0 } };
}

/// A history in which nothing was written. To a contract it is which history it is.
#[derive(Drop)]
pub struct Opened<E> {
    head: Word<Option<E>, u64, Law>,
    seen: Seen<Option<E>, u64, Law>,
}

impl<E> Model for Opened<E> {
    ghost use Rattle.std.specs.Prelude.{◌≡◌, []};
    ghost use Rattle.logbook.specs.Pages.{Book, book_coded};
    ghost use Rattle.calvin_chronicle.specs.Rules.{head_of};

    ghost Value = { Book };

    ghost coded = { book_coded };

    ghost view = { λ o. o.seen.book };

    ghost invariant = { λ o. (o.seen.log ≡ []) × (o.head ≡ head_of o.seen.book) };
}

impl<E> Opened<E> {
    /// A new history. No clause says which one it is, as it is one more at each call: a caller takes that from what is returned.
    pub fn new() -> Opened<E> {
        let (seen, mut first, _second) = Seen::open(Start::alone(), 0, 0);
        Opened {
            head: Word::tracked(0, &mut first),
            seen,
        }
    }

    /// The one pen that writes it.
    pub fn named<J: Naming>(self) -> Pen<E, J>
        requires { self ≡ J.book }
        ensures { result ≡ [] }
    {
        let Opened { head, seen } = self;
        Pen {
            head,
            count: 0,
            seen,
            of: PhantomData,
        }
    }
}
