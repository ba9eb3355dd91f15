//! The search for sets.
ghost use Rattle.std.specs.Prelude.{◌≡◌, Ok, IfOk, IsOkUnless};
ghost use Rattle.calvin_app.specs.Rows.{view};
ghost use Rattle.calvin_recon.specs.Scouting.{found};

use calvin_app::{App, Look, Settles, View, look_up};
use calvin_types::{Fault, Sets};

/// How often rows are looked at for one request at most.
const MOST_LOOKS: usize = 16;

/// The sets that a request needs of the rows that are looked at. The first ones are those that it needs where there is no
/// row, and the next ones those that it needs of what the last ones' reads show; the first that repeat themselves are the
/// answer (Thomson et al. 2012, section 3.2.1: the reconnaissance query, in low isolation). Refused with `Unsettled`
/// where those after sixteen looks still differ from the ones before.
pub fn scout<A: App, L: Look<A::Row>>(app: &A, args: &A::Args, rows: &L) -> Result<Sets, Fault>
    ensures found { result ≡ found A.meaning args.now (L.shown rows.now) }

    // They are those that the request needs of what is shown of their own reads.
    ensures agree { IfOk result (λ sets. sets ≡ A.meaning.needs args.now (view (L.shown rows.now) sets.reads)) }
    ensures only { IsOkUnless result Fault.Unsettled }
{
    let mut seen = View::new();
    let mut sets = app.sets(args, &seen);
    for _look in 0..MOST_LOOKS {
        seen.clear();
        look_up(rows, &sets.reads, &mut seen);
        let next = app.sets(args, &seen);
        if next == sets {
            return Ok(sets);
        }
        sets = next;
    }
    Err(Fault::Unsettled)
}

/// The sets that `scout` finds where they depend on rows of the first reads alone: there always are some, and they are
/// those that the request needs of all rows that can be looked at.
pub fn settled_sets<A: Settles, L: Look<A::Row>>(app: &A, args: &A::Args, rows: &L) -> Sets
    ensures found { found A.meaning args.now (L.shown rows.now) ≡ Ok result }
    ensures needed { result ≡ A.meaning.needs args.now (L.shown rows.now) }
{
    scout(app, args, rows).unwrap()
}
