//! Rows and views in lists of just their room, where room that is refused for want of memory is asked for once more. With ample
//! memory nothing is refused. `rt try --test --fail-alloc N` refuses the Nth allocation of a test: for each N, from 1 until
//! `nothing_refused` has passed for many in turn, `refused_once` has to pass (`tools/check_refusals`).
use crate::checks::same;
use crate::kv::key;
use calvin_app::{Look, View};
use calvin_row_list::RowList;
use calvin_types::{Fault, Key, KeySet, MOST_KEYS};
use calvin_view_list::ViewList;
use std::alloc::Global;
use std::process::Abort;
use std::test::Fail;

/// So many views stand in a row, and so many of them stay in the end.
const VIEWS: u64 = 40;

const LEFT: usize = 18;

/// How many rows the view of a number has.
fn rows_of(number: u64) -> u64 {
    number % 17
}

/// The row of a key in the view of a number.
fn row_of(number: u64, id: u64) -> u64 {
    number.saturating_mul(100).saturating_add(id)
}

/// The view of a number: its first keys, each with its row.
fn view_of(number: u64) -> View<u64> {
    let mut view = View::new();
    for id in 0..rows_of(number) {
        if view.len() < MOST_KEYS {
            view.put(key(id), row_of(number, id));
        }
    }
    view
}

/// The keys of the view of a number.
fn keys_of(number: u64) -> Result<KeySet, Fault> {
    let mut keys = KeySet::new();
    for id in 0..rows_of(number) {
        keys.insert(key(id))?;
    }
    Ok(keys)
}

/// The rows of a view, to be looked at.
#[derive(Drop)]
struct Seen<'a> {
    view: &'a View<u64>,
}

impl<'a> Look<u64> for Seen<'a> {
    ghost shown = { λ s. s.view.now };

    fn look(&self, key: &Key) -> Option<u64> {
        self.view.get(key)
    }
}

/// It is the view of a number.
fn check_view(rt: &impl Abort, view: &View<u64>, number: u64) {
    same(
        rt,
        (number, u64::try_from(view.len())),
        (number, Ok(rows_of(number))),
    );
    for id in 0..17 {
        let wanted = (id < rows_of(number)).then_some(row_of(number, id));
        same(rt, (number, id, view.get(&key(id))), (number, id, wanted));
    }
}

/// The first views are those of the first numbers.
fn check_views(rt: &impl Abort, views: &ViewList<u64>) {
    let mut number = 0;
    for at in 0..views.len() {
        check_view(rt, &views.at(at), number);
        number = number.saturating_add(1);
    }
}

/// There comes to be room for a view more, if not at once then with memory. Says how often it was refused.
fn make_room(rt: &impl Abort, views: &mut ViewList<u64>) -> Result<u32, Fault> {
    match views.reserve(1) {
        Err(Fault::OutOfMemory) => {
            check_views(rt, views);
            views.reserve(1)?;
            Ok(1)
        }
        Err(fault) => Err(fault),
        Ok(()) => Ok(0),
    }
}

/// All views come into a list in turn; the last ones are taken back.
fn views_endured(rt: &impl Abort, alloc: Global) -> Result<u32, Fault> {
    let mut views = ViewList::new(alloc);
    let mut refused: u32 = 0;
    for number in 0..VIEWS {
        refused = refused.saturating_add(make_room(rt, &mut views)?);
        views.reserve(1)?;
        views.push_reserved(&view_of(number));
    }
    same(rt, u64::try_from(views.len()), Ok(VIEWS));
    check_views(rt, &views);
    if views.len() > LEFT {
        views.truncate(LEFT);
    }
    same(rt, views.len(), LEFT);
    check_views(rt, &views);
    Ok(refused)
}

/// The rows of a list are those of the view of a number.
fn check_rows(rt: &impl Abort, rows: &RowList<u64>, number: u64) {
    check_view(rt, &rows.view(), number);
    for id in 0..17 {
        let wanted = (id < rows_of(number)).then_some(row_of(number, id));
        same(rt, (number, id, rows.get(&key(id))), (number, id, wanted));
    }
}

/// There comes to be room for some rows, if not at once then with memory. Says how often it was refused.
fn fit(rt: &impl Abort, rows: &mut RowList<u64>, keys: usize, number: u64) -> Result<u32, Fault> {
    match rows.reserve(keys) {
        Err(Fault::OutOfMemory) => {
            check_rows(rt, rows, number);
            rows.reserve(keys)?;
            Ok(1)
        }
        Err(fault) => Err(fault),
        Ok(()) => Ok(0),
    }
}

/// The rows of each view take the place of those of the one before.
fn rows_endured(rt: &impl Abort, alloc: Global) -> Result<u32, Fault> {
    let mut rows = RowList::new(alloc);
    let mut refused: u32 = 0;
    let mut last = 0;
    for number in 0..VIEWS {
        let view = view_of(number);
        let keys = keys_of(number)?;
        refused = refused.saturating_add(fit(rt, &mut rows, keys.len(), last)?);
        rows.reserve(keys.len())?;
        rows.read(&Seen { view: &view }, &keys);
        check_rows(rt, &rows, number);
        last = number;
    }
    Ok(refused)
}

/// How many calls were refused.
fn endured(rt: &impl Abort, alloc: Global) -> Result<u32, Fault> {
    let at_views = views_endured(rt, alloc)?;
    Ok(at_views.saturating_add(rows_endured(rt, alloc)?))
}

#[test]
fn nothing_refused(rt: HostRuntime) -> Result<(), Fail> {
    same(&rt, endured(&rt, rt.alloc())?, 0);
    Ok(())
}

#[test]
fn refused_once(rt: HostRuntime) -> Result<(), Fail> {
    same(&rt, endured(&rt, rt.alloc())? <= 1, true);
    Ok(())
}
