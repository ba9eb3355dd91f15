//! Laws of a scheduler's steps.
ghost use Rattle.std.specs.Prelude.{◌≡◌, ℕ, true, None, Some, ◌↔◌, List, [], Option};
ghost use Rattle.calvin_types.specs.declared.place.Place.{Place};
ghost use Rattle.calvin_types.specs.declared.txn.Txn.{Txn};
ghost use Rattle.calvin_types.specs.declared.key_set.Sets.{Sets};
ghost use Rattle.calvin_types.specs.Participants.{Site};
ghost use Rattle.calvin_app.specs.Rows.{Rows};
ghost use Rattle.calvin_lock.specs.Local.{IsReadyAt};
ghost use Rattle.calvin_sched.specs.Scheduling.{Scheduling, opened};
ghost use Rattle.calvin_sched.specs.Steps.{is_ready};
ghost use Rattle.calvin_sched.specs.Standing.{stands_at, unreleased};
ghost use Rattle.calvin_sched.specs.Progress.{left};

/// A place is ready exactly where no earlier unreleased place conflicts with it here, which is the answer of a lock manager that
/// is asked for what is unreleased. Where no epoch is merged the partition stands nowhere.
pub fn ready_is<Args, Row>()
    ensures ready { (here : Site) (s : Scheduling Args Row) (q : Place) (t : Txn Args) → (is_ready here s q t ≡ true) ↔ IsReadyAt here (unreleased s) q t.sets }
    ensures nowhere { (q : Place) (rows : Rows Row) → stands_at (opened {Args = Args} q rows) 0 [] ≡ None }
{}

/// Where a partition stands is the same by the places that are due as by those of them that aren't done: a place can be dropped
/// once it is done.
pub fn due_is<Args, Row>()
    ensures { (s : Scheduling Args Row) (merged : ℕ) (due : List Place) → stands_at s merged (left s due) ≡ stands_at s merged due }
{}
