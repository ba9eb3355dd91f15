//! Worked cases: lists of events from the opening, with the outcome of each.
ghost use Rattle.std.specs.Prelude.{◌≡◌, ℕ, ◌++◌, false};
ghost use Rattle.calvin_app.specs.Meaning.{Meaning};
ghost use Rattle.calvin_app.specs.Kv.{kv};
ghost use Rattle.calvin_app.specs.declared.kv.KvRequest.{KvRequest};
ghost use Rattle.calvin_app.specs.declared.kv.KvReply.{KvReply};
ghost use Rattle.calvin_world.specs.Worlds.{WorldState, opening, Leads};
ghost use Rattle.calvin_world.specs.WorkedCases.{alone, alone_with, no_start, refusals, one_run, one_done, RanOne, done_times, restarting, after_restart, RanRestart, marked_run, marked_done, RanMarked, over_a_point, point_refusals, outbid, outbid_done, RanOutbid, empty_run, empty_done, RanEmpty, reply_delivered, reply_refused, kept_run, kept_done, RanKept, plain_run, plain_done, cold_run, cold_done, RanCold, marked_in_time, marked_in_time_done, RanInTime, unmarked, unmarked_done};
ghost use Rattle.calvin_world.specs.WorkedBallots.{three, first_ballot, sent_first, second_ballot, sent_second, late_accept, late_refused, with_refusal};
ghost use Rattle.calvin_world.specs.WorkedMove.{two, move_ordering, move_running, RanMove};

/// A new node refuses what it has no ground for, and is as it was.
pub fn refused_events<Args, Row, Reply>()
    ensures { (m : Meaning Args Row Reply) → Leads m (opening alone) no_start refusals (opening alone) }
{}

/// A request from its submission to its reply, in a world of one node.
pub fn one_node_run()
    ensures { (w : WorldState KvRequest ℕ KvReply) × Leads kv (opening alone) one_run one_done w × RanOne w }
{}

/// A restart between the two phases of the synod: the promise no longer counts, and the epoch isn't closed. A batch that is
/// closed anew is proposed at a greater round.
pub fn restart_between_phases()
    ensures { (w : WorldState KvRequest ℕ KvReply) × Leads kv (opening alone) restarting after_restart w × RanRestart w }
{}

/// A mark, a request that is finished after it, a snapshot of the marked epoch and a restart, in a world of one node.
pub fn snapshot_by_a_point()
    ensures { (w : WorldState KvRequest ℕ KvReply) × Leads kv (opening alone) marked_run marked_done w × RanMarked w }
{}

/// An open point refuses a second mark and a cooling; a restart forgets it.
pub fn refused_over_a_point()
    ensures { Leads kv (opening alone) over_a_point point_refusals (opening alone) }
{}

/// A proposal that was made before another one comes late: its prepare is refused with the promise, and the refusal tells
/// the proposer nothing new.
pub fn old_prepare_refused()
    ensures { (w : WorldState KvRequest ℕ KvReply) × Leads kv (opening alone) outbid outbid_done w × RanOutbid w }
{}

/// An epoch without requests: it is closed, decided and merged, nothing is to be locked, and the node stands at its end.
pub fn empty_epoch()
    ensures { (w : WorldState KvRequest ℕ KvReply) × Leads kv (opening alone) empty_run empty_done w × RanEmpty w }
{}

/// A reply can't be handed to a node.
pub fn reply_not_deliverable()
    ensures { (w : WorldState KvRequest ℕ KvReply) × Leads kv (opening alone) reply_delivered reply_refused w }
{}

/// A snapshot is taken once, and a restart comes back with it: a request of its epochs is no longer there to begin. From its
/// record the node is opened under the same order, and refused where its epoch is ordered otherwise.
pub fn snapshot_then_restart()
    ensures { (w : WorldState KvRequest ℕ KvReply) × Leads kv (opening alone) kept_run kept_done w × RanKept w }
{}

/// Without points no mark is taken, and without a cold table no row goes there.
pub fn refused_without_tables()
    ensures { (w : WorldState KvRequest ℕ KvReply) × Leads kv (opening (alone_with false false)) plain_run plain_done w }
{}

/// A request that may touch cold rows is held back over one closing, and its keys are warmed meanwhile.
pub fn cold_submit()
    ensures { (w : WorldState KvRequest ℕ KvReply) × Leads kv (opening alone) cold_run cold_done w × RanCold w }
{}

/// A point is opened at the end of an epoch, a request of the next one is run, and a snapshot of the first is taken: it has
/// the first epoch's row, while the node has the second's.
pub fn mark_then_snapshot()
    ensures { (w : WorldState KvRequest ℕ KvReply) × Leads kv (opening alone) marked_in_time marked_in_time_done w × RanInTime w }
{}

/// Without a point a snapshot of an epoch is refused once something later is done, and so is a point.
pub fn snapshot_without_mark()
    ensures { (w : WorldState KvRequest ℕ KvReply) × Leads kv (opening alone) unmarked unmarked_done w }
{}

/// Three replicas. Replica 0 has voted for its request in its first ballot; replica 1 proposes another request for the same slot,
/// is told of the vote with the promise, and asks all to accept the first one's request, not its own.
pub fn new_ballot_keeps_the_vote()
    ensures { (w : WorldState KvRequest ℕ KvReply) × Leads kv (opening three) (first_ballot ++ second_ballot) (done_times 15) w × (w.packets ≡ sent_first ++ sent_second) }
{}

/// After that the accept of the first ballot comes to replica 1, which has promised the second: it is refused with the promise,
/// and its record is unchanged. The refusal tells replica 0 of no greater round.
pub fn old_ballot_refused()
    ensures { (w : WorldState KvRequest ℕ KvReply) × Leads kv (opening three) (first_ballot ++ second_ballot) (done_times 15) w × Leads kv w late_accept late_refused (with_refusal w) }
{}

/// One replica of two partitions: a number is put at one partition, and some of it moved to a key of the other. Each of the two
/// sends the other what it read, runs the move, writes what it stores, and replies.
pub fn move_across_partitions()
    ensures { (w : WorldState KvRequest ℕ KvReply) × Leads kv (opening two) (move_ordering ++ move_running) (done_times 30) w × RanMove w }
{}
