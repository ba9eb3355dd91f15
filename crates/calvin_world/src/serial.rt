//! Every replica is the serial run.
ghost use Rattle.std.specs.Prelude.{List};
ghost use Rattle.calvin_order.specs.Configs.{Config};
ghost use Rattle.calvin_world.specs.declared.event.Event.{Event};
ghost use Rattle.calvin_world.specs.declared.event.Outcome.{Outcome};
ghost use Rattle.calvin_world.specs.Worlds.{WorldState, opening, Leads};
ghost use Rattle.calvin_world.specs.Promises.{IsSerial, PointsAreSerial, StandAlike};

use calvin_app::App;

/// After every list of events: a node that stands at the end of an epoch has exactly its partition's rows of the serial run
/// of what is chosen, and has sent its replies; every reply, read and snapshot is that of the serial run.
pub fn replicas_are_serial<A: App>()
    ensures { (c : Config) (events : List (Event A.Args)) (outcomes : List Outcome) (w : WorldState A.Args A.Row A.Reply) → Leads A.meaning (opening c) events outcomes w → IsSerial A.meaning w }
{}

/// After every list of events: an open point has its partition's rows of the serial run up to it, once the epochs up to it
/// are merged and done, however much is done of later ones.
pub fn points_are_serial<A: App>()
    ensures { (c : Config) (events : List (Event A.Args)) (outcomes : List Outcome) (w : WorldState A.Args A.Row A.Reply)
        → Leads A.meaning (opening c) events outcomes w → PointsAreSerial A.meaning w }
{}

/// After every list of events: two nodes of one partition that stand at the end of the same epochs hold equal rows, and each
/// has sent the replies that the other has sent at the places of these epochs.
pub fn standing_alike<A: App>()
    ensures { (c : Config) (events : List (Event A.Args)) (outcomes : List Outcome) (w : WorldState A.Args A.Row A.Reply) → Leads A.meaning (opening c) events outcomes w → StandAlike w }
{}
