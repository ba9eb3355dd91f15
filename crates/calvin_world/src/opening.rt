//! Which nodes there are, and how one is opened.
ghost use Rattle.std.specs.Prelude.{◌≡◌, ◌<◌, true, false, List, [], Ok, Err};
ghost use Rattle.calvin_types.specs.declared.fault.Fault.{Fault};
ghost use Rattle.calvin_types.specs.declared.fault.Fault.TheVariants.{OrderChanged};
ghost use Rattle.calvin_types.specs.declared.place.NodeId.{NodeId};
ghost use Rattle.calvin_types.specs.Deeds.{Does};
ghost use Rattle.calvin_order.specs.Configs.{Config};
ghost use Rattle.calvin_node_acts.specs.NodeStates.{NodeState};
ghost use Rattle.calvin_node_acts.specs.Handling.{NodeDeed};
ghost use Rattle.calvin_node_acts.specs.Acting.{restart};
ghost use Rattle.calvin_node_acts.specs.Durables.{Durable, durable_of, is_order_changed, from_durable};
ghost use Rattle.calvin_world.specs.declared.event.Event.{Event};
ghost use Rattle.calvin_world.specs.declared.event.Outcome.{Outcome};
ghost use Rattle.calvin_world.specs.Worlds.{WorldState, opening, Leads};
ghost use Rattle.calvin_world.specs.Promises.{IsNode, with_woven};

use calvin_app::App;

/// After every list of events the configuration is the one of the opening, and each node is there, with its own name.
pub fn nodes_are_there<A: App>()
    ensures config { (c : Config) (events : List (Event A.Args)) (outcomes : List Outcome) (w : WorldState A.Args A.Row A.Reply) → Leads A.meaning (opening c) events outcomes w → w.config ≡ c }
    ensures there { (c : Config) (events : List (Event A.Args)) (outcomes : List Outcome) (w : WorldState A.Args A.Row A.Reply) → Leads A.meaning (opening c) events outcomes w
        → (id : NodeId) → id.replica < w.config.replicas → id.partition < w.config.partitions → (x : NodeState A.Args A.Row) × IsNode w id x }
    ensures named { (c : Config) (events : List (Event A.Args)) (outcomes : List Outcome) (w : WorldState A.Args A.Row A.Reply) → Leads A.meaning (opening c) events outcomes w
        → (id : NodeId) (x : NodeState A.Args A.Row) → IsNode w id x → x.id ≡ id }
{}

/// A node is opened from a durable record, of whatever first woven epoch, with the record's data and as a restart leaves any node
/// that has this record; it is refused only where the order of the record's epochs changed. From a node's own record it opens.
pub fn opening_is_restart<Args, Row, Reply>()
    ensures data { (c : Config) (id : NodeId) (d : Durable Args Row) (next : NodeState Args Row) → from_durable c id d ≡ Ok next → (next.id ≡ id) × (durable_of (with_woven c d.woven_from) next ≡ d) }
    ensures restarts { (c : Config) (id : NodeId) (d : Durable Args Row) (next : NodeState Args Row) → from_durable c id d ≡ Ok next
        → (x : NodeState Args Row) → x.id ≡ id → durable_of (with_woven c d.woven_from) x ≡ d → ◌≡◌ {A = NodeDeed Args Row Reply} (restart x) (Does next []) }
    ensures succeeds { (c : Config) (id : NodeId) (d : Durable Args Row) → is_order_changed c.woven_from d.woven_from d.kept_epochs ≡ false
        → (next : NodeState Args Row) × (from_durable c id d ≡ Ok next) }
    ensures only { (c : Config) (id : NodeId) (d : Durable Args Row) (fault : Fault) → from_durable c id d ≡ Err fault
        → (fault ≡ OrderChanged) × (is_order_changed c.woven_from d.woven_from d.kept_epochs ≡ true) }
    ensures own { (c : Config) (x : NodeState Args Row) → (next : NodeState Args Row) × (◌≡◌ {A = NodeDeed Args Row Reply} (restart x) (Does next []))
        × (from_durable c x.id (durable_of c x) ≡ Ok next) }
{}
