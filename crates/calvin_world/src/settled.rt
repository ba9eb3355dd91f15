//! A world in code: of the places that are due its nodes keep those that aren't done.
ghost use Rattle.std.specs.Prelude.{◌≡◌, ℕ, ◌<◌, List, [], Some, Result, slice_get};
ghost use Rattle.std.specs.List.{Contains};
ghost use Rattle.std.specs.FinMap.{get};
ghost use Rattle.calvin_types.specs.declared.fault.Fault.{Fault};
ghost use Rattle.calvin_types.specs.declared.fault.Fault.TheVariants.{NothingToLock};
ghost use Rattle.calvin_types.specs.declared.place.Ballot.{Ballot};
ghost use Rattle.calvin_types.specs.declared.place.NodeId.{NodeId};
ghost use Rattle.calvin_types.specs.declared.place.Place.{Place};
ghost use Rattle.calvin_types.specs.declared.place.RequestId.{RequestId};
ghost use Rattle.calvin_types.specs.declared.place.Slot.{Slot};
ghost use Rattle.calvin_types.specs.declared.txn.Txn.{Txn};
ghost use Rattle.calvin_types.specs.Deeds.{Refuses};
ghost use Rattle.calvin_types.specs.Orders.{StandsAt};
ghost use Rattle.calvin_app.specs.declared.answer.Answer.{Answer};
ghost use Rattle.calvin_app.specs.Meaning.{Meaning};
ghost use Rattle.calvin_order.specs.Configs.{Config, order};
ghost use Rattle.calvin_order.specs.Merged.{Batch, Assignment};
ghost use Rattle.calvin_sched.specs.Standing.{stands, all_done};
ghost use Rattle.calvin_node_acts.specs.declared.act.Act.{Act};
ghost use Rattle.calvin_node_packets.specs.declared.packet.Address.TheVariants.{AtNode};
ghost use Rattle.calvin_node_packets.specs.declared.packet.Packet.{Packet};
ghost use Rattle.calvin_node_packets.specs.declared.packet.Content.TheVariants.{Replies};
ghost use Rattle.calvin_node_acts.specs.NodeStates.{NodeState};
ghost use Rattle.calvin_node_acts.specs.Handling.{NodeDeed, handle};
ghost use Rattle.calvin_node_acts.specs.Acting.{lock, deed_of};
ghost use Rattle.calvin_node_acts.specs.Growing.{act_grows, content_grows};
ghost use Rattle.calvin_node_acts.specs.Running.{Running, settled, NodeDid};
ghost use Rattle.calvin_world.specs.declared.event.Event.{Event};
ghost use Rattle.calvin_world.specs.declared.event.Event.TheVariants.{At, Deliver};
ghost use Rattle.calvin_world.specs.declared.event.Outcome.{Outcome};
ghost use Rattle.calvin_world.specs.Worlds.{WorldState, opening, node_at, Leads};
ghost use Rattle.calvin_world.specs.SettledWorlds.{settled_world, outcome_of, called, SettledStep, SettledLeads};
ghost use Rattle.calvin_world.specs.Through.{through, WithoutWant};
ghost use Rattle.calvin_world.specs.Promises.{IsNode, Chosen, IsChosenUpTo, IsSubmitFor, Submits, Sometime, Agrees, IsSerial, PointsAreSerial, StandAlike};

use calvin_app::App;

/// Where a world in code comes to by a list of events is the world that the definitions lead to, settled, with the same
/// outcomes, and so it goes on from there; and it comes to each of these. At first both are the same.
pub fn settled_leads<Args, Row, Reply>()
    ensures opening { (c : Config) → ◌≡◌ {A = WorldState Args Row Reply} (settled_world (opening c)) (opening c) }
    ensures leads { (m : Meaning Args Row Reply) (c : Config) (events : List (Event Args)) (outcomes : List Outcome) (v : WorldState Args Row Reply) → SettledLeads m (opening c) events outcomes v
        → (w : WorldState Args Row Reply) × Leads m (opening c) events outcomes w × (v ≡ settled_world w) }
    ensures later { (m : Meaning Args Row Reply) (c : Config) (earlier : List (Event Args)) (outcomes : List Outcome) (w : WorldState Args Row Reply) → Leads m (opening c) earlier outcomes w
        → (later : List (Event Args)) (more : List Outcome) (v : WorldState Args Row Reply) → SettledLeads m (settled_world w) later more v
        → (x : WorldState Args Row Reply) × Leads m w later more x × (v ≡ settled_world x) }
    ensures reaches { (m : Meaning Args Row Reply) (c : Config) (events : List (Event Args)) (outcomes : List Outcome) (w : WorldState Args Row Reply)
        → Leads m (opening c) events outcomes w → SettledLeads m (opening c) events outcomes (settled_world w) }
{}

/// Where memory never runs out each event of a world in code ends as its case says, and the world is the one that the cases lead
/// to, settled.
pub fn settled_through<Args, Row, Reply>()
    ensures { (m : Meaning Args Row Reply) (c : Config) (events : List (Event Args)) (outcomes : List Outcome) (v : WorldState Args Row Reply)
        → SettledLeads m (opening c) events outcomes v → WithoutWant outcomes
        → (outcomes ≡ (through m (opening c) events).0) × (v ≡ settled_world (through m (opening c) events).1) }
{}

/// Where every node is settled, a call of one of them that did what its deed says is a step of the world in code: for an act of
/// the node, and for a packet that is for it.
pub fn settled_calls<Args, Row, Reply>()
    ensures acts { (m : Meaning Args Row Reply) (v : WorldState Args Row Reply) → settled_world v ≡ v → (me : NodeId) (x : NodeState Args Row) → node_at v me ≡ Some x
        → (act : Act Args) (result : Result (Unit {0}) Fault) (new : Running Args Row) (all : List (Packet Args Row Reply))
        → NodeDid (act_grows v.config act x) result (deed_of m v.config act x) (record { config = v.config; state = x }) new v.packets all
        → SettledStep m v (At me act) (outcome_of result) (called v me new.state all) }
    ensures packets { (m : Meaning Args Row Reply) (v : WorldState Args Row Reply) → settled_world v ≡ v → (me : NodeId) (x : NodeState Args Row) → node_at v me ≡ Some x
        → (number : ℕ) (p : Packet Args Row Reply) → slice_get v.packets number ≡ Some p → p.to ≡ AtNode me
        → (result : Result (Unit {0}) Fault) (new : Running Args Row) (all : List (Packet Args Row Reply))
        → NodeDid (content_grows v.config p.content x) result (handle v.config p x) (record { config = v.config; state = x }) new v.packets all
        → SettledStep m v (Deliver number) (outcome_of result) (called v me new.state all) }
{}

/// A settled node stands where the node stands, and is done where the node is done.
pub fn settled_stands<Args, Row>()
    ensures stands { (x : NodeState Args Row) (n : ℕ) → stands x.scheduler x.merged_epochs (settled x).due n ≡ stands x.scheduler x.merged_epochs x.due n }
    ensures done { (x : NodeState Args Row) (n : ℕ) → all_done x.scheduler x.merged_epochs (settled x).due n ≡ all_done x.scheduler x.merged_epochs x.due n }
{}

/// What is promised after every list of events is so of a world in code: its nodes are those, settled, of a world in which all
/// agree; each replica is the serial run, and so is an open point; and two nodes that stand at the same end are alike.
pub fn settled_is_serial<A: App>()
    ensures agrees { (c : Config) (events : List (Event A.Args)) (outcomes : List Outcome) (v : WorldState A.Args A.Row A.Reply)
        → SettledLeads A.meaning (opening c) events outcomes v → (w : WorldState A.Args A.Row A.Reply) × Agrees w × (v ≡ settled_world w) }
    ensures serial { (c : Config) (events : List (Event A.Args)) (outcomes : List Outcome) (v : WorldState A.Args A.Row A.Reply)
        → SettledLeads A.meaning (opening c) events outcomes v → IsSerial A.meaning v }
    ensures points { (c : Config) (events : List (Event A.Args)) (outcomes : List Outcome) (v : WorldState A.Args A.Row A.Reply)
        → SettledLeads A.meaning (opening c) events outcomes v → PointsAreSerial A.meaning v }
    ensures alike { (c : Config) (events : List (Event A.Args)) (outcomes : List Outcome) (v : WorldState A.Args A.Row A.Reply) → SettledLeads A.meaning (opening c) events outcomes v → StandAlike v }
{}

/// In code, too, the configuration is the one of the opening, and each node is there under its own name; what a node's learner gave
/// the node holds; and a locking is refused only where nothing is pending.
pub fn settled_nodes_are_there<A: App>()
    ensures config { (c : Config) (events : List (Event A.Args)) (outcomes : List Outcome) (v : WorldState A.Args A.Row A.Reply) → SettledLeads A.meaning (opening c) events outcomes v → v.config ≡ c }
    ensures there { (c : Config) (events : List (Event A.Args)) (outcomes : List Outcome) (v : WorldState A.Args A.Row A.Reply) → SettledLeads A.meaning (opening c) events outcomes v
        → (id : NodeId) → id.replica < v.config.replicas → id.partition < v.config.partitions → (x : NodeState A.Args A.Row) × IsNode v id x }
    ensures named { (c : Config) (events : List (Event A.Args)) (outcomes : List Outcome) (v : WorldState A.Args A.Row A.Reply) → SettledLeads A.meaning (opening c) events outcomes v
        → (id : NodeId) (x : NodeState A.Args A.Row) → IsNode v id x → x.id ≡ id }
    ensures given { (c : Config) (events : List (Event A.Args)) (outcomes : List Outcome) (v : WorldState A.Args A.Row A.Reply) → SettledLeads A.meaning (opening c) events outcomes v
        → (id : NodeId) (x : NodeState A.Args A.Row) → IsNode v id x → (slot : Slot) (ballot : Ballot) → get x.synod.learner.given slot ≡ Some ballot
        → (batch : Batch A.Args) × (get x.held slot ≡ Some batch) }
    ensures locks { (c : Config) (events : List (Event A.Args)) (outcomes : List Outcome) (v : WorldState A.Args A.Row A.Reply) → SettledLeads A.meaning (opening c) events outcomes v
        → (id : NodeId) (x : NodeState A.Args A.Row) → IsNode v id x → (fault : Fault)
        → ◌≡◌ {A = NodeDeed A.Args A.Row A.Reply} (lock v.config x) (Refuses fault) → (fault ≡ NothingToLock) × (x.pending ≡ []) }
{}

/// In code, too, what is chosen stays chosen, and what a node held is chosen after all events.
pub fn settled_chosen_stays<A: App>()
    ensures chosen { (c : Config) (earlier : List (Event A.Args)) (outcomes : List Outcome) (v : WorldState A.Args A.Row A.Reply) → SettledLeads A.meaning (opening c) earlier outcomes v
        → (later : List (Event A.Args)) (more : List Outcome) (u : WorldState A.Args A.Row A.Reply) → SettledLeads A.meaning v later more u
        → (slot : Slot) (batch : Batch A.Args) → Chosen v slot batch → Chosen u slot batch }
    ensures held { (c : Config) (earlier : List (Event A.Args)) (outcomes : List Outcome) (v : WorldState A.Args A.Row A.Reply) → SettledLeads A.meaning (opening c) earlier outcomes v
        → (later : List (Event A.Args)) (more : List Outcome) (u : WorldState A.Args A.Row A.Reply) → SettledLeads A.meaning v later more u
        → (id : NodeId) (x : NodeState A.Args A.Row) → IsNode v id x → (slot : Slot) (batch : Batch A.Args) → get x.held slot ≡ Some batch → Chosen u slot batch }
{}

/// In code, too, each request of a chosen batch was submitted at a node of the slot's group, in time and before the event that made
/// the batch chosen: among the same events, as they lead on in the definitions. A request that no submit had before a reply was
/// sent stands only in epochs above the reply's.
pub fn settled_was_submitted<A: App>()
    ensures submitted { (c : Config) (events : List (Event A.Args)) (outcomes : List Outcome) (v : WorldState A.Args A.Row A.Reply) → SettledLeads A.meaning (opening c) events outcomes v
        → (w : WorldState A.Args A.Row A.Reply) × (leads : Leads A.meaning (opening c) events outcomes w) × (v ≡ settled_world w)
        × ((slot : Slot) (batch : Batch A.Args) → Chosen v slot batch → (t : Txn A.Args) → Contains batch t → Sometime A.meaning (IsSubmitFor slot t) (opening c) events outcomes w leads) }
    ensures before { (c : Config) (earlier : List (Event A.Args)) (outcomes : List Outcome) (v : WorldState A.Args A.Row A.Reply) → SettledLeads A.meaning (opening c) earlier outcomes v
        → (w : WorldState A.Args A.Row A.Reply) × (leads : Leads A.meaning (opening c) earlier outcomes w) × (v ≡ settled_world w)
        × ((event : Event A.Args) (outcome : Outcome) (u : WorldState A.Args A.Row A.Reply) → SettledStep A.meaning v event outcome u
        → (slot : Slot) (batch : Batch A.Args) → (Chosen v slot batch → ⊥) → Chosen u slot batch
        → (t : Txn A.Args) → Contains batch t → Sometime A.meaning (IsSubmitFor slot t) (opening c) earlier outcomes w leads) }
    ensures later { (c : Config) (earlier : List (Event A.Args)) (outcomes : List Outcome) (v : WorldState A.Args A.Row A.Reply) → SettledLeads A.meaning (opening c) earlier outcomes v
        → (w : WorldState A.Args A.Row A.Reply) × (leads : Leads A.meaning (opening c) earlier outcomes w) × (v ≡ settled_world w)
        × ((later : List (Event A.Args)) (more : List Outcome) (u : WorldState A.Args A.Row A.Reply) → SettledLeads A.meaning v later more u
        → (p : Packet A.Args A.Row A.Reply) → Contains v.packets p → (q : Place) (id : RequestId) (attempt : ℕ) (answer : Answer A.Reply) → p.content ≡ Replies q id attempt answer
        → (t : Txn A.Args) → (Sometime A.meaning (Submits t) (opening c) earlier outcomes w leads → ⊥)
        → (B : Assignment A.Args) (n : ℕ) → IsChosenUpTo u B n → (r : Place) → StandsAt (order u.config B n) r t → q.epoch < r.epoch) }
{}
