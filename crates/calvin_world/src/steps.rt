//! Laws of single events.
ghost use Rattle.std.specs.Prelude.{◌≡◌, ℕ, List, [], ◌∷◌, false};
ghost use Rattle.calvin_types.specs.declared.fault.Fault.{Fault};
ghost use Rattle.calvin_types.specs.declared.fault.Fault.TheVariants.{NoPacket, NothingToLock};
ghost use Rattle.calvin_types.specs.declared.place.NodeId.{NodeId};
ghost use Rattle.calvin_types.specs.Deeds.{Refuses, Does};
ghost use Rattle.calvin_app.specs.Meaning.{Meaning};
ghost use Rattle.calvin_order.specs.Configs.{Config};
ghost use Rattle.calvin_node_packets.specs.declared.packet.Packet.{Packet};
ghost use Rattle.calvin_node_packets.specs.declared.packet.Content.{Content};
ghost use Rattle.calvin_node_acts.specs.NodeStates.{NodeState};
ghost use Rattle.calvin_node_acts.specs.Handling.{NodeDeed, handle_content};
ghost use Rattle.calvin_node_acts.specs.declared.act.Act.{Act};
ghost use Rattle.calvin_node_acts.specs.Acting.{lock, deed_of};
ghost use Rattle.calvin_node_acts.specs.Growing.{act_grows, content_grows};
ghost use Rattle.calvin_world.specs.declared.event.Event.{Event};
ghost use Rattle.calvin_world.specs.declared.event.Outcome.{Outcome};
ghost use Rattle.calvin_world.specs.declared.event.Event.TheVariants.{Deliver};
ghost use Rattle.calvin_world.specs.declared.event.Outcome.TheVariants.{Refused};
ghost use Rattle.calvin_world.specs.Worlds.{WorldState, opening, Leads};
ghost use Rattle.calvin_world.specs.Promises.{IsNode};

use calvin_app::App;

/// Nothing can be delivered at first.
pub fn nothing_to_deliver<Args, Row, Reply>()
    ensures { (m : Meaning Args Row Reply) (c : Config) (number : ℕ) → Leads m (opening c) (Deliver number ∷ []) (Refused NoPacket ∷ []) (opening c) }
{}

/// After every list of events the first pending request of each node can be admitted or passed over: it comes after the last
/// one, and is of no epoch of a loaded snapshot. So a locking is refused only where nothing is pending.
pub fn pending_can_be_locked<A: App>()
    ensures { (c : Config) (events : List (Event A.Args)) (outcomes : List Outcome) (w : WorldState A.Args A.Row A.Reply) → Leads A.meaning (opening c) events outcomes w
        → (id : NodeId) (x : NodeState A.Args A.Row) → IsNode w id x → (fault : Fault)
        → ◌≡◌ {A = NodeDeed A.Args A.Row A.Reply} (lock w.config x) (Refuses fault) → (fault ≡ NothingToLock) × (x.pending ≡ []) }
{}

/// An act that grows nothing sends nothing where it takes effect; nor does a node send anything on a packet that grows nothing.
pub fn what_grows_nothing_is_silent<Args, Row, Reply>()
    ensures acts { (m : Meaning Args Row Reply) (c : Config) (x next : NodeState Args Row) (sent : List (Packet Args Row Reply)) (act : Act Args)
        → act_grows c act x ≡ false → deed_of m c act x ≡ Does next sent → sent ≡ [] }
    ensures packets { (m : Meaning Args Row Reply) (c : Config) (x next : NodeState Args Row) (sent : List (Packet Args Row Reply)) (from : NodeId)
        (content : Content Args Row Reply) → content_grows c content x ≡ false
        → ◌≡◌ {A = NodeDeed Args Row Reply} (handle_content c from content x) (Does next sent) → sent ≡ [] }
{}
