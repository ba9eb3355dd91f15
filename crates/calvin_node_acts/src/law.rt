//! Laws of a node's steps.
ghost use Rattle.std.specs.Prelude.{◌≡◌, ℕ};
ghost use Rattle.calvin_types.specs.declared.fault.Fault.TheVariants.{NotMine, NothingToLock};
ghost use Rattle.calvin_types.specs.declared.place.NodeId.{NodeId};
ghost use Rattle.calvin_types.specs.declared.place.Place.{Place};
ghost use Rattle.calvin_types.specs.declared.place.RequestId.{RequestId};
ghost use Rattle.calvin_types.specs.Deeds.{Refuses};
ghost use Rattle.calvin_app.specs.declared.answer.Answer.{Answer};
ghost use Rattle.calvin_order.specs.Configs.{Config};
ghost use Rattle.calvin_node_packets.specs.declared.packet.Content.TheVariants.{Replies};
ghost use Rattle.calvin_node_acts.specs.NodeStates.{NodeState, new_node};
ghost use Rattle.calvin_node_acts.specs.Handling.{NodeDeed, handle_content};
ghost use Rattle.calvin_node_acts.specs.Acting.{lock};

/// A reply that reaches a node is refused, and a new node has nothing to lock.
pub fn refuses<Args, Row, Reply>()
    ensures replies { (c : Config) (from : NodeId) (q : Place) (id : RequestId) (attempt : ℕ) (answer : Answer Reply) (x : NodeState Args Row)
        → ◌≡◌ {A = NodeDeed Args Row Reply} (handle_content c from (Replies q id attempt answer) x) (Refuses NotMine) }
    ensures locks { (c : Config) (id : NodeId) → ◌≡◌ {A = NodeDeed Args Row Reply} (lock c (new_node id)) (Refuses NothingToLock) }
{}
