//! Agreement on the batches, and what stands in them.
ghost use Rattle.std.specs.Prelude.{◌≡◌, ℕ, ◌<◌, List, Some};
ghost use Rattle.std.specs.List.{Contains};
ghost use Rattle.std.specs.FinMap.{get};
ghost use Rattle.calvin_types.specs.declared.place.Ballot.{Ballot};
ghost use Rattle.calvin_types.specs.declared.place.NodeId.{NodeId};
ghost use Rattle.calvin_types.specs.declared.place.Place.{Place};
ghost use Rattle.calvin_types.specs.declared.place.RequestId.{RequestId};
ghost use Rattle.calvin_types.specs.declared.place.Slot.{Slot};
ghost use Rattle.calvin_types.specs.declared.txn.Txn.{Txn};
ghost use Rattle.calvin_types.specs.Orders.{StandsAt};
ghost use Rattle.calvin_app.specs.declared.answer.Answer.{Answer};
ghost use Rattle.calvin_order.specs.Configs.{Config, order};
ghost use Rattle.calvin_order.specs.Merged.{Batch, Assignment};
ghost use Rattle.calvin_node_acts.specs.NodeStates.{NodeState};
ghost use Rattle.calvin_node_packets.specs.declared.packet.Packet.{Packet};
ghost use Rattle.calvin_node_packets.specs.declared.packet.Content.TheVariants.{Replies};
ghost use Rattle.calvin_world.specs.declared.event.Event.{Event};
ghost use Rattle.calvin_world.specs.declared.event.Outcome.{Outcome};
ghost use Rattle.calvin_world.specs.Worlds.{WorldState, opening, Step, Leads};
ghost use Rattle.calvin_world.specs.Promises.{IsNode, Chosen, IsChosenUpTo, IsSubmitFor, Submits, Sometime, Agrees};

use calvin_app::App;

/// After every list of events: no two nodes hold different batches for one slot; what a node holds is chosen, two chosen batches
/// of one slot are the same; what a node merged is the merged requests of what is chosen, and what its scheduler was given of
/// them is all of them, each at its place; of two nodes the order of the one that merged less is a beginning of the other's.
pub fn nodes_agree<A: App>()
    ensures { (c : Config) (events : List (Event A.Args)) (outcomes : List Outcome) (w : WorldState A.Args A.Row A.Reply) → Leads A.meaning (opening c) events outcomes w → Agrees w }
{}

/// What is chosen after a beginning of the events is chosen after them all; so is what a node held after a beginning.
pub fn chosen_stays<A: App>()
    ensures chosen { (c : Config) (earlier : List (Event A.Args)) (outcomes : List Outcome) (w : WorldState A.Args A.Row A.Reply) → Leads A.meaning (opening c) earlier outcomes w
        → (later : List (Event A.Args)) (more : List Outcome) (v : WorldState A.Args A.Row A.Reply) → Leads A.meaning w later more v
        → (slot : Slot) (batch : Batch A.Args) → Chosen w slot batch → Chosen v slot batch }
    ensures held { (c : Config) (earlier : List (Event A.Args)) (outcomes : List Outcome) (w : WorldState A.Args A.Row A.Reply) → Leads A.meaning (opening c) earlier outcomes w
        → (later : List (Event A.Args)) (more : List Outcome) (v : WorldState A.Args A.Row A.Reply) → Leads A.meaning w later more v
        → (id : NodeId) (x : NodeState A.Args A.Row) → IsNode w id x → (slot : Slot) (batch : Batch A.Args) → get x.held slot ≡ Some batch → Chosen v slot batch }
{}

/// After every list of events: each request of a chosen batch was submitted at a node of the slot's group, whose next epoch was
/// not above the slot's; and before the event that made the batch chosen.
pub fn chosen_was_submitted<A: App>()
    ensures submitted { (c : Config) (events : List (Event A.Args)) (outcomes : List Outcome) (w : WorldState A.Args A.Row A.Reply) (leads : Leads A.meaning (opening c) events outcomes w)
        → (slot : Slot) (batch : Batch A.Args) → Chosen w slot batch
        → (t : Txn A.Args) → Contains batch t → Sometime A.meaning (IsSubmitFor slot t) (opening c) events outcomes w leads }
    ensures before { (c : Config) (earlier : List (Event A.Args)) (outcomes : List Outcome) (w : WorldState A.Args A.Row A.Reply) (leads : Leads A.meaning (opening c) earlier outcomes w)
        → (event : Event A.Args) (outcome : Outcome) (v : WorldState A.Args A.Row A.Reply) → Step A.meaning w event outcome v
        → (slot : Slot) (batch : Batch A.Args) → (Chosen w slot batch → ⊥) → Chosen v slot batch
        → (t : Txn A.Args) → Contains batch t → Sometime A.meaning (IsSubmitFor slot t) (opening c) earlier outcomes w leads }
{}

/// After every list of events: what a node's learner gave the node holds. So a vote is refused as known only where its slot is held
/// or the vote is counted.
pub fn given_is_held<A: App>()
    ensures { (c : Config) (events : List (Event A.Args)) (outcomes : List Outcome) (w : WorldState A.Args A.Row A.Reply) → Leads A.meaning (opening c) events outcomes w
        → (id : NodeId) (x : NodeState A.Args A.Row) → IsNode w id x → (slot : Slot) (ballot : Ballot) → get x.synod.learner.given slot ≡ Some ballot
        → (batch : Batch A.Args) × (get x.held slot ≡ Some batch) }
{}

/// A request that no submit had before a reply was sent stands only in epochs above the reply's.
pub fn stands_later<A: App>()
    ensures { (c : Config) (earlier : List (Event A.Args)) (outcomes : List Outcome) (w : WorldState A.Args A.Row A.Reply) (leads : Leads A.meaning (opening c) earlier outcomes w)
        → (later : List (Event A.Args)) (more : List Outcome) (v : WorldState A.Args A.Row A.Reply) → Leads A.meaning w later more v
        → (p : Packet A.Args A.Row A.Reply) → Contains w.packets p → (q : Place) (id : RequestId) (attempt : ℕ) (answer : Answer A.Reply) → p.content ≡ Replies q id attempt answer
        → (t : Txn A.Args) → (Sometime A.meaning (Submits t) (opening c) earlier outcomes w leads → ⊥)
        → (B : Assignment A.Args) (n : ℕ) → IsChosenUpTo v B n → (r : Place) → StandsAt (order v.config B n) r t → q.epoch < r.epoch }
{}
