//! The laws of a group, over every list of events.
ghost use Rattle.std.specs.Prelude.{◌≡◌, ◌++◌, ℕ, List, [], ◌∷◌};
ghost use Rattle.std.specs.List.{Contains};
ghost use Rattle.calvin_types.specs.declared.place.Slot.{Slot};
ghost use Rattle.calvin_synod_group.specs.declared.event.GroupEvent.{GroupEvent};
ghost use Rattle.calvin_synod_group.specs.declared.event.GroupEvent.TheVariants.{Propose, Deliver};
ghost use Rattle.calvin_synod_group.specs.declared.event.Outcome.{Outcome};
ghost use Rattle.calvin_synod_group.specs.declared.event.Outcome.TheVariants.{Done, Gave};
ghost use Rattle.calvin_synod_group.specs.Groups.{GroupState, Leads, opening, Chosen};

/// The learners of a group agree: whatever is proposed, delivered late, twice or never, whoever restarts, and wherever
/// memory runs out.
pub fn agrees<B>()
    // Each beginning of the events leads to a group, so that the next three clauses hold after it too.
    ensures beginnings { (w : GroupState B) (early late : List (GroupEvent B)) (outcomes : List (Outcome B)) (after : GroupState B)
        → Leads w (early ++ late) outcomes after → (v : GroupState B) × (first : List (Outcome B)) × (rest : List (Outcome B))
        × (outcomes ≡ first ++ rest) × Leads w early first v × Leads v late rest after }
    // What a learner gave for a slot is chosen.
    ensures given { (size : ℕ) (events : List (GroupEvent B)) (outcomes : List (Outcome B)) (w : GroupState B)
        → Leads (opening size) events outcomes w → (slot : Slot) (batch : B) → Contains outcomes (Gave slot batch) → Chosen w slot batch }
    // Two batches chosen for one slot are the same.
    ensures one { (size : ℕ) (events : List (GroupEvent B)) (outcomes : List (Outcome B)) (w : GroupState B) → Leads (opening size) events outcomes w
        → (slot : Slot) (x y : B) → Chosen w slot x → Chosen w slot y → x ≡ y }
    // So no two learners give different batches for one slot, nor one learner before and after a restart.
    ensures alike { (size : ℕ) (events : List (GroupEvent B)) (outcomes : List (Outcome B)) (w : GroupState B)
        → Leads (opening size) events outcomes w → (slot : Slot) (x y : B) → Contains outcomes (Gave slot x) → Contains outcomes (Gave slot y)
        → x ≡ y }
    // What is chosen after a beginning of the events is chosen after them all.
    ensures stays { (w : GroupState B) (events : List (GroupEvent B)) (outcomes : List (Outcome B)) (after : GroupState B)
        → Leads w events outcomes after → (slot : Slot) (batch : B) → Chosen w slot batch → Chosen after slot batch }
{}

/// A group of three replicas, of which one hears nothing, can decide whatever is proposed, for any slot: replica 0
/// proposes; 0 and 1 promise; 0 counts both promises; 0 and 1 vote; and the learner of 0 counts both votes.
pub fn can_choose<B>()
    ensures { (slot : Slot) (batch : B) → (w : GroupState B)
        × Leads (opening 3) (Propose 0 slot batch ∷ Deliver 0 ∷ Deliver 1 ∷ Deliver 3 ∷ Deliver 4 ∷ Deliver 5 ∷ Deliver 6 ∷ Deliver 8 ∷ Deliver 11 ∷ [])
        (Done ∷ Done ∷ Done ∷ Done ∷ Done ∷ Done ∷ Done ∷ Done ∷ Gave slot batch ∷ []) w × Chosen w slot batch }
{}
