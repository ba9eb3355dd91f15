//! What else holds of histories.
ghost use Rattle.std.specs.Prelude.{ℕ, List};
ghost use Rattle.calvin_types.specs.declared.place.NodeId.{NodeId};
ghost use Rattle.calvin_order.specs.Configs.{Config};
ghost use Rattle.calvin_world.specs.declared.event.Event.{Event};
ghost use Rattle.calvin_histories.specs.declared.entry.Entry.{Entry};
ghost use Rattle.calvin_histories.specs.Histories.{IsAssembled, IsStuck};

use calvin_app::App;

/// Where some list of events assembles histories, none that is taken as far as it goes leaves an entry over. So `assemble` finds a
/// list wherever there is one, whichever entry that fits it takes next.
pub fn assembled_is_not_stuck<A: App>()
    ensures { (c : Config) (histories : List (List (Entry A.Args A.Row A.Reply))) (events : List (Event A.Args))
        → IsAssembled A.meaning c events histories → (node : NodeId) (entry : ℕ) → IsStuck A.meaning c histories node entry → ⊥ }
{}
