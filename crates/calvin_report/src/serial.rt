//! The replies that are told are those of the serial run.
ghost use Rattle.std.specs.Prelude.{◌≡◌, ℕ, ◌≤◌, Bool, List, Option, map};
ghost use Rattle.std.specs.FinMap.{empty, entries};
ghost use Rattle.calvin_types.specs.declared.place.NodeId.{NodeId};
ghost use Rattle.calvin_app.specs.Serial.{serial};
ghost use Rattle.calvin_order.specs.Configs.{Config, order};
ghost use Rattle.calvin_order.specs.Merged.{Assignment};
ghost use Rattle.calvin_node_acts.specs.NodeStates.{NodeState};
ghost use Rattle.calvin_text.specs.Texts.{lines, finished, finished_at};
ghost use Rattle.calvin_world.specs.declared.event.Event.{Event};
ghost use Rattle.calvin_world.specs.declared.event.Outcome.{Outcome};
ghost use Rattle.calvin_world.specs.Worlds.{WorldState, opening};
ghost use Rattle.calvin_world.specs.SettledWorlds.{SettledLeads};
ghost use Rattle.calvin_world.specs.Promises.{StandsAtEnd, IsNode, IsChosenUpTo};
ghost use Rattle.calvin_report.specs.declared.replies.Epochs.TheVariants.{UpTo};
ghost use Rattle.calvin_report.specs.Replies.{replied, epochs_upto, first_epochs, of_epochs, reply_lines};
ghost use Rattle.calvin_report.specs.Reports.{least_standing, least_kept};

use calvin_app::App;

/// After every list of events: where each node stands at the end of the first epochs, or of more, what was replied at their places,
/// line by line, is the text of the serial run of what is chosen (Thomson et al. 2012, section 3). So it is of the epochs up to
/// the least of the last ones at whose ends the nodes stand; these are chosen, and the last line names the last of them. The same is
/// so where just the nodes of some replicas are looked at, and all packets of the others were lost, say.
pub fn told_is_serial<A: App>()
    ensures first { (c : Config) (events : List (Event A.Args)) (outcomes : List Outcome) (v : WorldState A.Args A.Row A.Reply) → SettledLeads A.meaning (opening c) events outcomes v
        → (n : ℕ) → ((id : NodeId) (x : NodeState A.Args A.Row) → IsNode v id x → (f : ℕ) × (n ≤ f) × StandsAtEnd x f) → (B : Assignment A.Args) → IsChosenUpTo v B n → (show : A.Reply → List ℕ)
        → reply_lines show (first_epochs n (entries (replied v.packets))) ≡ lines show (order v.config B n) (serial A.meaning (map (λ e. e.1) (order v.config B n)) empty).1 }
    ensures finished { (c : Config) (events : List (Event A.Args)) (outcomes : List Outcome) (v : WorldState A.Args A.Row A.Reply) → SettledLeads A.meaning (opening c) events outcomes v
        → (B : Assignment A.Args) → IsChosenUpTo v B (epochs_upto (least_standing v)) → (show : A.Reply → List ℕ)
        → reply_lines show (of_epochs (UpTo (least_standing v)) (entries (replied v.packets))) ≡ lines show
        (order v.config B (epochs_upto (least_standing v)))
        (serial A.meaning (map (λ e. e.1) (order v.config B (epochs_upto (least_standing v)))) empty).1 }
    ensures chosen { (c : Config) (events : List (Event A.Args)) (outcomes : List Outcome) (v : WorldState A.Args A.Row A.Reply) → SettledLeads A.meaning (opening c) events outcomes v
        → (B : Assignment A.Args) × IsChosenUpTo v B (epochs_upto (least_standing v)) }
    ensures kept { (c : Config) (events : List (Event A.Args)) (outcomes : List Outcome) (v : WorldState A.Args A.Row A.Reply) → SettledLeads A.meaning (opening c) events outcomes v
        → (lost : ℕ → Bool) (B : Assignment A.Args) → IsChosenUpTo v B (epochs_upto (least_kept lost v)) → (show : A.Reply → List ℕ)
        → reply_lines show (of_epochs (UpTo (least_kept lost v)) (entries (replied v.packets))) ≡ lines show
        (order v.config B (epochs_upto (least_kept lost v)))
        (serial A.meaning (map (λ e. e.1) (order v.config B (epochs_upto (least_kept lost v)))) empty).1 }
    ensures kept_chosen { (c : Config) (events : List (Event A.Args)) (outcomes : List Outcome) (v : WorldState A.Args A.Row A.Reply) → SettledLeads A.meaning (opening c) events outcomes v
        → (lost : ℕ → Bool) → (B : Assignment A.Args) × IsChosenUpTo v B (epochs_upto (least_kept lost v)) }
    ensures last { (last : Option ℕ) → finished_at last ≡ finished (epochs_upto last) }
{}
