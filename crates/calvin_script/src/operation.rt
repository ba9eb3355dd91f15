//! What an application adds to the form of scripts.
ghost use Rattle.std.specs.Prelude.{◌≡◌, [], option_map};
ghost use Rattle.serde_json.specs.View.{view};
ghost use Rattle.calvin_types.specs.Submitting.{has_key};
ghost use Rattle.calvin_script.specs.Grammar.{Grammar};

use calvin_types::{KeySet, RequestId, Sets};
use serde_json::Value;

/// The arguments of an application's requests, which scripts write as the member `op`.
pub trait Operation: Copy {
    /// The application's name, how its operations are written, the sets of each on the empty view, and how declared sets
    /// are completed.
    ghost grammar: { Grammar Self };

    /// The name that scripts give the application.
    fn app_name() -> &'static str
        ensures { result.now ≡ grammar.app_name };

    /// Any operation: it stands in a request until that is read.
    fn blank() -> Self;

    /// Becomes the operation that a piece of JSON spells for the request with this name. Where it spells none there is
    /// no answer, and any operation may stand here.
    fn read(&mut self, id: RequestId, value: &Value) -> Option<()>
        ensures { grammar.operation id (view value.now) ≡ option_map (λ _. self.new) result };

    /// Adds the keys that the operation reads and writes where no row is known yet, to sets that have none.
    fn add_first_sets(&self, sets: &mut Sets)
        requires { sets.old ≡ record { reads = []; writes = [] } }
        ensures { sets.new ≡ grammar.first_needs self.now };

    /// Adds the keys that the operation reads where no row is known yet, to a set that has none. An application may do so
    /// without making the other set.
    fn add_first_reads(&self, reads: &mut KeySet)
        requires { reads.old ≡ [] }
        ensures { reads.new ≡ (grammar.first_needs self.now).reads }
    {
        let mut sets = Sets {
            reads: KeySet::new(),
            writes: KeySet::new(),
        };
        self.add_first_sets(&mut sets);
        *reads = sets.reads;
    }

    /// Whether the operation reads or writes a key where no row is known yet. An application may tell so without making
    /// the sets.
    fn has_first_key(&self) -> bool
        ensures { result ≡ has_key (grammar.first_needs self.now) }
    {
        let mut sets = Sets {
            reads: KeySet::new(),
            writes: KeySet::new(),
        };
        self.add_first_sets(&mut sets);
        !(sets.reads.is_empty() && sets.writes.is_empty())
    }

    /// Adds the keys that the application itself adds to sets that were declared, if they have room. An application that
    /// adds none leaves them.
    fn complete(&self, sets: &mut Sets) -> Option<()>
        ensures { grammar.completed self.now sets.old ≡ option_map (λ _. sets.new) result };
}
