//! Operations, read from tokens.
ghost use Rattle.std.specs.Prelude.{◌≡◌, OnSome};
ghost use Rattle.serde_json.specs.Data.{Data};
ghost use Rattle.calvin_script_tokens.specs.Spelled.{Spells};
ghost use Rattle.calvin_script_tokens.specs.Names.{nameless};

use calvin_script::Operation;
use calvin_types::RequestId;
use json::Reader;

/// An application's operations as tokens. What an application leaves out has no answer, and all its scripts are read
/// from `serde_json`'s values.
pub trait OperationTokens: Operation {
    /// Becomes the operation that the next tokens spell for the request 0:0, as the name of the request may come
    /// behind it; it may nest 121 levels. Where they aren't written as usual there is no answer, and any operation may
    /// stand here.
    fn read_tokens(&mut self, _reader: &mut Reader<'_>) -> Option<()>
        ensures { OnSome result (Spells (Self.grammar.operation nameless) 121 _reader.old self.new _reader.new) }
    {
        None
    }

    /// Becomes, from an operation of the request 0:0, the one that is written alike and has this name.
    fn give_name(&mut self, _id: RequestId) -> Option<()>
        ensures { OnSome result ((d : Data) → Self.grammar.operation nameless d ≡ Some self.old
            → Self.grammar.operation _id d ≡ Some self.new) }
    {
        None
    }
}
