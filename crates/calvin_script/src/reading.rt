//! From bytes to a script.
ghost use Rattle.std.specs.Prelude.{◌≡◌};
ghost use Rattle.serde_json.specs.View.{view};
ghost use Rattle.calvin_script.specs.Scripts.{contents};
ghost use Rattle.calvin_script.specs.Reading.{Reads, json, script_from};
ghost use Rattle.calvin_script.specs.Documents.{data_of, app_of, script_in};
ghost use Rattle.calvin_script.specs.Applications.{app_contents, app_script};

use crate::contents::Script;
use crate::kept::Kept;
use crate::operation::Operation;
use crate::script::script_of;
use calvin_app::KvRequest;
use calvin_once::Named;
use calvin_stock::StockRequest;
use calvin_types::Fault;
use serde_json::{Category, Value};
use std::alloc::Global;

/// The applications that scripts can name.
#[derive(Clone, Copy, Debug, PartialEq, Eq)]
pub enum AppName {
    /// Numbers by key.
    Kv,
    /// Customers, items and orders.
    Stock,
    /// The same, each request's name once.
    Once,
}

/// A script for the application that it names.
#[derive(Drop)]
pub enum AppScript {
    Kv(Script<Kept<KvRequest>>),
    Stock(Script<Kept<StockRequest>>),
    Once(Script<Kept<Named<StockRequest>>>),
}

/// A piece of JSON that may be a script. Its application has to be known before the rest of it can be read.
#[derive(Drop)]
pub struct Document {
    value: Value,
}

impl Document {
    /// The JSON that bytes are. Refused with `BadJson` where they are none, and with `OutOfMemory`.
    #[tactic(auto, using(crate::proofs::Json::json_read, crate::proofs::Json::json_refused))]
    pub fn read(alloc: Global, bytes: &[u8]) -> Result<Document, Fault>
        ensures { Reads data_of result (json bytes.now) }
    {
        match Value::from_slice(alloc, bytes) {
            Ok(value) => Ok(Document { value }),
            Err(e) => match e.classify() {
                Category::Memory => Err(Fault::OutOfMemory),
                _ => Err(Fault::BadJson),
            },
        }
    }

    /// The application that it names, where it names one that there is.
    pub fn app(&self) -> Option<AppName>
        ensures { result ≡ app_of (data_of self.now) }
    {
        let name = self.value.get("app")?.as_str()?;
        if name == KvRequest::app_name() {
            return Some(AppName::Kv);
        }
        if name == StockRequest::app_name() {
            return Some(AppName::Stock);
        }
        if name == <Named<StockRequest>>::app_name() {
            return Some(AppName::Once);
        }
        None
    }

    /// The JSON itself, for other forms than that of a script of batches.
    pub fn into_value(self) -> Value
        ensures { view result ≡ data_of self }
    {
        self.value
    }

    /// The script that it is, for an application. Refused with `BadScript` where it doesn't have the form of a script
    /// for this application, and with `OutOfMemory`.
    #[tactic(auto, using(crate::proofs::Refusals::script_read))]
    pub fn into_script<Op: Operation>(self, alloc: Global) -> Result<Script<Kept<Op>>, Fault>
        ensures { Reads contents result (script_in Op.grammar (data_of self)) }
    {
        script_of(alloc, self.value)
    }

    /// The script that it is for the application that it names. Refused with `BadScript` where it names none, or doesn't have
    /// the form of a script for that one, and with `OutOfMemory`.
    pub fn into_app_script(self, alloc: Global) -> Result<AppScript, Fault>
        ensures { Reads app_contents result (app_script (data_of self)) }
    {
        match self.app() {
            Some(AppName::Kv) => Ok(AppScript::Kv(self.into_script(alloc)?)),
            Some(AppName::Stock) => Ok(AppScript::Stock(self.into_script(alloc)?)),
            Some(AppName::Once) => Ok(AppScript::Once(self.into_script(alloc)?)),
            None => Err(Fault::BadScript),
        }
    }
}

/// The script that bytes are, for an application. Refused with `BadJson` where the bytes aren't JSON, with `BadScript`
/// where the JSON doesn't have the form of a script for this application, and with `OutOfMemory`.
#[tactic(auto, unfolding(crate::specs::Reading::script_from))]
pub fn script_from<Op: Operation>(alloc: Global, bytes: &[u8]) -> Result<Script<Kept<Op>>, Fault>
    ensures { Reads contents result (script_from Op.grammar bytes.now) }
{
    Document::read(alloc, bytes)?.into_script(alloc)
}
