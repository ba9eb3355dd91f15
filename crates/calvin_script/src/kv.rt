//! The operations of the application Kv.
ghost use Rattle.std.specs.Prelude.{◌≡◌, [], option_map};
ghost use Rattle.serde_json.specs.View.{view};
ghost use Rattle.calvin_app.specs.declared.kv.KvRequest.TheVariants.{Get};
ghost use Rattle.calvin_script.specs.KvOperations.{get_of};

use crate::fields::u64_of;
use crate::key_list::{KeyForm, read_key_set};
use crate::numbers::{one_number, three_numbers, two_numbers};
use crate::operation::Operation;
use calvin_app::KvRequest;
use calvin_types::{Key, KeySet, RequestId, Sets};
use serde_json::Value;

/// A key of table 0, written as its number there.
pub struct RowNumber;

impl KeyForm for RowNumber {
    ghost use Rattle.calvin_script.specs.KvOperations.{row_key};

    ghost form = { row_key };

    fn key_of(value: &Value) -> Option<Key> {
        let id = u64_of(value)?;
        Some(Key { table: 0, id })
    }
}

/// The keys of a get.
#[tactic(auto, unfolding(crate::specs::KvOperations::get_of))]
fn keys_of(value: &Value, keys: &mut KeySet) -> Option<()>
    requires { keys.old ≡ [] }
    ensures { get_of (view value.now) ≡ option_map (λ _. Get keys.new) result }
{
    if value.get(2).is_some() {
        return None;
    }
    read_key_set::<RowNumber>(value.get(1)?, keys)
}

impl Operation for KvRequest {
    ghost use Rattle.calvin_script.specs.KvOperations.{kv_grammar};

    ghost grammar = { kv_grammar };

    fn app_name() -> &'static str {
        "kv"
    }

    fn blank() -> KvRequest {
        KvRequest::Put(0, 0)
    }

    #[tactic(auto, unfolding(crate::specs::KvOperations::kv_operation, crate::specs::KvOperations::put, crate::specs::KvOperations::add, crate::specs::KvOperations::move_of, crate::specs::KvOperations::follow_of))]
    fn read(&mut self, _id: RequestId, value: &Value) -> Option<()> {
        let name = value.get(0)?.as_str()?;
        if name == "put" {
            let (id, number) = two_numbers(value)?;
            *self = KvRequest::Put(id, number);
        } else if name == "get" {
            *self = KvRequest::Get(KeySet::new());
            if let KvRequest::Get(keys) = self {
                keys_of(value, keys)?;
            }
        } else if name == "add" {
            let (id, amount) = two_numbers(value)?;
            *self = KvRequest::Add(id, amount);
        } else if name == "move" {
            let (from, to, amount) = three_numbers(value)?;
            *self = KvRequest::Move(from, to, amount);
        } else if name == "follow" {
            *self = KvRequest::Follow(one_number(value)?);
        } else {
            return None;
        }
        Some(())
    }

    fn add_first_sets(&self, sets: &mut Sets) {
        self.add_first_needs(sets);
    }

    #[inline(always)]
    fn add_first_reads(&self, reads: &mut KeySet) {
        self.add_needed_reads(reads);
    }

    fn has_first_key(&self) -> bool {
        match self {
            KvRequest::Put(_, _) | KvRequest::Add(_, _) => true,
            _ => {
                let mut sets = Sets {
                    reads: KeySet::new(),
                    writes: KeySet::new(),
                };
                self.add_first_needs(&mut sets);
                !(sets.reads.is_empty() && sets.writes.is_empty())
            }
        }
    }

    fn complete(&self, _sets: &mut Sets) -> Option<()> {
        Some(())
    }
}
