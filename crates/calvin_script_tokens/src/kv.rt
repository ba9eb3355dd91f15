//! The operations of the application Kv.
ghost use Rattle.std.specs.Prelude.{◌≡◌, []};
ghost use Rattle.calvin_app.specs.declared.kv.KvRequest.TheVariants.{Put, Get, Add, Move, Follow};

use crate::keys::{KeyTokens, read_key_set};
use crate::numbers::{one_number, three_numbers, two_numbers};
use crate::operation::OperationTokens;
use crate::tokens::{closes_array, is_same, opens_array, string_at, u64_of};
use calvin_app::KvRequest;
use calvin_script::RowNumber;
use calvin_types::{Key, KeySet, RequestId};
use json::Reader;

impl KeyTokens for RowNumber {
    #[tactic(auto, using(crate::proofs::Operations::row_key_spelled))]
    fn key_at(reader: &mut Reader<'_>) -> Option<Key> {
        let id = u64_of(reader)?;
        Some(Key { table: 0, id })
    }
}

// Each operation is made in a function of its own: one function for all would clear room for all of them for each.

/// A put of a number under a key.
fn put_of(id: u64, number: u64) -> KvRequest
    ensures { result ≡ Put id number }
{
    KvRequest::Put(id, number)
}

/// A get of no key.
fn empty_get() -> KvRequest
    ensures { result ≡ Get [] }
{
    KvRequest::Get(KeySet::new())
}

/// An add of an amount to a number.
fn add_of(id: u64, amount: u64) -> KvRequest
    ensures { result ≡ Add id amount }
{
    KvRequest::Add(id, amount)
}

/// A move of an amount.
fn move_of(from: u64, to: u64, amount: u64) -> KvRequest
    ensures { result ≡ Move from to amount }
{
    KvRequest::Move(from, to, amount)
}

/// A get of what a number names.
fn follow_of(followed: u64) -> KvRequest
    ensures { result ≡ Follow followed }
{
    KvRequest::Follow(followed)
}

impl OperationTokens for KvRequest {
    fn read_tokens(&mut self, reader: &mut Reader<'_>) -> Option<()> {
        opens_array(reader)?;
        let name = string_at(reader)?;
        if is_same(name, "put") {
            let (id, number) = two_numbers(reader)?;
            *self = put_of(id, number);
        } else if is_same(name, "get") {
            *self = empty_get();
            let KvRequest::Get(keys) = self else {
                return None;
            };
            read_key_set::<RowNumber>(reader, keys)?;
            closes_array(reader)?;
        } else if is_same(name, "add") {
            let (id, amount) = two_numbers(reader)?;
            *self = add_of(id, amount);
        } else if is_same(name, "move") {
            let (from, to, amount) = three_numbers(reader)?;
            *self = move_of(from, to, amount);
        } else if is_same(name, "follow") {
            let followed = one_number(reader)?;
            *self = follow_of(followed);
        } else {
            return None;
        }
        Some(())
    }

    fn give_name(&mut self, _id: RequestId) -> Option<()> {
        Some(())
    }
}
