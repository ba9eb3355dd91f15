//! The application of numbers by key, evaluated from its table: rows are a list that is searched.
use calvin_app::{Answer, KvReply, KvRequest};
use calvin_types::{Fault, Few, Key, KeySet, MOST_KEYS, Sets, Txn};
use std::alloc::Global;

/// A row: the number of its key, and its value.
pub type Entry = (u64, u64);

/// The value under a key.
pub fn value_of(rows: &[Entry], id: u64) -> Option<u64> {
    for (key, value) in rows {
        if *key == id {
            return Some(*value);
        }
    }
    None
}

/// Adds a key to a set, unless it is there.
pub fn add_key(set: &mut KeySet, id: u64) -> Result<(), Fault> {
    let key = Key { table: 0, id };
    if set.has(key) {
        return Ok(());
    }
    set.insert(key)
}

/// The sets that a request needs where it sees these rows.
pub fn needs(args: &KvRequest, seen: &[Entry]) -> Result<Sets, Fault> {
    let mut reads = KeySet::new();
    let mut writes = KeySet::new();
    match args {
        KvRequest::Put(id, _) => add_key(&mut writes, *id)?,
        KvRequest::Get(keys) => reads = *keys,
        KvRequest::Add(id, _) => {
            add_key(&mut reads, *id)?;
            add_key(&mut writes, *id)?;
        }
        KvRequest::Move(from, to, _) => {
            add_key(&mut reads, *from)?;
            add_key(&mut reads, *to)?;
            writes = reads;
        }
        KvRequest::Follow(id) => {
            add_key(&mut reads, *id)?;
            if let Some(named) = value_of(seen, *id) {
                add_key(&mut reads, named)?;
            }
        }
    }
    Ok(Sets { reads, writes })
}

/// For each key, ascending, its value or none.
fn values_of(keys: &KeySet, seen: &[Entry]) -> Few<Option<u64>> {
    let mut values = Few::new();
    for i in 0..keys.len() {
        if values.len() < MOST_KEYS {
            values.push(value_of(seen, keys.at(i).id));
        }
    }
    values
}

/// What a move replies; it adds what it writes.
fn moved(from: Entry, to: Entry, amount: u64, writes: &mut Vec<Entry>) -> Result<KvReply, Fault> {
    let Some(rest) = from.1.checked_sub(amount) else {
        return Ok(KvReply::Short);
    };
    if from.0 == to.0 {
        return Ok(KvReply::Done);
    }
    let Some(sum) = to.1.checked_add(amount) else {
        return Ok(KvReply::Limit);
    };
    writes.push((from.0, rest))?;
    writes.push((to.0, sum))?;
    Ok(KvReply::Done)
}

/// What a request replies where it sees these rows; it adds what it writes.
fn reply(args: &KvRequest, seen: &[Entry], writes: &mut Vec<Entry>) -> Result<KvReply, Fault> {
    match args {
        KvRequest::Put(id, value) => {
            writes.push((*id, *value))?;
            Ok(KvReply::Done)
        }
        KvRequest::Get(keys) => Ok(KvReply::Values(values_of(keys, seen))),
        KvRequest::Add(id, amount) => {
            match value_of(seen, *id).unwrap_or(0).checked_add(*amount) {
                Some(sum) => {
                    writes.push((*id, sum))?;
                    Ok(KvReply::Value(sum))
                }
                None => Ok(KvReply::Limit),
            }
        }
        KvRequest::Move(from, to, amount) => {
            let source = (*from, value_of(seen, *from).unwrap_or(0));
            let target = (*to, value_of(seen, *to).unwrap_or(0));
            moved(source, target, *amount, writes)
        }
        KvRequest::Follow(id) => match value_of(seen, *id) {
            Some(named) => Ok(KvReply::Found(value_of(seen, named))),
            None => Ok(KvReply::Found(None)),
        },
    }
}

/// The answer to a request that sees the rows of its declared reads, and what it writes.
pub fn answer(
    alloc: Global,
    txn: &Txn<KvRequest>,
    seen: &[Entry],
) -> Result<(Answer<KvReply>, Vec<Entry>), Fault> {
    let mut writes = Vec::new(alloc);
    if needs(&txn.args, seen)? != txn.sets {
        return Ok((Answer::Changed, writes));
    }
    let reply = reply(&txn.args, seen, &mut writes)?;
    Ok((Answer::Reply(reply), writes))
}
