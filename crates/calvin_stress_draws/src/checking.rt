//! A plain checker: requests one at a time, over a plain map.
use crate::drawing::args_of;
use calvin_app::{Answer, Kv, KvReply, KvRequest};
use calvin_book::StoreBook;
use calvin_types::{Fault, Few, MOST_KEYS, Place, RequestId};
use std::alloc::Global;
use std::collections::HashMap;

/// A reply: where its request stands, which it is, and what it was answered.
#[derive(Clone, Copy)]
pub struct Replied {
    pub place: Place,
    pub id: RequestId,
    pub answer: Answer<KvReply>,
}

/// The replies of a book, one of each place, by ascending places; none where two of one place differ.
fn replies(alloc: Global, book: &StoreBook<Kv>) -> Result<Option<Vec<Replied>>, Fault> {
    let mut by_place: HashMap<Place, Replied> = HashMap::new(alloc);
    let mut places = Vec::new(alloc);
    let packets = book.world().packets();
    for number in 0..packets.len() {
        let Some((place, id, _attempt)) = packets.reply(number) else {
            continue;
        };
        let Some(answer) = packets.answer(number) else {
            continue;
        };
        match by_place.get(&place) {
            Some(reply) => {
                if reply.id != id || reply.answer != answer {
                    return Ok(None);
                }
            }
            None => {
                places.push(place)?;
                by_place.insert(place, Replied { place, id, answer })?;
            }
        }
    }
    places.sort()?;
    let mut all = Vec::new(alloc);
    for place in &places {
        if let Some(reply) = by_place.get(place) {
            all.push(*reply)?;
        }
    }
    Ok(Some(all))
}

/// The number under a key; 0 where there is none.
fn value_of(rows: &HashMap<u64, u64>, key: u64) -> u64 {
    rows.get(&key).copied().unwrap_or(0)
}

/// What a request is answered on these rows, which it changes.
fn run_plain(args: &KvRequest, rows: &mut HashMap<u64, u64>) -> Result<KvReply, Fault> {
    match args {
        KvRequest::Put(key, value) => {
            rows.insert(*key, *value)?;
            Ok(KvReply::Done)
        }
        KvRequest::Get(keys) => {
            let mut values = Few::new();
            for i in 0..keys.len() {
                if values.len() < MOST_KEYS {
                    values.push(rows.get(&keys.at(i).id).copied());
                }
            }
            Ok(KvReply::Values(values))
        }
        KvRequest::Add(key, more) => {
            let sum = value_of(rows, *key).saturating_add(*more);
            rows.insert(*key, sum)?;
            Ok(KvReply::Value(sum))
        }
        KvRequest::Move(from, to, number) => move_plain(*from, *to, *number, rows),
        KvRequest::Follow(_) => Ok(KvReply::Found(None)),
    }
}

fn move_plain(
    from: u64,
    to: u64,
    number: u64,
    rows: &mut HashMap<u64, u64>,
) -> Result<KvReply, Fault> {
    let had = value_of(rows, from);
    let Some(left) = had.checked_sub(number) else {
        return Ok(KvReply::Short);
    };
    rows.insert(from, left)?;
    let sum = value_of(rows, to).saturating_add(number);
    rows.insert(to, sum)?;
    Ok(KvReply::Done)
}

/// The replies of a book by their requests, if they are right: each is that of the serial run of all requests that stand before it,
/// and no request stands at two places.
pub fn right_replies(
    alloc: Global,
    number: u64,
    book: &StoreBook<Kv>,
) -> Result<Option<HashMap<RequestId, Replied>>, Fault> {
    let Some(all) = replies(alloc, book)? else {
        return Ok(None);
    };
    let mut rows = HashMap::new(alloc);
    let mut by_id: HashMap<RequestId, Replied> = HashMap::new(alloc);
    for reply in &all {
        let wanted = run_plain(&args_of(number, reply.id), &mut rows)?;
        if reply.answer != Answer::Reply(wanted) || by_id.contains_key(&reply.id) {
            return Ok(None);
        }
        by_id.insert(reply.id, *reply)?;
    }
    Ok(Some(by_id))
}
