//! Numbers by key: they are put, read, added to, moved and followed.
ghost use Rattle.std.specs.Prelude.{◌≡◌, ◌==◌, ◌≤◌, ℕ, false, [], ◌∷◌, length, map};
ghost use Rattle.std.specs.List.{list_all};
ghost use Rattle.std.specs.FinMap as finmap;
ghost use Rattle.std.proofs.Common.{lit<};
ghost use Rattle.calvin_app.specs.KvExact.{requests_exact, numbers_exact, replies_exact};
ghost use Rattle.calvin_app.specs.Rows.{Rows};
ghost use Rattle.calvin_app.specs.declared.answer.Answer.TheVariants.{Reply};
ghost use Rattle.calvin_app.specs.Kv.{kv, is_dependent, asked, pair_of, followed, moved};
ghost use Rattle.calvin_app.specs.KvLaws.{kv_lawful, kv_settles};
ghost use Rattle.calvin_types.specs.SameKeys.{same_keys};

use crate::answer::Answer;
use crate::app::App;
use crate::settles::Settles;
use crate::view::View;
use crate::writes::Writes;
use calvin_types::{Few, Key, KeySet, MOST_KEYS, Sets};

/// What is asked of numbers by key, all in table 0. A key is named by its number there.
#[derive(Clone, Copy, Debug, PartialEq, Eq)]
pub enum KvRequest {
    /// The number under the first becomes the second; answered `Done`. It writes the key and reads none.
    Put(u64, u64),
    /// The numbers under keys; answered `Values`. It reads the keys of table 0 and looks at no others.
    Get(KeySet),
    /// The number under the first grows by the second, and none counts as 0; answered `Value` or `Limit`. It reads and
    /// writes the key.
    Add(u64, u64),
    /// The number under the first loses the third and the number under the second gains it, and none counts as 0;
    /// answered `Done`, `Short` or `Limit`. It reads and writes both keys.
    Move(u64, u64, u64),
    /// The number under the key that the number under this one names; answered `Found`. It reads the key, and the other
    /// one where one is named, so its sets depend on a row.
    Follow(u64),
}

impl KvRequest {
    /// Adds the keys that the request reads and writes on these rows to sets that have none yet.
    #[inline(always)]
    pub fn add_needs(&self, view: &View<u64>, sets: &mut Sets)
        requires { sets.old ≡ record { reads = []; writes = [] } }
        ensures { sets.new ≡ kv.needs self.now view.now }
    {
        match self {
            KvRequest::Follow(id) => {
                let named = view.get(&key_of(*id));
                add_followed(*id, named, &mut sets.reads);
            }
            _ => self.add_first_needs(sets),
        }
    }

    /// Adds the keys that the request reads and writes where no row is known to sets that have none yet. Unless it is
    /// dependent these are the keys that it needs whatever the rows are.
    #[inline(always)]
    pub fn add_first_needs(&self, sets: &mut Sets)
        requires { sets.old ≡ record { reads = []; writes = [] } }
        ensures first { sets.new ≡ kv.needs self.now finmap.empty }
        ensures fixed { is_dependent self.now ≡ false → (rows : Rows ℕ) → sets.new ≡ kv.needs self.now rows }
    {
        match self {
            KvRequest::Put(id, _) => sets.writes.insert(key_of(*id)).unwrap(),
            KvRequest::Get(keys) => add_asked(keys, &mut sets.reads),
            KvRequest::Add(id, _) => {
                sets.reads.insert(key_of(*id)).unwrap();
                sets.writes.insert(key_of(*id)).unwrap();
            }
            KvRequest::Move(from, to, _) => {
                let both = pair_of(*from, *to);
                sets.reads = both;
                sets.writes = both;
            }
            KvRequest::Follow(id) => add_followed(*id, None, &mut sets.reads),
        }
    }

    /// Adds the keys that the request reads where no row is known to a set that has none yet, as `add_first_needs` does.
    #[inline(always)]
    pub fn add_needed_reads(&self, reads: &mut KeySet)
        requires { reads.old ≡ [] }
        ensures { reads.new ≡ (kv.needs self.now finmap.empty).reads }
    {
        match self {
            KvRequest::Put(_, _) => {}
            KvRequest::Get(keys) => add_asked(keys, reads),
            KvRequest::Add(id, _) => reads.insert(key_of(*id)).unwrap(),
            KvRequest::Move(from, to, _) => *reads = pair_of(*from, *to),
            KvRequest::Follow(id) => add_followed(*id, None, reads),
        }
    }
}

/// What is told of numbers by key.
#[derive(Clone, Copy, Debug, PartialEq, Eq)]
pub enum KvReply {
    /// The number was put.
    Done,
    /// The sum would be above 2^64 - 1, and nothing was written.
    Limit,
    /// There is less than is to be moved, and nothing was written.
    Short,
    /// The sum, which was written.
    Value(u64),
    /// For each key asked for, ascending, its number or none.
    Values(Few<Option<u64>>),
    /// The number under the key that was followed to, or none.
    Found(Option<u64>),
}

/// The application, which keeps nothing itself: the numbers are its rows.
#[derive(Clone, Copy, Debug)]
pub struct Kv;

/// The key of table 0 with this number.
fn key_of(id: u64) -> Key
    ensures { result ≡ record { table = 0; id = id } }
{
    Key { table: 0, id }
}

/// The set of the keys with these numbers, which may be one.
fn pair_of(first: u64, second: u64) -> KeySet
    ensures { result ≡ pair_of first second }
{
    let mut pair = KeySet::of(key_of(first));
    pair.grow(key_of(second));
    pair
}

/// Adds a key, and the one that its row names if it has one, to a set that has none.
fn add_followed(id: u64, named: Option<u64>, set: &mut KeySet)
    requires { set.old ≡ [] }
    ensures { set.new ≡ followed id named }
{
    *set = match named {
        Some(other) => pair_of(id, other),
        None => KeySet::of(key_of(id)),
    };
}

/// Whether a get asks for all of the keys. They rise, so the last one is of the highest table.
fn asks_for_all(keys: &KeySet) -> bool
    ensures all { result ≡ list_all (λ k. k.table == 0) keys.now }
    ensures at_most { length keys.now ≤ MOST_KEYS }
{
    match keys.len() {
        0 => true,
        size => keys.at(size - 1).table == 0,
    }
}

/// Adds the keys that a get asks for to a set that has none.
fn add_asked(keys: &KeySet, set: &mut KeySet)
    requires { set.old ≡ [] }
    ensures { set.new ≡ asked keys.now }
{
    if asks_for_all(keys) {
        *set = *keys;
    } else {
        *set = keys.of_table(0);
    }
}

/// The keys that a get asks for.
fn asked(keys: &KeySet) -> KeySet
    ensures { result ≡ asked keys.now }
{
    let mut set = KeySet::new();
    add_asked(keys, &mut set);
    set
}

/// Whether a set has the keys that a get asks for and no others.
fn are_asked(keys: &KeySet, set: &KeySet) -> bool
    ensures { result ≡ same_keys (asked keys.now) set.now }
{
    if asks_for_all(keys) {
        return *keys == *set;
    }
    asked(keys) == *set
}

/// Whether a set has this key and no other.
fn is_only(key: Key, set: &KeySet) -> bool
    ensures { result ≡ same_keys (key ∷ []) set.now }
{
    if set.len() != 1 {
        return false;
    }
    key == set.at(0)
}

/// Whether a set has no key.
fn is_none(set: &KeySet) -> bool
    ensures { result ≡ same_keys [] set.now }
{
    set.is_empty()
}

/// Adds for each key its number or none, to values that have none yet. Keys and rows are gone through together.
fn add_values(keys: &KeySet, view: &View<u64>, values: &mut Few<Option<u64>>)
    requires { values.old ≡ [] }
    ensures { values.new ≡ map (finmap.get view.now) keys.now }
{
    let mut found = 0;
    for i in 0..keys.len() {
        let value = view.get_from(found, &keys.at(i));
        if value.is_some() {
            found += 1;
        }
        values.push(value);
    }
}

/// Adds for each key that a get asks for its number or none, to values that have none yet.
fn add_asked_values(keys: &KeySet, view: &View<u64>, values: &mut Few<Option<u64>>)
    requires { values.old ≡ [] }
    ensures { values.new ≡ map (finmap.get view.now) (asked keys.now) }
{
    if asks_for_all(keys) {
        add_values(keys, view, values);
    } else {
        add_values(&asked(keys), view, values);
    }
}

/// What a move replies where the numbers under its two keys are these; it adds what it writes.
fn moved(
    from: u64,
    to: u64,
    amount: u64,
    source: u64,
    target: u64,
    writes: &mut Writes<u64>,
) -> KvReply
    requires { writes.old ≡ [] }
    ensures { (result, writes.new) ≡ moved from to amount source target }
{
    if source < amount {
        return KvReply::Short;
    }
    if from == to {
        return KvReply::Done;
    }
    match target.checked_add(amount) {
        Some(sum) => {
            writes.push(key_of(from), source - amount);
            writes.push(key_of(to), sum);
            KvReply::Done
        }
        None => KvReply::Limit,
    }
}

/// Replies to a request, in place of any answer that stands there, and adds what it writes.
#[inline(always)]
fn answer_to(
    args: &KvRequest,
    view: &View<u64>,
    answer: &mut Answer<KvReply>,
    writes: &mut Writes<u64>,
)
    requires { writes.old ≡ [] }
    ensures answer { answer.new ≡ Reply (kv.outcome args.now view.now).0 }
    ensures writes { writes.new ≡ (kv.outcome args.now view.now).1 }
{
    match args {
        KvRequest::Put(id, value) => {
            *answer = Answer::Reply(KvReply::Done);
            writes.push(key_of(*id), *value);
        }
        KvRequest::Get(keys) => {
            *answer = Answer::Reply(KvReply::Values(Few::new()));
            if let Answer::Reply(KvReply::Values(values)) = answer {
                add_asked_values(keys, view, values);
            }
        }
        KvRequest::Add(id, amount) => {
            let before = view.get(&key_of(*id)).unwrap_or(0);
            match before.checked_add(*amount) {
                Some(sum) => {
                    *answer = Answer::Reply(KvReply::Value(sum));
                    writes.push(key_of(*id), sum);
                }
                None => *answer = Answer::Reply(KvReply::Limit),
            }
        }
        KvRequest::Move(from, to, amount) => {
            let source = view.get(&key_of(*from)).unwrap_or(0);
            let target = view.get(&key_of(*to)).unwrap_or(0);
            let reply = moved(*from, *to, *amount, source, target, writes);
            *answer = Answer::Reply(reply);
        }
        KvRequest::Follow(id) => {
            let found = match view.get(&key_of(*id)) {
                Some(other) => view.get(&key_of(other)),
                None => None,
            };
            *answer = Answer::Reply(KvReply::Found(found));
        }
    }
}

impl App for Kv {
    ghost use Rattle.calvin_types.specs.declared.limits.TheConstants.{MOST_KEYS};

    type Args = KvRequest;

    type Row = u64;

    type Reply = KvReply;

    ghost meaning = { kv };

    ghost is_dependent = { is_dependent };

    ghost key_limit = { MOST_KEYS };

    ghost table_limit = { 0 };

    fn most_keys(&self) -> usize {
        MOST_KEYS
    }

    fn top_table(&self) -> u8 {
        0
    }

    fn dependent(&self, args: &KvRequest) -> bool {
        matches!(args, KvRequest::Follow(_))
    }

    fn sets(&self, args: &KvRequest, view: &View<u64>) -> Sets {
        let mut sets = Sets {
            reads: KeySet::new(),
            writes: KeySet::new(),
        };
        args.add_needs(view, &mut sets);
        sets
    }

    fn needs_only(&self, args: &KvRequest, view: &View<u64>, sets: &Sets) -> bool {
        match args {
            KvRequest::Put(id, _) => is_none(&sets.reads) && is_only(key_of(*id), &sets.writes),
            KvRequest::Get(keys) => are_asked(keys, &sets.reads) && is_none(&sets.writes),
            KvRequest::Add(id, _) => {
                is_only(key_of(*id), &sets.reads) && is_only(key_of(*id), &sets.writes)
            }
            KvRequest::Move(from, to, _) => {
                let both = pair_of(*from, *to);
                both == sets.reads && both == sets.writes
            }
            KvRequest::Follow(id) => {
                let mut reads = KeySet::new();
                add_followed(*id, view.get(&key_of(*id)), &mut reads);
                reads == sets.reads && is_none(&sets.writes)
            }
        }
    }

    fn run(&self, args: &KvRequest, view: &View<u64>) -> (KvReply, Writes<u64>) {
        let mut answer = Answer::Changed;
        let mut writes = Writes::new();
        answer_to(args, view, &mut answer, &mut writes);
        match answer {
            Answer::Reply(reply) => (reply, writes),
            Answer::Changed => unreachable!(),
        }
    }

    fn run_into(
        &self,
        args: &KvRequest,
        view: &View<u64>,
        answer: &mut Answer<KvReply>,
        writes: &mut Writes<u64>,
    ) {
        answer_to(args, view, answer, writes);
    }

    ghost lawful = { kv_lawful };

    ghost rows_fit = { lit< tt };

    ghost job_fits = { lit< tt };

    ghost work_fits = { lit< tt };

    ghost args_exact = { requests_exact };

    ghost rows_exact = { numbers_exact };

    ghost replies_exact = { replies_exact };
}

impl Settles for Kv {
    ghost settles = { kv_settles };
}
