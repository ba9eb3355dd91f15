//! What is kept of what a packet says.
ghost use Rattle.std.specs.Prelude.{◌≡◌, ◌+◌, ◌-◌, ◌<◌, ◌≤◌, true, false, MatchOption, vec_len, vec_capacity};
ghost use Rattle.calvin_node_packets.specs.Keeping as keeping;
ghost use Rattle.calvin_node_packets.specs.Keeping.{Below, Lists, counts, kept_of, lists_cut, lists_with, none, said};
ghost use Rattle.calvin_node_packets.specs.Packets.{is_light};
ghost use Rattle.calvin_node_packets.specs.Sendings.{content_of};

use crate::kept::KeptContent;
use crate::packet::Content;
use crate::sent::Sent;
use calvin_app::{Answer, App};
use calvin_types::Sets;
use calvin_view_list::ViewList;

/// Keeps what a packet says: its rows, sets or answer come behind those in the lists. There is room.
pub(crate) fn store<A: App>(
    rows: &mut ViewList<A::Row>,
    sets: &mut Vec<Sets>,
    answers: &mut Vec<Answer<A::Reply>>,
    content: Content<A::Args, A::Row, A::Reply>,
) -> KeptContent<A::Args>
    requires rows { 0 < rows.old.room }
    requires sets { 0 < vec_capacity sets.old - vec_len sets.old }
    requires answers { 0 < vec_capacity answers.old - vec_len answers.old }
    ensures kept { result ≡ kept_of (counts (record { rows = rows.old.views; sets = sets.old.items; answers = answers.old.items })) content }
    ensures lists { record { rows = rows.new.views; sets = sets.new.items; answers = answers.new.items }
        ≡ lists_with (record { rows = rows.old.views; sets = sets.old.items; answers = answers.old.items }) content }
    ensures rows_room { rows.old.room ≤ rows.new.room + 1 }
    ensures sets_room { vec_capacity sets.old - vec_len sets.old ≤ (vec_capacity sets.new - vec_len sets.new) + 1 }
    ensures answers_room { vec_capacity answers.old - vec_len answers.old ≤ (vec_capacity answers.new - vec_len answers.new) + 1 }
{
    match content {
        Content::Synod(message) => KeptContent::Synod(message),
        Content::Decided(slot, batch) => KeptContent::Decided(slot, batch),
        Content::AskBatch(slot) => KeptContent::AskBatch(slot),
        Content::Reads(place, view) => {
            let number = rows.len();
            rows.push_reserved(&view);
            KeptContent::Reads(place, number)
        }
        Content::AskReads(place) => KeptContent::AskReads(place),
        Content::Warm(warm) => {
            let number = sets.len();
            sets.push_reserved(warm);
            KeptContent::Warm(number)
        }
        Content::Replies(place, id, attempt, answer) => {
            let number = answers.len();
            answers.push_reserved(answer);
            KeptContent::Replies(place, id, attempt, number)
        }
    }
}

/// Takes what the last packet had out of the lists.
pub(crate) fn cut<A: App>(
    rows: &mut ViewList<A::Row>,
    sets: &mut Vec<Sets>,
    answers: &mut Vec<Answer<A::Reply>>,
    content: &KeptContent<A::Args>,
)
    requires { Below content.now (counts (record { rows = rows.old.views; sets = sets.old.items; answers = answers.old.items })) }
    ensures lists { record { rows = rows.new.views; sets = sets.new.items; answers = answers.new.items }
        ≡ lists_cut (record { rows = rows.old.views; sets = sets.old.items; answers = answers.old.items }) content.now }
    ensures rows_room { rows.old.room ≤ rows.new.room }
    ensures sets_room { vec_capacity sets.old - vec_len sets.old ≤ vec_capacity sets.new - vec_len sets.new }
    ensures answers_room { vec_capacity answers.old - vec_len answers.old ≤ vec_capacity answers.new - vec_len answers.new }
{
    match content {
        KeptContent::Reads(_, number) => rows.truncate(*number),
        KeptContent::Warm(number) => sets.truncate(*number),
        KeptContent::Replies(_, _, _, number) => answers.truncate(*number),
        _ => {}
    }
}

/// What a packet says that is kept so.
pub(crate) fn sent_of<'a, A: App>(
    content: &'a KeptContent<A::Args>,
    rows: &ViewList<A::Row>,
    sets: &[Sets],
    answers: &[Answer<A::Reply>],
) -> Sent<'a, A::Args, A::Row, A::Reply>
    requires { Below content.now (counts (record { rows = rows.now.views; sets = sets.now; answers = answers.now })) }
    ensures { content_of result ≡ said (record { rows = rows.now.views; sets = sets.now; answers = answers.now }) content.now }
{
    match content {
        KeptContent::Synod(message) => Sent::Synod(message),
        KeptContent::Decided(slot, batch) => Sent::Decided(*slot, batch),
        KeptContent::AskBatch(slot) => Sent::AskBatch(*slot),
        KeptContent::Reads(place, at) => Sent::Reads(*place, rows.at(*at)),
        KeptContent::AskReads(place) => Sent::AskReads(*place),
        KeptContent::Warm(at) => Sent::Warm(sets[*at]),
        KeptContent::Replies(place, id, attempt, at) => {
            Sent::Replies(*place, *id, *attempt, answers[*at])
        }
    }
}

/// Whether a packet has neither rows nor sets nor an answer.
pub(crate) fn is_plain<Args>(content: &KeptContent<Args>) -> bool
    ensures { result ≡ keeping.is_plain content.now }
{
    match content {
        KeptContent::Reads(..) | KeptContent::Warm(_) | KeptContent::Replies(..) => false,
        _ => true,
    }
}

/// What a packet says that has rows, sets or an answer.
pub(crate) fn listed<A: App>(
    content: &KeptContent<A::Args>,
    rows: &ViewList<A::Row>,
    sets: &[Sets],
    answers: &[Answer<A::Reply>],
) -> Content<A::Args, A::Row, A::Reply>
    requires below { Below content.now (counts (record { rows = rows.now.views; sets = sets.now; answers = answers.now })) }
    requires listed { keeping.is_plain content.now ≡ false }
    ensures { result ≡ said (record { rows = rows.now.views; sets = sets.now; answers = answers.now }) content.now }
{
    match content {
        KeptContent::Reads(place, at) => Content::Reads(*place, rows.at(*at)),
        KeptContent::Warm(at) => Content::Warm(sets[*at]),
        KeptContent::Replies(place, id, attempt, at) => {
            Content::Replies(*place, *id, *attempt, answers[*at])
        }
        _ => unreachable!(),
    }
}

/// What a packet says that has neither rows nor sets nor an answer.
pub(crate) fn taken_out<Args, Row, Reply>(content: KeptContent<Args>) -> Content<Args, Row, Reply>
    requires { keeping.is_plain content ≡ true }
    ensures { (lists : Lists Row Reply) → said lists content ≡ result }
{
    match content {
        KeptContent::Synod(message) => Content::Synod(message),
        KeptContent::Decided(slot, batch) => Content::Decided(slot, batch),
        KeptContent::AskBatch(slot) => Content::AskBatch(slot),
        KeptContent::AskReads(place) => Content::AskReads(place),
        KeptContent::Reads(..) | KeptContent::Warm(_) | KeptContent::Replies(..) => {
            unreachable!()
        }
    }
}

/// What is kept of what a packet says that has neither rows nor sets nor an answer.
pub(crate) fn put_in<Args, Row: Copy, Reply: Copy>(
    content: Content<Args, Row, Reply>,
) -> Option<KeptContent<Args>>
    ensures { MatchOption result (is_light content ≡ false) (λ kept. (is_light content ≡ true) × (kept ≡ kept_of none content)) }
{
    match content {
        Content::Synod(message) => Some(KeptContent::Synod(message)),
        Content::Decided(slot, batch) => Some(KeptContent::Decided(slot, batch)),
        Content::AskBatch(slot) => Some(KeptContent::AskBatch(slot)),
        Content::AskReads(place) => Some(KeptContent::AskReads(place)),
        Content::Reads(..) | Content::Warm(_) | Content::Replies(..) => None,
    }
}
