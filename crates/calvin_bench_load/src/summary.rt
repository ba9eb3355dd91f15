//! What came of a load, in three numbers.
use calvin_app::{Answer, KvReply};

/// How many requests were answered, and sums of their answers and of the rows.
#[derive(Clone, Copy)]
pub struct Summary {
    pub requests: u32,
    pub answers: u64,
    pub rows: u64,
}

/// Two numbers as one, which depends on both.
fn mixed(one: u64, other: u64) -> u64 {
    let sum = one.wrapping_add(other).wrapping_add(1);
    sum.wrapping_mul(6364136223846793005) ^ (sum >> 29)
}

fn number_of(value: Option<u64>) -> u64 {
    match value {
        Some(number) => number.wrapping_add(1),
        None => 0,
    }
}

/// An answer as a number.
fn answer_number(answer: &Answer<KvReply>) -> u64 {
    match answer {
        Answer::Changed => 1,
        Answer::Reply(KvReply::Done) => 2,
        Answer::Reply(KvReply::Limit) => 3,
        Answer::Reply(KvReply::Short) => 4,
        Answer::Reply(KvReply::Value(value)) => mixed(5, *value),
        Answer::Reply(KvReply::Found(value)) => mixed(6, number_of(*value)),
        Answer::Reply(KvReply::Values(values)) => {
            let mut sum = 7;
            for i in 0..values.len() {
                sum = mixed(sum, number_of(values.at(i)));
            }
            sum
        }
    }
}

impl Summary {
    /// Nothing is answered, and there are no rows.
    pub fn new() -> Summary {
        Summary {
            requests: 0,
            answers: 0,
            rows: 0,
        }
    }

    /// The next request is answered.
    pub fn answer(&mut self, answer: &Answer<KvReply>) {
        self.answers = mixed(self.answers, answer_number(answer));
        self.requests = self.requests.wrapping_add(1);
    }

    /// The row of the next key.
    pub fn row(&mut self, row: Option<u64>) {
        self.rows = mixed(self.rows, number_of(row));
    }
}
