//! Marks of numbers.
ghost use Rattle.std.specs.Prelude.{◌≡◌, ◌≢◌, ◌↔◌, ℕ, ◌+◌, ◌*◌, ◌/◌, ◌^◌, ◌<◌, ◌≤◌, true, false, length, vec_len, IsTrue, OnOk, OnErr, IsOkUnless};
ghost use Rattle.calvin_lock.specs.Marks.{word_at, has_bit, AreRight, AreRightBut, IsSize, HasShape, AreMarks, is_marked, IsNextBit, IsNextMarked};

use calvin_types::Fault;
use std::alloc::Global;

/// Marks of the numbers below `leaves`, as the bits from `start` on of words that are the nodes of a tree, each with up to
/// 64 below it. Each other bit is set where the word below it isn't 0: so a number is marked, and the next marked one
/// found, in logarithmic time.
#[derive(Drop)]
pub(crate) struct Marks {
    pub leaves: usize,
    start: usize,
    words: Vec<u64>,
}

/// The first bit that is set from `from` on, of the lowest level of the tree of so many words.
fn next_bit(words: &[u64], from: usize, size: usize) -> Option<usize>
    requires right { AreRight words.now }
    requires size { IsSize size }
    requires within { size ≤ length words.now }
    requires fits { 64 * size < 2 ^ 64 }
    requires before { from ≤ 64 * size }
    requires after { size ≤ from + 1 }
    ensures { IsNextBit words.now from (64 * size) result }
{
    let word = from / 64;
    if word == size {
        return None;
    }
    let rest = words[word] >> (from % 64);
    if rest != 0 {
        return Some(from + rest.trailing_zeros() as usize);
    }
    let above = next_bit(words, word, size / 64)?;
    let below = words[above + 1];
    Some(64 * (above + 1) + below.trailing_zeros() as usize)
}

/// Sets a bit, and says whether its word was 0.
fn set_bit(words: &mut Vec<u64>, bit: usize) -> bool
    requires { bit < 64 * vec_len words.old }
    ensures set { has_bit words.new.items bit ≡ true }
    ensures others { (g : ℕ) → g ≢ bit → has_bit words.new.items g ≡ has_bit words.old.items g }
    ensures words { (k : ℕ) → k ≢ bit / 64 → word_at words.new.items k ≡ word_at words.old.items k }
    ensures some { word_at words.new.items (bit / 64) ≢ 0 }
    ensures first { IsTrue result ↔ (word_at words.old.items (bit / 64) ≡ 0) }
    ensures len { vec_len words.new ≡ vec_len words.old }
{
    let word = words[bit / 64];
    words[bit / 64] = word | 1 << (bit % 64);
    word == 0
}

/// Clears a bit, and says whether its word is 0 then.
fn clear_bit(words: &mut Vec<u64>, bit: usize) -> bool
    requires { bit < 64 * vec_len words.old }
    ensures cleared { has_bit words.new.items bit ≡ false }
    ensures others { (g : ℕ) → g ≢ bit → has_bit words.new.items g ≡ has_bit words.old.items g }
    ensures words { (k : ℕ) → k ≢ bit / 64 → word_at words.new.items k ≡ word_at words.old.items k }
    ensures some { word_at words.new.items (bit / 64) ≢ 0 → word_at words.old.items (bit / 64) ≢ 0 }
    ensures last { IsTrue result ↔ (word_at words.new.items (bit / 64) ≡ 0) }
    ensures len { vec_len words.new ≡ vec_len words.old }
{
    let word = words[bit / 64] & !(1 << (bit % 64));
    words[bit / 64] = word;
    word == 0
}

/// Makes the bits above a word right that isn't 0 any more.
fn set_above(words: &mut Vec<u64>, changed: usize)
    requires right { AreRightBut changed words.old.items }
    requires within { changed < vec_len words.old }
    requires fits { 64 * vec_len words.old < 2 ^ 64 }
    requires some { word_at words.old.items changed ≢ 0 }
    ensures right { AreRight words.new.items }
    ensures len { vec_len words.new ≡ vec_len words.old }
    ensures leaves { (g : ℕ) → vec_len words.old ≤ g + 1 → has_bit words.new.items g ≡ has_bit words.old.items g }
{
    let mut word = changed;
    while word > 0 {
        let bit = word - 1;
        if !set_bit(words, bit) {
            return;
        }
        word = bit / 64;
    }
}

/// Makes the bits above a word right that is 0 now.
fn clear_above(words: &mut Vec<u64>, changed: usize)
    requires right { AreRightBut changed words.old.items }
    requires within { changed < vec_len words.old }
    requires fits { 64 * vec_len words.old < 2 ^ 64 }
    requires none { word_at words.old.items changed ≡ 0 }
    ensures right { AreRight words.new.items }
    ensures len { vec_len words.new ≡ vec_len words.old }
    ensures leaves { (g : ℕ) → vec_len words.old ≤ g + 1 → has_bit words.new.items g ≡ has_bit words.old.items g }
{
    let mut word = changed;
    while word > 0 {
        let bit = word - 1;
        if !clear_bit(words, bit) {
            return;
        }
        word = bit / 64;
    }
}

impl Marks {
    /// No number, and no mark.
    pub(crate) fn new(alloc: Global) -> Marks
        ensures kept { AreMarks result }
        ensures leaves { result.leaves ≡ 0 }
        ensures unmarked { (i : ℕ) → is_marked result i ≡ false }
    {
        Marks {
            leaves: 0,
            start: 0,
            words: Vec::new(alloc),
        }
    }

    /// Makes room for about 64 times as many numbers, at first for 64, and unmarks them all.
    pub(crate) fn widen(&mut self) -> Result<(), Fault>
        requires { AreMarks self.old }
        ensures kept { AreMarks self.new }
        ensures ok { OnOk result (self.old.leaves < self.new.leaves) }
        ensures unmarked { OnOk result ((i : ℕ) → is_marked self.new i ≡ false) }
        ensures err { OnErr result (self.new.leaves ≡ self.old.leaves) }
        ensures same { OnErr result ((i : ℕ) → is_marked self.new i ≡ is_marked self.old i) }
        ensures only { IsOkUnless result Fault.OutOfMemory }
    {
        let size = 64 * self.words.len() + 1;
        let Some(bits) = size.checked_mul(64) else {
            return Err(Fault::OutOfMemory);
        };
        self.words.resize(size, 0)?;
        self.start = size - 1;
        self.leaves = bits - self.start;
        self.unmark_all();
        Ok(())
    }

    /// Unmarks all numbers.
    pub(crate) fn unmark_all(&mut self)
        requires { HasShape self.old }
        ensures kept { AreMarks self.new }
        ensures leaves { self.new.leaves ≡ self.old.leaves }
        ensures unmarked { (i : ℕ) → is_marked self.new i ≡ false }
    {
        let size = self.words.len();
        self.words.clear();
        let filled: Result<_, _> = self.words.resize(size, 0);
        filled.unwrap();
    }

    /// Marks a number.
    pub(crate) fn mark(&mut self, number: usize)
        requires kept { AreMarks self.old }
        requires within { number < self.old.leaves }
        ensures kept { AreMarks self.new }
        ensures leaves { self.new.leaves ≡ self.old.leaves }
        ensures marked { is_marked self.new number ≡ true }
        ensures others { (i : ℕ) → i ≢ number → is_marked self.new i ≡ is_marked self.old i }
    {
        let bit = self.start + number;
        if set_bit(&mut self.words, bit) {
            set_above(&mut self.words, bit / 64);
        }
    }

    /// Unmarks a number.
    pub(crate) fn unmark(&mut self, number: usize)
        requires kept { AreMarks self.old }
        requires within { number < self.old.leaves }
        ensures kept { AreMarks self.new }
        ensures leaves { self.new.leaves ≡ self.old.leaves }
        ensures unmarked { is_marked self.new number ≡ false }
        ensures others { (i : ℕ) → i ≢ number → is_marked self.new i ≡ is_marked self.old i }
    {
        let bit = self.start + number;
        if clear_bit(&mut self.words, bit) {
            clear_above(&mut self.words, bit / 64);
        }
    }

    /// The first marked number from `from` on.
    pub(crate) fn next(&self, from: usize) -> Option<usize>
        requires kept { AreMarks self.now }
        requires within { from ≤ self.now.leaves }
        ensures { IsNextMarked self.now from result }
    {
        let bit = next_bit(self.words.as_slice(), self.start + from, self.words.len())?;
        Some(bit - self.start)
    }
}
