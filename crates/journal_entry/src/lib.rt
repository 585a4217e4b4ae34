// Journal entries read from a byte sequence: one, or so many one behind the other.
#![tactic(auto)]

mod sequence;

ghost use Rattle.std.specs.Prelude.{◌≡◌, ◌||◌, cond, List, ℕ, ◌+◌, ◌-◌, ◌≤◌, leb, length};
ghost use Rattle.journal_entry.specs.Entry.{clone_mark, second_limit};
ghost use Rattle.journal_entry.specs.Places.{word_at, kind_of, is_clone_kind, entry_at, entries_end, entries_counted};

pub use sequence::{ByteSequence, Joined};

// The most first bytes of an entry, and the most second bytes of an insert and of a clone.
pub const FIRST_LIMIT: usize = 512;

pub const VALUE_LIMIT: usize = 16384;

pub const TO_LIMIT: usize = 512;

// What the first length has more in a clone.
pub const CLONE_MARK: u32 = 4096;

#[derive(Clone, Copy, Debug, PartialEq, Eq)]
pub enum Kind {
    Insert,
    Clone,
}

// Where an entry's two pieces lie, and the place behind it.
#[derive(Clone, Copy, Debug, PartialEq, Eq)]
pub struct EntryPlace {
    pub kind: Kind,
    pub first_at: usize,
    pub first_len: usize,
    pub second_at: usize,
    pub second_len: usize,
    pub next: usize,
}

// The place behind the last of the entries read, and the clones among them.
#[derive(Clone, Copy, Debug, PartialEq, Eq)]
pub struct Counted {
    pub place: usize,
    pub clones: usize,
}

impl Kind {
    // The kind that a first length word says.
    pub fn of(word: u32) -> Kind
        ensures { result ≡ kind_of (leb 4096 word) }
    {
        if CLONE_MARK <= word {
            Kind::Clone
        } else {
            Kind::Insert
        }
    }

    // What it adds to the first length word.
    pub fn mark(self) -> u32
        ensures value { result ≡ clone_mark (is_clone_kind self) }
        ensures upper_bound { result ≤ 4096 }
    {
        match self {
            Kind::Insert => 0,
            Kind::Clone => CLONE_MARK,
        }
    }

    // The most second bytes.
    pub fn second_limit(self) -> usize
        ensures value { result ≡ second_limit (is_clone_kind self) }
        ensures upper_bound { result ≤ 16384 }
    {
        match self {
            Kind::Insert => VALUE_LIMIT,
            Kind::Clone => TO_LIMIT,
        }
    }

    // Whether an entry of the kind with these first bytes has a key, or needs none.
    pub fn has_key(self, first: &[u8]) -> bool
        ensures { result ≡ (is_clone_kind self || leb 1 (length first.now)) }
    {
        self == Kind::Clone || !first.is_empty()
    }

    // What an entry of the kind adds to the clones.
    pub fn clones(self) -> usize
        ensures { result ≡ cond (is_clone_kind self) 1 0 }
    {
        usize::from(self == Kind::Clone)
    }
}

// The first length that a first length word says.
pub fn first_len(word: u32) -> usize
    ensures { result ≡ word - clone_mark (leb 4096 word) }
{
    (word - Kind::of(word).mark()) as usize
}

// Whether an entry at `at` whose pieces have n bytes ends by `end`.
pub fn fits(at: usize, n: usize, end: usize) -> bool
    ensures { result ≡ leb (at + 8 + n) end }
{
    8 <= end && at <= end - 8 && n <= end - 8 - at
}

// The entry at `at` with these two length words, if it ends by `end` and is within the limits, in whatever sequence
// the words stand.
#[tactic(auto, using(crate::proofs::Options::fit_yes))]
pub fn placed(word: u32, after: u32, at: usize, end: usize) -> Option<EntryPlace>
    ensures { (s : List ℕ) → end ≤ length s → word ≡ word_at s at
        → after ≡ word_at s (at + 4 + (word - clone_mark (leb 4096 word))) → result ≡ entry_at s at end }
{
    let kind = Kind::of(word);
    let first = first_len(word);
    if FIRST_LIMIT < first {
        return None;
    }
    let second = after as usize;
    if kind.second_limit() < second {
        return None;
    }
    if !fits(at, first + second, end) {
        return None;
    }
    Some(EntryPlace {
        kind,
        first_at: at + 4,
        first_len: first,
        second_at: at + 8 + first,
        second_len: second,
        next: at + 8 + first + second,
    })
}

// The entry at `at`, if it ends by `end`, which lies in the sequence, and is within the limits.
#[tactic(auto, using(crate::proofs::Options::fit_yes))]
pub fn entry_at<S: ByteSequence>(s: &S, at: usize, end: usize) -> Option<EntryPlace>
    ensures { result ≡ entry_at (S.bytes s.now) at end }
{
    if s.len() < end {
        return None;
    }
    let word = s.word_at(at);
    let first = first_len(word);
    if !fits(at, first, end) {
        return None;
    }
    let after = s.word_at(at + 4 + first);
    placed(word, after, at, end)
}

// The place behind `count` entries, one behind the other, from `at` to `end` at most, and the clones among them. Stops
// at the first that does not read.
pub fn counted_in<S: ByteSequence>(s: &S, at: usize, end: usize, count: usize) -> Option<Counted>
    ensures { result ≡ entries_counted (S.bytes s.now) at end count }
{
    if end < at || s.len() < end {
        return None;
    }
    let mut place = at;
    let mut clones = 0;
    for _ in 0..count {
        let entry = entry_at(s, place, end)?;
        clones += entry.kind.clones();
        place = entry.next;
    }
    Some(Counted { place, clones })
}

// The place alone.
pub fn entries_in<S: ByteSequence>(s: &S, at: usize, end: usize, count: usize) -> Option<usize>
    ensures { result ≡ entries_end (S.bytes s.now) at end count }
{
    Some(counted_in(s, at, end, count)?.place)
}
