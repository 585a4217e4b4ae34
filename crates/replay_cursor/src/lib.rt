// The replay's cursor by value: what is left of a replay, its top entry, and the cursor behind that.
#![tactic(auto)]

ghost use Rattle.std.specs.Prelude.{◌≡◌};
ghost use Rattle.refusals.specs.Answers.{outcome_of};
ghost use Rattle.refusals.specs.Outcome.{gives};
ghost use Rattle.replay_cursor.specs.Cursor.{counts_hang, lies_in};
ghost use Rattle.replay_cursor.specs.Calls.{top_then, top_call, pop_call};

use journal_entry::{EntryPlace, Kind};
use refusals::Refusal;

pub mod lent;

// What is left of the replay: from a place of the replay buffer on, so many bytes, which are so many entries.
#[derive(Clone, Copy, Debug, PartialEq, Eq)]
pub struct Replay {
    pub place: usize,
    pub bytes: usize,
    pub entries: usize,
}

// The entry at the replay's place: its kind, its two lengths, and their bytes' places from the replay buffer's
// start on.
#[derive(Clone, Copy, Debug, PartialEq, Eq)]
pub struct Top {
    pub kind: Kind,
    pub first_at: usize,
    pub first_len: usize,
    pub second_at: usize,
    pub second_len: usize,
}

// Whether so many bytes can be so many entries. (The product is not made, since it may wrap.)
#[tactic(auto, using(crate::proofs::Counts::counts_zero, crate::proofs::Counts::counts_more))]
pub fn counts_hang(entries: usize, bytes: usize) -> bool
    ensures { result ≡ counts_hang entries bytes }
{
    if entries == 0 {
        bytes == 0
    } else {
        entries <= bytes / 8
    }
}

impl Replay {
    pub const NONE: Replay = Replay {
        place: 0,
        bytes: 0,
        entries: 0,
    };

    // Whether the counts hang together, and a buffer is at least as long as recorded. (No sum is made that may wrap.)
    #[tactic(auto, unfolding(crate::specs::Cursor::lies_in))]
    fn lies_in(self, replay: &[u8]) -> bool
        ensures { result ≡ lies_in self replay.now }
    {
        let n = replay.len();
        counts_hang(self.entries, self.bytes) && self.place <= n && self.bytes <= n - self.place
    }

    // The tests that top and pop both have, and the entry's place behind them.
    fn top_entry(self, replay: &[u8]) -> Result<EntryPlace, Refusal>
        ensures { outcome_of result ≡ top_then self replay.now gives }
    {
        if !self.lies_in(replay) {
            return Err(Refusal::CountsDisagree);
        }
        if self.entries == 0 {
            return Err(Refusal::NothingThere);
        }
        let end = self.place + self.bytes;
        let read = journal_entry::entry_at(&replay, self.place, end);
        read.ok_or(Refusal::Unreadable)
    }

    // The entry at the replay's place. The replay stays as it is.
    pub fn top(self, replay: &[u8]) -> Result<Top, Refusal>
        ensures { outcome_of result ≡ top_call self replay.now }
    {
        let p = self.top_entry(replay)?;
        Ok(Top {
            kind: p.kind,
            first_at: p.first_at,
            first_len: p.first_len,
            second_at: p.second_at,
            second_len: p.second_len,
        })
    }

    // The cursor behind that entry.
    #[tactic(auto, using(crate::proofs::Rows::gave_numbers))]
    pub fn pop(self, replay: &[u8]) -> Result<Replay, Refusal>
        ensures { outcome_of result ≡ pop_call self replay.now }
    {
        let p = self.top_entry(replay)?;
        let bytes = self.place + self.bytes - p.next;
        let entries = self.entries - 1;
        if !counts_hang(entries, bytes) {
            return Err(Refusal::Unreadable);
        }
        Ok(Replay {
            place: p.next,
            bytes,
            entries,
        })
    }
}
