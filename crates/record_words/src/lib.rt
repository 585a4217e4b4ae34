// The journal's record as words in a lent slice, for callers that have only numbers. The words:
//  0 the layout             6 in-memory entries     12 replay entries
//  1 N, blocks              7 in-memory bytes       13 front: 1, or 0 where there is none
//  2 R, ring bytes          8 written blocks        14 its blocks, 0 where there is none
//  3 start                  9 frozen blocks         15 back: the same
//  4 frozen entries        10 replay place          16 its blocks
//  5 frozen bytes          11 replay bytes          17 clones in both lists
// 18 entries, 19 bytes and 20 blocks of the last freeze
// Words behind them are neither read nor changed.
#![tactic(auto)]

mod answers;

ghost use Rattle.std.specs.Prelude.{◌≡◌, cond, ◌++◌, ◌≤◌, length, drop, MatchResult, OnOk, Some, None};
ghost use Rattle.refusals.specs.declared.Refusal.TheVariants.{CountsDisagree};
ghost use Rattle.refusals.specs.Answers.{outcome_of};
ghost use Rattle.record_words.specs.Words.{word_count, words_of, side_reads, side_of, decode_of};
ghost use Rattle.record_words.specs.Calls.{code_of, fitted_to, words_after};

pub use answers::reply;
use journalist::{Journalist, Last, Pending};
use refusals::Refusal;
use replay_cursor::Replay;

// The version of the layout, and how many words it has.
pub const LAYOUT: u64 = 3;

pub const WORDS: usize = 21;

// The side that two words say, if they say one. A side with no blocks to count has the blocks 0, so that no side has
// two forms.
#[tactic(auto, unfolding(crate::specs::Words::side_reads, crate::specs::Words::side_of))]
fn side(flag: u64, blocks: u64) -> Option<Option<usize>>
    ensures { result ≡ cond (side_reads flag blocks) (Some (side_of flag blocks)) None }
{
    match flag {
        0 if blocks == 0 => Some(None),
        1 => Some(Some(blocks as usize)),
        _ => None,
    }
}

// The record that words say, whose counts may still not hang together. Words that say none are refused as if they
// did not: 2.
#[tactic(auto, unfolding(crate::specs::Words::decode_of, crate::specs::Words::words_read, crate::specs::Words::record_at))]
pub fn decode(words: &[u64]) -> Result<Journalist, Refusal>
    ensures said { MatchResult result
        (λ j. decode_of words.now ≡ Some j)
        (λ why. (decode_of words.now ≡ None) × (why ≡ CountsDisagree)) }
    ensures room { OnOk result (word_count ≤ length words.now) }
{
    if words.len() < WORDS || words[0] != LAYOUT {
        return Err(Refusal::CountsDisagree);
    }
    let front = side(words[13], words[14]).ok_or(Refusal::CountsDisagree)?;
    let back = side(words[15], words[16]).ok_or(Refusal::CountsDisagree)?;
    Ok(Journalist {
        blocks: words[1] as usize,
        ring: words[2] as usize,
        start: words[3] as usize,
        frozen: Pending {
            entries: words[4] as usize,
            bytes: words[5] as usize,
        },
        memory: Pending {
            entries: words[6] as usize,
            bytes: words[7] as usize,
        },
        written: words[8] as usize,
        held: words[9] as usize,
        replay: Replay {
            place: words[10] as usize,
            bytes: words[11] as usize,
            entries: words[12] as usize,
        },
        front,
        back,
        clones: words[17] as usize,
        last: Last {
            entries: words[18] as usize,
            bytes: words[19] as usize,
            blocks: words[20] as usize,
        },
    })
}

#[tactic(auto, using(crate::proofs::Stores::stores))]
fn store(words: &mut [u64], j: Journalist)
    requires { word_count ≤ length words.old }
    ensures { words.new ≡ words_of j ++ drop word_count words.old }
{
    words[0] = LAYOUT;
    words[1] = j.blocks as u64;
    words[2] = j.ring as u64;
    words[3] = j.start as u64;
    words[4] = j.frozen.entries as u64;
    words[5] = j.frozen.bytes as u64;
    words[6] = j.memory.entries as u64;
    words[7] = j.memory.bytes as u64;
    words[8] = j.written as u64;
    words[9] = j.held as u64;
    words[10] = j.replay.place as u64;
    words[11] = j.replay.bytes as u64;
    words[12] = j.replay.entries as u64;
    words[13] = u64::from(j.front.is_some());
    words[14] = j.front.unwrap_or(0) as u64;
    words[15] = u64::from(j.back.is_some());
    words[16] = j.back.unwrap_or(0) as u64;
    words[17] = j.clones as u64;
    words[18] = j.last.entries as u64;
    words[19] = j.last.bytes as u64;
    words[20] = j.last.blocks as u64;
}

// A call's record to the words, and its number: 0, its refusal's, or 9 where there are too few. (Words that were
// decoded are never fewer.)
pub fn put(words: &mut [u64], answer: Result<Journalist, Refusal>) -> u64
    ensures value { result ≡ code_of (fitted_to words.old (outcome_of answer)) }
    ensures words_new { words.new
        ≡ words_after words.old (fitted_to words.old (outcome_of answer)) }
{
    match answer {
        Err(why) => why.into(),
        Ok(_) if words.len() < WORDS => Refusal::OutputTooShort.into(),
        Ok(j) => {
            store(words, j);
            0
        }
    }
}
