// The journal's replay, entry by entry, into the replica's table: through the promises of the journal's top and pop
// and of the table's step.
#![tactic(auto)]

ghost use Rattle.std.specs.Prelude.{◌≡◌};
ghost use Rattle.refusals.specs.Answers.{outcome_of};
ghost use Rattle.replica.specs.Replay.{replay_next_call, replay_next_table, replay_next_work};

use journalist::Journalist;
use refusals::Refusal;

// The record with the replay behind the entry, and the new number of rows.
#[derive(Clone, Copy, Debug, PartialEq, Eq)]
pub struct Replayed {
    pub journalist: Journalist,
    pub rows: usize,
}

// Steps the entry on top and moves the replay past it: both or neither.
#[inline(always)]
pub fn replay_next(
    j: Journalist,
    replay: &[u8],
    table: &mut [u8],
    count: usize,
    work: &mut [u8],
) -> Result<Replayed, Refusal>
    ensures value { outcome_of result ≡ replay_next_call j replay.now count table.old work.old }
    ensures table_new { table.new ≡ replay_next_table j replay.now count table.old work.old }
    ensures work_new { work.new ≡ replay_next_work j replay.now count table.old work.old }
{
    let journalist = j.replay_journal_pop(replay)?;
    let top = j.replay_journal_top(replay)?;
    let first = &replay[top.first_at..top.first_at + top.first_len];
    let second = &replay[top.second_at..top.second_at + top.second_len];
    let rows = replica_table::step(table, count, work, top.kind, first, second)?;
    Ok(Replayed { journalist, rows })
}
