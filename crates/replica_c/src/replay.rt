// The journal's replay into the table, for C and Rust: the record lies in words of the caller, as the journal's own
// calls have it. The journal's numbers come first (2, also of damaged words, 8, 14), then the step's.
ghost use Rattle.std.specs.Prelude.{◌≡◌};
ghost use Rattle.refusals.specs.Answers.{outcome_of};
ghost use Rattle.record_words.specs.Calls.{code_of, words_after};
ghost use Rattle.replica_c.specs.Calls.{rows_after, replay_on, replay_table_on, replay_work_on};
ghost use Rattle.replica_c.specs.Calls.{replay_in, replay_table_in, replay_work_in, journal_of, count_of};

use journalist::Journalist;
use refusals::Refusal;

// The entry on top stepped into the rows that the word counts, and popped. (Without that word: pop's numbers, then 2.)
#[inline(always)]
fn replay_rows(
    j: Journalist,
    replay: &[u8],
    rows: &mut [u64],
    table: &mut [u8],
    work: &mut [u8],
) -> Result<Journalist, Refusal>
    ensures value { outcome_of result ≡ journal_of (replay_on j replay.now rows.old table.old work.old) }
    ensures rows_new { rows.new
        ≡ rows_after rows.old (count_of (replay_on j replay.now rows.old table.old work.old)) }
    ensures table_new { table.new ≡ replay_table_on j replay.now rows.old table.old work.old }
    ensures work_new { work.new ≡ replay_work_on j replay.now rows.old table.old work.old }
{
    if rows.len() < 1 {
        j.replay_journal_pop(replay)?;
        return Err(Refusal::CountsDisagree);
    }
    let next = replica::replay_next(j, replay, table, rows[0] as usize, work)?;
    rows[0] = next.rows as u64;
    Ok(next.journalist)
}

// Steps the replay's top entry into the table, and moves the replay past it; both or neither: 2, 8, 14, 2, 3, 4, 20,
// 21. (An entry that a replay hands out is within its limits, so 3 and 4 do not come.)
#[unsafe(no_mangle)]
#[tactic(auto, using(record_words::proofs::OnRecord::fits), unfolding(record_words::specs::Calls::on_record, record_words::specs::Calls::lent_after))]
pub extern "C" fn replica_replay(
    words: &mut [u64],
    replay: &[u8],
    rows: &mut [u64],
    table: &mut [u8],
    work: &mut [u8],
) -> u64
    ensures value { result ≡ code_of (replay_in words.old replay.now rows.old table.old work.old) }
    ensures words_new { words.new
        ≡ words_after words.old (journal_of (replay_in words.old replay.now rows.old table.old work.old)) }
    ensures rows_new { rows.new
        ≡ rows_after rows.old (count_of (replay_in words.old replay.now rows.old table.old work.old)) }
    ensures table_new { table.new ≡ replay_table_in words.old replay.now rows.old table.old work.old }
    ensures work_new { work.new ≡ replay_work_in words.old replay.now rows.old table.old work.old }
{
    match record_words::decode(words) {
        Err(why) => why.into(),
        Ok(j) => record_words::put(words, replay_rows(j, replay, rows, table, work)),
    }
}
