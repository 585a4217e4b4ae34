// The centre's replica for C and Rust: an archive of its own, which links beside the journal's. The number of rows is
// the first word of a lent slice, changed where a call is accepted; no word there is 2. Each call gives 0 or its
// refusal's number, and a refusal changes nothing.
#![tactic(auto)]

ghost use Rattle.std.specs.Prelude.{◌≡◌};
ghost use Rattle.journal_entry.specs.Entry.{journal_insert, journal_clone, entry_of};
ghost use Rattle.journal_entry.specs.Places.{is_clone_kind};
ghost use Rattle.record_words.specs.Calls.{code_of};
ghost use Rattle.record_words.specs.AnswerWords.{output_after};
ghost use Rattle.replica_c.specs.Calls.{rows_after, step_in, step_table_in, step_work_in, lookup_in};

mod replay;

use journal_entry::Kind;
use record_words::reply;
use refusals::Refusal;

// The step of an entry on the rows that the word counts.
fn step_rows(
    rows: &mut [u64],
    table: &mut [u8],
    work: &mut [u8],
    kind: Kind,
    first: &[u8],
    second: &[u8],
) -> u64
    ensures value { result
        ≡ code_of (step_in rows.old table.old work.old (entry_of (is_clone_kind kind) first.now second.now)) }
    ensures rows_new { rows.new
        ≡ rows_after rows.old
        (step_in rows.old table.old work.old (entry_of (is_clone_kind kind) first.now second.now)) }
    ensures table_new { table.new
        ≡ step_table_in rows.old table.old work.old (entry_of (is_clone_kind kind) first.now second.now) }
    ensures work_new { work.new
        ≡ step_work_in rows.old table.old work.old (entry_of (is_clone_kind kind) first.now second.now) }
{
    if rows.len() < 1 {
        return Refusal::CountsDisagree.into();
    }
    match replica_table::step(table, rows[0] as usize, work, kind, first, second) {
        Ok(n) => {
            rows[0] = n as u64;
            0
        }
        Err(why) => why.into(),
    }
}

// Sets one key: 2, 3, 4, 21.
#[unsafe(no_mangle)]
pub extern "C" fn replica_insert(
    rows: &mut [u64],
    table: &mut [u8],
    work: &mut [u8],
    key: &[u8],
    value: &[u8],
) -> u64
    ensures value { result ≡ code_of (step_in rows.old table.old work.old (journal_insert key.now value.now)) }
    ensures rows_new { rows.new
        ≡ rows_after rows.old (step_in rows.old table.old work.old (journal_insert key.now value.now)) }
    ensures table_new { table.new ≡ step_table_in rows.old table.old work.old (journal_insert key.now value.now) }
    ensures work_new { work.new ≡ step_work_in rows.old table.old work.old (journal_insert key.now value.now) }
{
    step_rows(rows, table, work, Kind::Insert, key, value)
}

// Makes the keys under `to` what those under `from` were: 2, 3, 4, 20, 21.
#[unsafe(no_mangle)]
pub extern "C" fn replica_clone(
    rows: &mut [u64],
    table: &mut [u8],
    work: &mut [u8],
    from: &[u8],
    to: &[u8],
) -> u64
    ensures value { result ≡ code_of (step_in rows.old table.old work.old (journal_clone from.now to.now)) }
    ensures rows_new { rows.new
        ≡ rows_after rows.old (step_in rows.old table.old work.old (journal_clone from.now to.now)) }
    ensures table_new { table.new ≡ step_table_in rows.old table.old work.old (journal_clone from.now to.now) }
    ensures work_new { work.new ≡ step_work_in rows.old table.old work.old (journal_clone from.now to.now) }
{
    step_rows(rows, table, work, Kind::Clone, from, to)
}

// What a key has: the value's place in the table and its length, to the first two words of the answer: 2, 8, 9.
#[unsafe(no_mangle)]
pub extern "C" fn replica_lookup(rows: &[u64], table: &[u8], key: &[u8], answer: &mut [u64]) -> u64
    ensures value { result ≡ code_of (lookup_in rows.now table.now key.now answer.old) }
    ensures answer_new { answer.new ≡ output_after answer.old (lookup_in rows.now table.now key.now answer.old) }
{
    if rows.len() < 1 {
        return Refusal::CountsDisagree.into();
    }
    match replica_table::lookup(table, rows[0] as usize, key) {
        Ok(p) => reply(answer, [p.at as u64, p.len as u64]),
        Err(why) => why.into(),
    }
}
