// The centre's table from keys to values, in lent memory: what a key has, and the step of an entry.
#![tactic(auto)]

mod moved;
mod put;

ghost use Rattle.std.specs.Prelude.{◌≡◌, ◌+◌, ◌*◌, ◌≤◌, leb, length, None, MatchResult};
ghost use Rattle.refusals.specs.Answers.{outcome_of};
ghost use Rattle.refusals.specs.declared.Refusal.TheVariants.{CountsDisagree};
ghost use Rattle.journal_entry.specs.Entry.{journal_insert, journal_clone, entry_of};
ghost use Rattle.journal_entry.specs.Places.{is_clone_kind};
ghost use Rattle.table_rows.specs.Rows.{reach_of, target};
ghost use Rattle.table_rows.specs.declared.Reach.TheVariants.{Only, Under};
ghost use Rattle.table_rows.specs.Table.{table_rows};
ghost use Rattle.table_rows.specs.Places.{FoundIn};
ghost use Rattle.replica_table.specs.Calls.{lookup_call, step_call, step_table, step_work};

use crate::moved::Moved;
use crate::put::{put_bytes, put_row, settle};
use journal_entry::Kind;
use refusals::Refusal;
use table_rows::{Found, Reach};

// Where a value lies in the table.
#[derive(Clone, Copy, Debug, PartialEq, Eq)]
pub struct ValuePlace {
    pub at: usize,
    pub len: usize,
}

// The first test of each call, 2: of a slice that is a table, where the rows lie that a key or prefix is about.
fn find_rows(table: &[u8], count: usize, reach: Reach, key: &[u8]) -> Result<Found, Refusal>
    ensures { MatchResult result
        (FoundIn count table.now reach key.now)
        (λ why. (table_rows count table.now ≡ None) × (why ≡ CountsDisagree)) }
{
    let Some(found) = table_rows::find_in(table, count, reach, key) else {
        return Err(Refusal::CountsDisagree);
    };
    Ok(found)
}

// What a key has: where its value lies in the table.
pub fn lookup(table: &[u8], count: usize, key: &[u8]) -> Result<ValuePlace, Refusal>
    ensures { outcome_of result ≡ lookup_call count table.now key.now }
{
    let span = find_rows(table, count, Reach::Only, key)?.span;
    if span.rows == 0 {
        return Err(Refusal::NothingThere);
    }
    let at = span.at + 8 + key.len();
    Ok(ValuePlace {
        at,
        len: span.end - at,
    })
}

// Whether `stay` bytes and `rows` times `len` more are at most `room`. (The product is not made, since it may wrap.)
fn room_for(stay: usize, rows: usize, len: usize, room: usize) -> bool
    ensures { result ≡ leb (stay + rows * len) room }
{
    if room < stay {
        return false;
    }
    if len == 0 {
        return true;
    }
    rows <= (room - stay) / len
}

// The step of an insert, behind the tests of its lengths: the rows before its key, its row, the rows behind.
fn insert_within(
    table: &mut [u8],
    count: usize,
    found: Found,
    work: &mut [u8],
    key: &[u8],
    value: &[u8],
) -> Result<usize, Refusal>
    requires found { FoundIn count table.old Only key.now found }
    requires long { length work.old ≡ length table.old }
    requires first_fits { length key.now ≤ 512 }
    requires second_fits { length value.now ≤ 16384 }
    ensures value { outcome_of result ≡ step_call count table.old work.old (journal_insert key.now value.now) }
    ensures table_new { table.new ≡ step_table count table.old work.old (journal_insert key.now value.now) }
    ensures work_new { work.new ≡ step_work count table.old work.old (journal_insert key.now value.now) }
{
    let span = found.span;
    let kept = found.used - (span.end - span.at);
    if table.len() - kept < 8 + key.len() + value.len() {
        return Err(Refusal::TableFull);
    }
    let row_at = put_bytes(work, 0, &table[0..span.at]);
    let behind = put_row(work, row_at, key, value);
    settle(table, work, span.end, found.used, behind);
    Ok(count - span.rows + 1)
}

// The same of a clone: the rows under `to` become what those under `from` were.
fn clone_within(
    table: &mut [u8],
    count: usize,
    found: Found,
    work: &mut [u8],
    from: &[u8],
    to: &[u8],
) -> Result<usize, Refusal>
    requires found { FoundIn count table.old Under to.now found }
    requires long { length work.old ≡ length table.old }
    requires first_fits { length from.now ≤ 512 }
    requires second_fits { length to.now ≤ 512 }
    ensures value { outcome_of result ≡ step_call count table.old work.old (journal_clone from.now to.now) }
    ensures table_new { table.new ≡ step_table count table.old work.old (journal_clone from.now to.now) }
    ensures work_new { work.new ≡ step_work count table.old work.old (journal_clone from.now to.now) }
{
    let span = found.span;
    let source = table_rows::span_at(table, count, Reach::Under, from);
    let moved = Moved {
        at: source.at,
        rows: source.rows,
        from_len: from.len(),
    };
    if !moved.fits(table, journal_entry::FIRST_LIMIT - to.len()) {
        return Err(Refusal::KeyTooLong);
    }
    let kept = found.used - (span.end - span.at);
    let stay = source.end - source.at - source.rows * from.len();
    if !room_for(stay, source.rows, to.len(), table.len() - kept) {
        return Err(Refusal::TableFull);
    }
    let moved_at = put_bytes(work, 0, &table[0..span.at]);
    let behind = moved.put(table, to, work, moved_at);
    settle(table, work, span.end, found.used, behind);
    Ok(count - span.rows + source.rows)
}

// `find_rows` for an entry: an insert's key, or the keys under a clone's `to`.
fn find_about(
    table: &[u8],
    count: usize,
    kind: Kind,
    first: &[u8],
    second: &[u8],
) -> Result<Found, Refusal>
    ensures { MatchResult result
        (FoundIn count table.now (reach_of (entry_of (is_clone_kind kind) first.now second.now))
        (target (entry_of (is_clone_kind kind) first.now second.now)))
        (λ why. (table_rows count table.now ≡ None) × (why ≡ CountsDisagree)) }
{
    match kind {
        Kind::Insert => find_rows(table, count, Reach::Only, first),
        Kind::Clone => find_rows(table, count, Reach::Under, second),
    }
}

// The step of an entry: an insert sets one key, a clone makes the keys under `to` what those under `from` were.
// Answers the new number of rows. Refused, neither buffer is changed.
pub fn step(
    table: &mut [u8],
    count: usize,
    work: &mut [u8],
    kind: Kind,
    first: &[u8],
    second: &[u8],
) -> Result<usize, Refusal>
    ensures value { outcome_of result
        ≡ step_call count table.old work.old (entry_of (is_clone_kind kind) first.now second.now) }
    ensures table_new { table.new
        ≡ step_table count table.old work.old (entry_of (is_clone_kind kind) first.now second.now) }
    ensures work_new { work.new
        ≡ step_work count table.old work.old (entry_of (is_clone_kind kind) first.now second.now) }
{
    let found = find_about(table, count, kind, first, second)?;
    if work.len() != table.len() {
        return Err(Refusal::CountsDisagree);
    }
    if journal_entry::FIRST_LIMIT < first.len() {
        return Err(Refusal::FirstTooLong);
    }
    if kind.second_limit() < second.len() {
        return Err(Refusal::SecondTooLong);
    }
    match kind {
        Kind::Insert => insert_within(table, count, found, work, first, second),
        Kind::Clone => clone_within(table, count, found, work, first, second),
    }
}
