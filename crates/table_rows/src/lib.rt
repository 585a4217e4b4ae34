// The rows of a table: whether a slice is one, and where the rows lie that a key or a prefix is about.
#![tactic(auto)]

mod rest;

ghost use Rattle.std.specs.Prelude.{◌≡◌, ◌+◌, ◌≤◌, length};
ghost use Rattle.journal_entry.specs.Places.{word_at};
ghost use Rattle.table_rows.specs.Rows.{meets};
ghost use Rattle.table_rows.specs.Places.{row_at, key_in, found_at, between, skip_where, passing, span_at};

use crate::rest::Rest;
use journal_entry::{EntryPlace, Kind};

// What a step is about: one key, or the keys that begin with a prefix.
#[derive(Clone, Copy, Debug, PartialEq, Eq)]
pub enum Reach {
    Only,
    Under,
}

// So many rows are left from a place on.
#[derive(Clone, Copy)]
pub(crate) struct RowsFrom {
    pub at: usize,
    pub left: usize,
}

// The rows that a step is about: where they begin and end, and how many they are.
#[derive(Clone, Copy, Debug, PartialEq, Eq)]
pub struct Span {
    pub at: usize,
    pub end: usize,
    pub rows: usize,
}

// The bytes that a table's rows take, and the rows among them that a step is about.
#[derive(Clone, Copy, Debug, PartialEq, Eq)]
pub struct Found {
    pub used: usize,
    pub span: Span,
}

// Which rows are passed: those before a key, or those that a step at it is about.
#[derive(Clone, Copy)]
enum Pass {
    Before,
    About(Reach),
}

impl Reach {
    // Whether a step at a key or prefix is about this key.
    #[inline(always)]
    fn meets(self, at: &[u8], key: &[u8]) -> bool
        ensures { result ≡ meets self at.now key.now }
    {
        match self {
            Reach::Only => key_map::is_same(at, key),
            Reach::Under => key_map::begins_with(at, key),
        }
    }
}

impl Pass {
    // Whether a row of this key is passed.
    #[inline(always)]
    fn takes(self, at: &[u8], key: &[u8]) -> bool
        ensures { result ≡ passing self at.now key.now }
    {
        match self {
            Pass::Before => key_map::is_before(key, at),
            Pass::About(reach) => reach.meets(at, key),
        }
    }
}

impl Span {
    // The rows of the first that are no more in the last.
    fn between(first: RowsFrom, last: RowsFrom) -> Span
        requires { last.left ≤ first.left }
        ensures { result ≡ between first last }
    {
        Span {
            at: first.at,
            end: last.at,
            rows: first.left - last.left,
        }
    }
}

// The word at i of a slice that holds it whole. (On bytes that lie side by side this is compiled to one load.)
#[inline(always)]
fn word_in(s: &[u8], i: usize) -> u32
    requires { i + 4 ≤ length s.now }
    ensures { result ≡ word_at s.now i }
{
    words::word_of(s[i], s[i + 1], s[i + 2], s[i + 3])
}

// The row at `at`: an insert that ends in the table. (What `journal_entry::entry_at` reads where it is an insert: a
// clone's first length word is over the limit, so that one test is for both.)
#[inline(always)]
pub fn row_at(table: &[u8], at: usize) -> Option<EntryPlace>
    ensures { result ≡ row_at table.now at }
{
    let room = table.len().checked_sub(8)?.checked_sub(at)?;
    let first_len = word_in(table, at) as usize;
    if journal_entry::FIRST_LIMIT < first_len {
        return None;
    }
    let rest = room.checked_sub(first_len)?;
    let second_len = word_in(table, at + 4 + first_len) as usize;
    if journal_entry::VALUE_LIMIT < second_len {
        return None;
    }
    if rest < second_len {
        return None;
    }
    Some(EntryPlace {
        kind: Kind::Insert,
        first_at: at + 4,
        first_len,
        second_at: at + 8 + first_len,
        second_len,
        next: at + 8 + first_len + second_len,
    })
}

// A row's key.
#[inline(always)]
fn key_of<'a>(table: &'a [u8], row: EntryPlace) -> &'a [u8]
    requires { row.first_at + row.first_len ≤ length table.now }
    ensures { result.now ≡ key_in table.now row }
{
    let end = row.first_at + row.first_len;
    &table[row.first_at..end]
}

// What is left behind the first rows that are passed.
#[inline(always)]
fn skip_rows(table: &[u8], rows: RowsFrom, pass: Pass, key: &[u8]) -> RowsFrom
    ensures { result ≡ skip_where (passing pass key.now) table.now rows.at rows.left }
{
    let mut rest = rows;
    while 0 < rest.left {
        let Some(row) = row_at(table, rest.at) else {
            return rest;
        };
        if !pass.takes(key, key_of(table, row)) {
            return rest;
        }
        rest = RowsFrom {
            at: row.next,
            left: rest.left - 1,
        };
    }
    rest
}

// Where the rows of a table lie that a step is about: rows that begin with a prefix stand together.
pub fn span_at(table: &[u8], count: usize, reach: Reach, key: &[u8]) -> Span
    ensures { result ≡ span_at reach key.now table.now count }
{
    let all = RowsFrom { at: 0, left: count };
    let first = skip_rows(table, all, Pass::Before, key);
    let last = skip_rows(table, first, Pass::About(reach), key);
    Span::between(first, last)
}

// The same of any slice, tested in one pass whether it is a table of so many rows.
pub fn find_in(table: &[u8], count: usize, reach: Reach, key: &[u8]) -> Option<Found>
    ensures { result ≡ found_at reach key.now table.now count }
{
    let all = RowsFrom { at: 0, left: count };
    let start = Rest {
        rows: all,
        prior: None,
    };
    let first = start.behind_passed(table, Pass::Before, key)?;
    let last = first.behind_passed(table, Pass::About(reach), key)?;
    let used = last.used(table)?;
    Some(Found {
        used,
        span: Span::between(first.rows, last.rows),
    })
}
