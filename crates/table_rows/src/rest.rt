// What is left of a table to be tested, row by row.
ghost use Rattle.std.specs.Prelude.{◌≡◌, ◌<◌, MatchOption, None};
ghost use Rattle.table_rows.specs.Places.{passing};
ghost use Rattle.table_rows.specs.Rest.{Lies, next_row, rest_behind, taken, PassedTo};

use crate::{Pass, RowsFrom, key_of, row_at};
use journal_entry::EntryPlace;

// Rows that are still to be tested, and the row before them. (The first has none before it.)
#[derive(Clone, Copy)]
pub(crate) struct Rest {
    pub rows: RowsFrom,
    pub prior: Option<EntryPlace>,
}

impl Rest {
    // The row in front, if there is one whose key stands behind the key before it.
    #[inline(always)]
    fn row(self, table: &[u8]) -> Option<EntryPlace>
        requires { Lies table.now self }
        ensures { result ≡ next_row table.now self }
    {
        let row = row_at(table, self.rows.at)?;
        if let Some(prior) = self.prior {
            if !key_map::is_before(key_of(table, prior), key_of(table, row)) {
                return None;
            }
        }
        Some(row)
    }

    // What is left behind that row.
    #[inline(always)]
    fn behind(self, row: EntryPlace) -> Rest
        requires { 0 < self.rows.left }
        ensures { result ≡ rest_behind self row }
    {
        Rest {
            rows: RowsFrom {
                at: row.next,
                left: self.rows.left - 1,
            },
            prior: Some(row),
        }
    }

    // What is left behind the first rows that are passed; none, where one of them, or the row in front then, is no row
    // of a table.
    #[inline(always)]
    pub(crate) fn behind_passed(self, table: &[u8], pass: Pass, key: &[u8]) -> Option<Rest>
        requires { Lies table.now self }
        ensures { MatchOption result
            (None ≡ taken table.now self)
            (PassedTo table.now (passing pass key.now) self) }
    {
        let mut rest = self;
        while 0 < rest.rows.left {
            let row = rest.row(table)?;
            if !pass.takes(key, key_of(table, row)) {
                return Some(rest);
            }
            rest = rest.behind(row);
        }
        Some(rest)
    }

    // The bytes that all rows of the table take, where what is left is a table's rest.
    #[inline(always)]
    pub(crate) fn used(self, table: &[u8]) -> Option<usize>
        requires { Lies table.now self }
        ensures { result ≡ taken table.now self }
    {
        let mut rest = self;
        while 0 < rest.rows.left {
            let row = rest.row(table)?;
            rest = rest.behind(row);
        }
        if !words::all_zero(&table[rest.rows.at..]) {
            return None;
        }
        Some(rest.rows.at)
    }
}
