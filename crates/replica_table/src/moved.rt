// The rows that a clone makes: those under `from`, each with its first bytes replaced by `to`.
ghost use Rattle.std.specs.Prelude.{◌≡◌, true, ◌++◌, ◌+◌, ◌-◌, ◌≤◌, length};
ghost use Rattle.words.specs.Words.{word};
ghost use Rattle.words.specs.Lists.{splice};
ghost use Rattle.replica_table.specs.Moves.{moves_fit, moved_forms};

use crate::put::{put_bytes, put_sized};

// So many rows of the table from a place on, which lose so many first bytes of their keys.
#[derive(Clone, Copy)]
pub(crate) struct Moved {
    pub at: usize,
    pub rows: usize,
    pub from_len: usize,
}

// Writes a moved row's wire form: the new length word, `to`, and the row's bytes behind those replaced.
fn put_moved(dst: &mut [u8], at: usize, more: usize, to: &[u8], rest: &[u8]) -> usize
    requires { (at + (4 + length to.now + length rest.now) ≤ length dst.old)
        × (length to.now + more ≤ 512) }
    ensures value { result ≡ at + (4 + length to.now + length rest.now) }
    ensures dst_new { dst.new ≡ splice dst.old at (word (length to.now + more) ++ (to.now ++ rest.now)) }
{
    let behind = put_sized(dst, at, to.len() + more, to);
    put_bytes(dst, behind, rest)
}

impl Moved {
    // Whether each row has as many key bytes as it is to lose, and at most `room` behind these.
    pub(crate) fn fits(self, table: &[u8], room: usize) -> bool
        ensures { result ≡ moves_fit table.now self.at self.rows self.from_len room }
    {
        let mut here = self.at;
        for _ in 0..self.rows {
            let Some(row) = table_rows::row_at(table, here) else {
                return false;
            };
            let n = row.first_len;
            if n < self.from_len {
                return false;
            }
            if room < n - self.from_len {
                return false;
            }
            here = row.next;
        }
        true
    }

    // Writes the rows that fit, and returns the place behind them.
    pub(crate) fn put(self, table: &[u8], to: &[u8], work: &mut [u8], at: usize) -> usize
        requires { (length to.now ≤ 512)
            × (moves_fit table.now self.at self.rows self.from_len (512 - length to.now) ≡ true)
            × (at + length (moved_forms table.now self.at self.rows self.from_len to.now) ≤ length work.old) }
        ensures value { result ≡ at + length (moved_forms table.now self.at self.rows self.from_len to.now) }
        ensures work_new { work.new
            ≡ splice work.old at (moved_forms table.now self.at self.rows self.from_len to.now) }
    {
        let mut here = self.at;
        let mut place = at;
        for _ in 0..self.rows {
            let Some(row) = table_rows::row_at(table, here) else {
                return place;
            };
            let rest_at = row.first_at + self.from_len;
            let more = row.first_len - self.from_len;
            place = put_moved(work, place, more, to, &table[rest_at..row.next]);
            here = row.next;
        }
        place
    }
}
