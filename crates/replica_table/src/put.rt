// Rows written into the second buffer, one run behind the other, and brought back to the table.
ghost use Rattle.std.specs.Prelude.{◌≡◌, ◌++◌, ◌+◌, ◌-◌, ◌≤◌, length, take, drop, replicate};
ghost use Rattle.words.specs.Words.{word};
ghost use Rattle.words.specs.Lists.{splice};
ghost use Rattle.journal_entry.specs.Entry.{journal_insert, wire};
ghost use Rattle.journal_entry.specs.Places.{part};
ghost use Rattle.table_rows.specs.Table.{padded};

// Writes src into dst from `at` on, and returns the place behind it.
#[tactic(auto, using(words::proofs::Splice::put_mid_splice))]
pub(crate) fn put_bytes(dst: &mut [u8], at: usize, src: &[u8]) -> usize
    requires { at + length src.now ≤ length dst.old }
    ensures value { result ≡ at + length src.now }
    ensures dst_new { dst.new ≡ splice dst.old at src.now }
{
    let end = at + src.len();
    dst[at..end].copy_from_slice(src);
    end
}

// Writes a length word and bytes behind it.
#[tactic(auto, using(crate::proofs::Putting::put_two, words::proofs::Words::length_word))]
pub(crate) fn put_sized(dst: &mut [u8], at: usize, n: usize, src: &[u8]) -> usize
    requires { (at + (4 + length src.now) ≤ length dst.old) × (n ≤ 16384) }
    ensures value { result ≡ at + (4 + length src.now) }
    ensures dst_new { dst.new ≡ splice dst.old at (word n ++ src.now) }
{
    let behind = put_bytes(dst, at, &words::bytes_of(n as u32));
    put_bytes(dst, behind, src)
}

// Writes a row's wire form.
#[tactic(auto, using(crate::proofs::Putting::put_form))]
pub(crate) fn put_row(dst: &mut [u8], at: usize, key: &[u8], value: &[u8]) -> usize
    requires { (at + (8 + length key.now + length value.now) ≤ length dst.old)
        × (length key.now ≤ 512) × (length value.now ≤ 16384) }
    ensures value { result ≡ at + (8 + length key.now + length value.now) }
    ensures dst_new { dst.new ≡ splice dst.old at (wire (journal_insert key.now value.now)) }
{
    let value_at = put_sized(dst, at, key.len(), key);
    put_sized(dst, value_at, value.len(), value)
}

// Zeros from a place to another, if any lie between.
fn put_zeros(dst: &mut [u8], from: usize, to: usize)
    requires { (from ≤ length dst.old) × (to ≤ length dst.old) }
    ensures { dst.new ≡ splice dst.old from (replicate (to - from) 0) }
{
    if from < to {
        words::zero_fill(&mut dst[from..to]);
    }
}

// Puts the rows of the table from `end` to `used` behind the first `at` bytes of the second buffer. These become the
// table, zeros behind them (as they were behind `used`), and the second buffer is cleared.
pub(crate) fn settle(table: &mut [u8], work: &mut [u8], end: usize, used: usize, at: usize)
    requires { (length work.old ≡ length table.old) × (end ≤ used) × (used ≤ length table.old)
        × (at + (used - end) ≤ length work.old)
        × (drop used table.old ≡ replicate (length table.old - used) 0) }
    ensures table_new { table.new ≡ padded (length table.old) (take at work.old ++ part table.old end used) }
    ensures work_new { work.new ≡ replicate (length work.old) 0 }
{
    let total = put_bytes(work, at, &table[end..used]);
    put_bytes(table, 0, &work[0..total]);
    put_zeros(table, total, used);
    words::zero_fill(work);
}
