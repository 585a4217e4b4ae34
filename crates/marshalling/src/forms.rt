// A batch that is not yet written: its header, and its list's wire forms where they lie, in the ring's two parts, lent
// as one.
ghost use Rattle.std.specs.Prelude.{◌+◌, ◌≤◌, length};

use journal_entry::Joined;

// The `len` bytes of the ring's parts, joined, from `at` on. The ring's end is that of its front.
#[derive(Clone, Copy)]
pub(crate) struct Forms<'a> {
    pub ring: Joined<'a>,
    pub at: usize,
    pub len: usize,
    ghost inside: { at + len ≤ length ring.front.now + length ring.back.now },
}

// The header's bytes, and behind them the list's.
#[derive(Clone, Copy)]
pub(crate) struct Batch<'a> {
    pub header: [u8; 8],
    pub forms: Forms<'a>,
}
