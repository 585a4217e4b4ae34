// Entries' wire forms written into the lent byte ring, in runs over plain slices.
#![tactic(auto)]

ghost use Rattle.std.specs.Prelude.{◌≡◌, ◌+◌, ◌<◌, ◌≤◌, length};
ghost use Rattle.words.specs.Words.{word};
ghost use Rattle.journal_entry.specs.Entry.{entry_of, wire};
ghost use Rattle.journal_entry.specs.Places.{is_clone_kind};
ghost use Rattle.journal_ring.specs.Ring.{advance, overwritten};
ghost use Rattle.journal_ring.specs.Put.{put_entry};

use journal_entry::Kind;

// Something that was to be written is not written: it is not all there, is past a limit, or has no room.
#[derive(Clone, Copy, Debug, PartialEq, Eq)]
pub struct NotTaken;

// The place n bytes on, of a place in the ring. (Neither sum nor difference wraps, whatever the size.)
#[tactic(auto, using(crate::proofs::Rotation::advance_near, crate::proofs::Rotation::advance_far))]
pub fn advance(size: usize, at: usize, n: usize) -> usize
    ensures value { at ≤ size → result ≡ advance size at n }
    ensures upper_bound { at < size → n ≤ size → result < size }
{
    let up_to_end = size.saturating_sub(at);
    if n < up_to_end {
        return at + n;
    }
    n - up_to_end
}

// Writes src into the ring from `at` on, in one run or two, and returns the place behind it. (The ring and the place
// are handed on apart: of a slice that is lent in a struct, a caller's proof gets only the length back.)
#[inline(always)]
fn put_bytes(ring: &mut [u8], at: usize, src: &[u8]) -> usize
    requires { (at < length ring.old) × (length src.now ≤ length ring.old) }
    ensures value { result ≡ advance (length ring.old) at (length src.now) }
    ensures ring_new { ring.new ≡ overwritten ring.old at src.now }
    ensures upper_bound { result < length ring.old }
{
    let n = src.len();
    let room = ring.len() - at;
    if n < room {
        let end = at + n;
        ring[at..end].copy_from_slice(src);
        return end;
    }
    ring[at..].copy_from_slice(&src[0..room]);
    let rest = n - room;
    ring[0..rest].copy_from_slice(&src[room..]);
    rest
}

// The same of a 32-bit word, lowest byte first.
#[tactic(auto, using(words::proofs::Words::length_word))]
fn put_word(ring: &mut [u8], at: usize, n: u32) -> usize
    requires { (at < length ring.old) × (4 ≤ length ring.old) }
    ensures value { result ≡ advance (length ring.old) at 4 }
    ensures ring_new { ring.new ≡ overwritten ring.old at (word n) }
    ensures upper_bound { result < length ring.old }
{
    put_bytes(ring, at, &words::bytes_of(n))
}

// Writes an entry's wire form into the ring from `at` on: four pieces, one straight behind the other.
#[inline(always)]
fn put_form(ring: &mut [u8], at: usize, kind: Kind, first: &[u8], second: &[u8])
    requires at_in_bounds { (at < length ring.old) × (8 + length first.now + length second.now ≤ length ring.old) }
    requires first_len_bound { (length first.now ≤ 512) × (length second.now ≤ 16384) }
    ensures { ring.new
        ≡ overwritten ring.old at
        (wire (entry_of (is_clone_kind kind) first.now second.now)) }
{
    let first_at = put_word(ring, at, first.len() as u32 + kind.mark());
    let second_word_at = put_bytes(ring, first_at, first);
    let second_at = put_word(ring, second_word_at, second.len() as u32);
    put_bytes(ring, second_at, second);
}

// Writes an entry's wire form behind the bytes pending from `start` on, if there is room. Nothing else of the ring
// is changed.
#[inline(always)]
#[tactic(auto, using(crate::proofs::Taken::put_not))]
pub fn put_entry(
    ring: &mut [u8],
    start: usize,
    pending: usize,
    kind: Kind,
    first: &[u8],
    second: &[u8],
) -> Result<(), NotTaken>
    ensures { (result, ring.new)
        ≡ put_entry ring.old start pending kind first.now second.now }
{
    let size = ring.len();
    if size <= start {
        return Err(NotTaken);
    }
    if size < pending {
        return Err(NotTaken);
    }
    if journal_entry::FIRST_LIMIT < first.len() {
        return Err(NotTaken);
    }
    if kind.second_limit() < second.len() {
        return Err(NotTaken);
    }
    if size - pending < 8 + first.len() + second.len() {
        return Err(NotTaken);
    }
    let at = advance(size, start, pending);
    put_form(ring, at, kind, first, second);
    Ok(())
}
