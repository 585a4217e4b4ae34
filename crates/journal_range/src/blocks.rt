// Payload that is read from a block on. Nothing is copied: what is read next is what lies behind.
ghost use Rattle.std.specs.Prelude.{◌≡◌, ◌*◌, ◌≤◌, length, take, drop};
ghost use Rattle.journal_entry.specs.Sequence.{joined};

use journal_entry::{ByteSequence, Joined};

pub trait BlockSequence: ByteSequence + Copy {
    // What lies behind so many blocks of 4,064 bytes; nothing where it has no more.
    fn from_block(&self, block: usize) -> Self
        ensures { Self.bytes result ≡ drop (4064 * block) (Self.bytes self.now) };
}

impl<'a> BlockSequence for &'a [u8] {
    fn from_block(&self, block: usize) -> &'a [u8] {
        let s = *self;
        &s[block.saturating_mul(4064).min(s.len())..]
    }
}

// What lies behind the first `at` bytes; nothing where there are no more.
#[tactic(auto, using(crate::proofs::Parts::rest_parts))]
pub fn joined_from<'a>(s: &Joined<'a>, at: usize) -> Joined<'a>
    ensures { joined result ≡ drop at (joined s.now) }
{
    let in_front = at.min(s.front.len());
    let in_back = (at - in_front).min(s.back.len());
    Joined {
        front: &s.front[in_front..],
        back: &s.back[in_back..],
    }
}

impl<'a> BlockSequence for Joined<'a> {
    fn from_block(&self, block: usize) -> Joined<'a> {
        joined_from(self, block.saturating_mul(4064))
    }
}

// Its first bytes, as many as dst has: two runs at most.
pub(crate) fn copy_front(s: &Joined, dst: &mut [u8])
    requires { length dst.old ≤ length (joined s.now) }
    ensures { dst.new ≡ take (length dst.old) (joined s.now) }
{
    let in_front = s.front.len().min(dst.len());
    let (front, back) = dst.split_at_mut(in_front);
    front.copy_from_slice(&s.front[..in_front]);
    back.copy_from_slice(&s.back[..back.len()]);
}
