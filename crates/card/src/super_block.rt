// Block 0 of a card, which names the live interval, written and tested in place.
ghost use Rattle.std.specs.Prelude.{◌≡◌, ◌≤◌, length};
ghost use Rattle.disk_layout.specs.JournalInterval.{interval, valid_journal_interval};
ghost use Rattle.journal_image.specs.Image.{same_bytes};
ghost use Rattle.card.specs.Superblock.{super_fields, superblock};
ghost use Rattle.card.specs.Card.{live_start, live_len};
ghost use Rattle.card.specs.Calls.{rewritten};

use journal_entry::ByteSequence;
use journal_image::{BLOCK, CHECKSUM};

// The live interval, as block 0 says it.
#[derive(Clone, Copy)]
pub(crate) struct LiveInterval {
    pub(crate) start: u32,
    pub(crate) len: u32,
}

impl LiveInterval {
    // The numbers that a card's block 0 has at their places.
    #[tactic(auto, unfolding(crate::specs::Card::live_start, crate::specs::Card::live_len))]
    pub(crate) fn of(card: &[u8]) -> LiveInterval
        ensures start { result.start ≡ live_start card.now }
        ensures len { result.len ≡ live_len card.now }
    {
        LiveInterval {
            start: card.word_at(38),
            len: card.word_at(42),
        }
    }

    // What the block's payload begins with: a length of 10, a kind of 1, and the interval.
    #[tactic(auto, unfolding(crate::specs::Superblock::super_fields, words::specs::Words::word))]
    fn fields(self) -> [u8; 14]
        ensures { result ≡ super_fields self.start self.len }
    {
        let [s0, s1, s2, s3] = words::bytes_of(self.start);
        let [l0, l1, l2, l3] = words::bytes_of(self.len);
        [10, 0, 0, 0, 1, 0, s0, s1, s2, s3, l0, l1, l2, l3]
    }

    // Writes the block that names it.
    fn write(self, block: &mut [u8])
        requires { length block.old ≡ 4096 }
        ensures { block.new ≡ superblock self.start self.len }
    {
        let fields = self.fields();
        block[CHECKSUM..46].copy_from_slice(&fields);
        words::zero_fill(&mut block[46..BLOCK]);
        let sum = crc32c::checksum(&block[CHECKSUM..BLOCK]);
        block[0..CHECKSUM].copy_from_slice(&sum);
    }

    // Stores block 0, and nothing else.
    #[tactic(auto, using(crate::proofs::CallLaws::rewritten_back))]
    pub(crate) fn rewrite(self, card: &mut [u8])
        requires { 4096 ≤ length card.old }
        ensures { card.new ≡ rewritten card.old self.start self.len }
    {
        self.write(&mut card[0..BLOCK]);
    }

    // Whether a block is the one that names it.
    pub(crate) fn is_named_by(self, block: &[u8]) -> bool
        requires { length block.now ≡ 4096 }
        ensures { result ≡ same_bytes block.now (superblock self.start self.len) }
    {
        let fields = self.fields();
        block[CHECKSUM..46] == fields[..]
            && words::all_zero(&block[46..BLOCK])
            && journal_image::block_agrees(block)
    }

    // Whether it is one of a journal of n blocks.
    #[tactic(auto, unfolding(disk_layout::specs::JournalInterval::valid_journal_interval))]
    pub(crate) fn is_valid(self, n: u64) -> bool
        ensures { result ≡ valid_journal_interval n (interval self.start self.len) }
    {
        (self.start as u64) < n && self.len as u64 <= n
    }
}
