// A journal image read where it lies, in two lent slices, of whole blocks of 4,096 bytes, 32 of checksum and 4,064 of
// payload. (A cyclic run of blocks is at most two runs.) Nothing is copied: an image is the byte sequence of its
// payload, and those that read payload read it.
#![tactic(auto)]

ghost use Rattle.std.specs.Prelude.{◌≡◌, ◌+◌, ◌*◌, ◌/◌, ◌%◌, cond, ltb, length};
ghost use Rattle.journal_entry.specs.Sequence.{joined};
ghost use Rattle.image_range.specs.InPlace.{image_payload, lowest_of_two};

use journal_entry::{ByteSequence, Joined};
use journal_range::BlockSequence;

// Its blocks. Bytes behind the last whole one count for nothing.
#[derive(Clone, Copy)]
pub struct Image<'a>(pub Joined<'a>);

// An image that lies in one slice.
impl<'a> From<&'a [u8]> for Image<'a> {
    ghost from_gives = { λ blocks image. joined image.0 ≡ blocks.now };

    fn from(blocks: &'a [u8]) -> Image<'a> {
        Image(Joined {
            front: blocks,
            back: &[],
        })
    }
}

impl<'a> Image<'a> {
    // The lowest damaged block, counted from the start of the front; the back's blocks are counted on from the front's
    // whole ones.
    #[tactic(auto, using(crate::proofs::Damage::damage))]
    pub fn lowest_damaged(&self) -> Option<usize>
        ensures { result ≡ lowest_of_two self.now.0.front.now self.now.0.back.now }
    {
        if let Some(block) = journal_image::lowest_damaged(self.0.front) {
            return Some(block);
        }
        let block = journal_image::lowest_damaged(self.0.back)?;
        Some(self.0.front.len() / 4096 + block)
    }

    // Where the byte at i of the payload stands in the blocks, if it has one there.
    #[tactic(auto, using(crate::proofs::Places::places))]
    fn place(&self, i: usize) -> Option<usize>
        ensures { result ≡ cond (ltb i (length (image_payload (joined self.now.0))))
            (Some (4096 * (i / 4064) + 32 + i % 4064)) None }
    {
        let block = i / 4064;
        if block < self.0.len() / 4096 {
            Some(4096 * block + 32 + i % 4064)
        } else {
            None
        }
    }
}

impl<'a> ByteSequence for Image<'a> {
    ghost bytes = { λ image. image_payload (joined image.0) };

    #[tactic(auto, using(crate::proofs::Places::length_image_payload))]
    fn len(&self) -> usize {
        4064 * (self.0.len() / 4096)
    }

    #[tactic(auto, using(crate::proofs::Places::places))]
    fn byte_at(&self, i: usize) -> u8 {
        match self.place(i) {
            Some(at) => self.0.byte_at(at),
            None => 0,
        }
    }

    #[tactic(auto, using(crate::proofs::Places::places))]
    fn word_whole(&self, i: usize) -> Option<u32> {
        let at = self.place(i)?;
        // (behind that it ends in the next block)
        if i % 4064 <= 4060 {
            Some(self.0.word_at(at))
        } else {
            None
        }
    }
}

impl<'a> BlockSequence for Image<'a> {
    #[tactic(auto, using(crate::proofs::Ranges::part_behind))]
    fn from_block(&self, block: usize) -> Image<'a> {
        let block = block.min(self.0.len() / 4096);
        Image(journal_range::joined_from(&self.0, 4096 * block))
    }
}
