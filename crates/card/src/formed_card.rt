// A card that has passed rows 1 and 18, its live blocks, where they lie as two runs of the card, and what each call
// on it comes to.
ghost use Rattle.std.specs.Prelude.{◌≡◌, true, cond, ◌+◌, ◌*◌, ◌%◌, ◌≤◌, ltb, length};
ghost use Rattle.std.specs.Prelude.{None, Err, IfOk, IfErr, IfSome, is_some};
ghost use Rattle.refusals.specs.Answers.{outcome_of, image_outcome_of};
ghost use Rattle.refusals.specs.Outcome.{gives, refuses, into};
ghost use Rattle.refusals.specs.Refusals.{number_of};
ghost use Rattle.disk_layout.specs.DiskLayout.{blocks_in_range};
ghost use Rattle.journal_entry.specs.Sequence.{joined};
ghost use Rattle.journal_image.specs.Image.{payloads_over, lowest_damaged};
ghost use Rattle.image_range.specs.InPlace.{image_payload, lowest_of_two};
ghost use Rattle.card.specs.Card.{card_sized, live_start, live_len, formed};
ghost use Rattle.card.specs.Card.{live_image, live_front, live_back, live_payload};
ghost use Rattle.card.specs.Calls.{rewritten, format_call, formed_call, find_call};
ghost use Rattle.card.specs.Calls.{image_blocks, store_call, with_block, stored};
ghost use Rattle.card.specs.Calls.{release_call, released};
ghost use Rattle.card.specs.Answers.{ComesTo, Fits, card_with};

use crate::next_store::NextStore;
use crate::super_block::LiveInterval;
use disk_layout::blocks_in_range;
use image_range::Image;
use journal_entry::{ByteSequence, Joined};
use journal_image::{BLOCK, PAYLOAD, copy_payloads};
use journal_range::range_in;
use journal_ring::advance;
use refusals::{ImageRefusal, Refusal};

// Row 1, and 18 as far as it is about the length.
#[tactic(auto, unfolding(crate::specs::Calls::format_call))]
pub(crate) fn sized(n: u64, card: &[u8]) -> Result<(), Refusal>
    ensures { outcome_of result ≡ format_call n card.now }
{
    if !blocks_in_range(n) {
        return Err(Refusal::SizeOutOfRange);
    }
    if card.len() != (2 + n as usize) * BLOCK {
        return Err(Refusal::CardUnformed);
    }
    Ok(())
}

// Whether block 0 is of its form.
#[tactic(auto, using(crate::proofs::CallLaws::formed_rows))]
fn is_formed(n: u64, card: &[u8]) -> bool
    requires { card_sized n card.now ≡ true }
    ensures { result ≡ formed n card.now }
{
    let live = LiveInterval::of(card);
    live.is_named_by(&card[0..BLOCK]) && live.is_valid(n)
}

// A card of n blocks.
#[derive(Clone, Copy)]
pub(crate) struct FormedCard<'a> {
    n: u64,
    bytes: &'a [u8],
    ghost few: { blocks_in_range n ≡ true },
    ghost is: { formed n bytes.now ≡ true },
}

// What a release drops, and what it leaves.
#[derive(Clone, Copy)]
pub(crate) struct Release {
    pub(crate) dropped: usize,
    pub(crate) left: LiveInterval,
}

impl<'a> FormedCard<'a> {
    #[tactic(auto, using(crate::proofs::CallLaws::opened))]
    pub(crate) fn of(n: u64, bytes: &'a [u8]) -> Result<FormedCard<'a>, Refusal>
        ensures card { IfOk result (λ card. (card.n ≡ n) × (card.bytes.now ≡ bytes.now)) }
        ensures why { IfErr result (λ why. refuses (number_of why) ≡ formed_call n bytes.now) }
    {
        sized(n, bytes)?;
        if !is_formed(n, bytes) {
            return Err(Refusal::CardUnformed);
        }
        Ok(FormedCard { n, bytes })
    }

    // The live blocks: those up to the region's end, and those from block 0 of the region on.
    fn live(&self) -> Image<'a>
        ensures front { result.0.front.now ≡ live_front self.now.bytes.now }
        ensures back { result.0.back.now ≡ live_back self.now.bytes.now }
        ensures lowest { lowest_of_two result.0.front.now result.0.back.now
            ≡ lowest_damaged (live_len self.now.bytes.now) (live_image self.now.bytes.now) }
        ensures payload { image_payload (joined result.0) ≡ live_payload self.now.bytes.now }
    {
        let LiveInterval { start, len } = LiveInterval::of(self.bytes);
        let at = 8192 + BLOCK * (start as usize);
        let size = BLOCK * (len as usize);
        let in_front = size.min(self.bytes.len() - at);
        let in_back = size - in_front;
        Image(Joined {
            front: &self.bytes[at..at + in_front],
            back: &self.bytes[8192..8192 + in_back],
        })
    }

    // Their payload, in order.
    pub(crate) fn copy_live(&self, out: &mut [u8])
        requires { 4064 * live_len self.now.bytes.now ≤ length out.old }
        ensures { out.new
            ≡ payloads_over (live_len self.now.bytes.now) (live_image self.now.bytes.now) out.old }
    {
        let Joined { front, back } = self.live().0;
        let at = PAYLOAD * (front.len() / BLOCK);
        copy_payloads(front, out);
        copy_payloads(back, &mut out[at..]);
    }

    // What find comes to, with an output of so many bytes.
    #[tactic(auto, using(crate::proofs::CallLaws::find_answers))]
    pub(crate) fn found(&self, room: usize) -> Result<usize, ImageRefusal>
        ensures { ComesTo (find_call self.now.n self.now.bytes.now) room result }
    {
        let blocks = LiveInterval::of(self.bytes).len as usize;
        if room < PAYLOAD * blocks {
            return Err(Refusal::OutputTooShort.into());
        }
        if let Some(block) = self.live().lowest_damaged() {
            return Err(ImageRefusal::ChecksumDiffers(block));
        }
        Ok(blocks)
    }

    // The store of an image behind the first so many: a block of it, or, behind the last, block 0.
    fn store_behind<'b>(&self, image: &'b [u8], made: usize) -> NextStore<'b>
        requires { (length image.now % 4096 ≡ 0)
            × (live_len self.now.bytes.now + image_blocks image.now ≤ self.now.n) }
        ensures fits { Fits result self.now.bytes.now }
        ensures value { card_with result self.now.bytes.now ≡
            cond (ltb made (image_blocks image.now))
            (with_block self.now.n self.now.bytes.now image.now made)
            (rewritten self.now.bytes.now (live_start self.now.bytes.now)
            (live_len self.now.bytes.now + image_blocks image.now)) }
    {
        let live = LiveInterval::of(self.bytes);
        let blocks = image.len() / BLOCK;
        if made < blocks {
            let behind = live.len as usize + made;
            let block = advance(self.n as usize, live.start as usize, behind);
            return NextStore::Block {
                at: 8192 + BLOCK * block,
                bytes: &image[BLOCK * made..BLOCK * made + BLOCK],
            };
        }
        NextStore::Interval(LiveInterval {
            start: live.start,
            len: live.len + blocks as u32,
        })
    }

    // The rows of store behind 12.
    fn store_rows<'b>(&self, image: &'b [u8], made: u64) -> Result<Option<NextStore<'b>>, Refusal>
        requires { (length image.now % 4096 ≡ 0)
            × (lowest_damaged (image_blocks image.now) image.now ≡ None) }
        ensures outcome { into is_some (outcome_of result) ≡ store_call self.now.n self.now.bytes.now image.now made }
        ensures next { IfOk result (λ next. IfSome next (λ store. Fits store self.now.bytes.now
            × (card_with store self.now.bytes.now ≡ stored self.now.n self.now.bytes.now image.now made))) }
    {
        if range_in(&Image::from(image)).is_none() {
            return Err(Refusal::Unreadable);
        }
        let blocks = image.len() / BLOCK;
        if blocks == 0 || (blocks as u64) < made {
            return Ok(None);
        }
        if self.n < LiveInterval::of(self.bytes).len as u64 + blocks as u64 {
            return Err(Refusal::CardFull);
        }
        Ok(Some(self.store_behind(image, made as usize)))
    }

    // The next store of an image, of which so many are made, if one is left.
    #[tactic(auto, using(crate::proofs::StoreLaws::image_rows))]
    pub(crate) fn next_store<'b>(
        &self,
        image: &'b [u8],
        made: u64,
    ) -> Result<Option<NextStore<'b>>, ImageRefusal>
        ensures outcome { into is_some (image_outcome_of result)
            ≡ store_call self.now.n self.now.bytes.now image.now made }
        ensures next { IfOk result (λ next. IfSome next (λ store. Fits store self.now.bytes.now
            × (card_with store self.now.bytes.now ≡ stored self.now.n self.now.bytes.now image.now made))) }
    {
        if image.len() % BLOCK != 0 {
            return Err(Refusal::ImageNotWhole.into());
        }
        if let Some(block) = journal_image::lowest_damaged(image) {
            return Err(ImageRefusal::ChecksumDiffers(block));
        }
        Ok(self.store_rows(image, made)?)
    }

    // The live interval less the first batch's blocks.
    #[tactic(auto, using(crate::proofs::ReleaseLaws::live_rows))]
    pub(crate) fn release(&self) -> Result<Release, ImageRefusal>
        ensures release { IfOk result (λ release.
            (gives release.dropped ≡ release_call self.now.n self.now.bytes.now)
            × (rewritten self.now.bytes.now release.left.start release.left.len
            ≡ released self.now.n self.now.bytes.now)) }
        ensures why { IfErr result (λ why.
            image_outcome_of (Err why) ≡ release_call self.now.n self.now.bytes.now) }
    {
        let LiveInterval { start, len } = LiveInterval::of(self.bytes);
        if len == 0 {
            return Err(Refusal::NothingThere.into());
        }
        let live = self.live();
        if let Some(block) = live.lowest_damaged() {
            return Err(ImageRefusal::ChecksumDiffers(block));
        }
        if range_in(&live).is_none() {
            return Err(Refusal::Unreadable.into());
        }
        // the first batch's blocks are its header's second word
        let dropped = live.word_at(4);
        let next = advance(self.n as usize, start as usize, dropped as usize);
        Ok(Release {
            dropped: dropped as usize,
            left: LiveInterval {
                start: next as u32,
                len: len - dropped,
            },
        })
    }
}
