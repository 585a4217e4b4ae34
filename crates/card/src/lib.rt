// The region on the unit's card: document 02, paper 3. A card is a lent slice of (2 + N) × 4096 bytes: block 0,
// which names the live interval, block 1, which is unused, and the journal's N blocks. A call first tests all it has
// to (a `FormedCard`, which has passed rows 1 and 18, tests the others), and then writes what it has found.
#![tactic(auto)]

mod formed_card;
mod next_store;
mod super_block;

ghost use Rattle.std.specs.Prelude.{◌≡◌};
ghost use Rattle.refusals.specs.Answers.{outcome_of, image_outcome_of};
ghost use Rattle.card.specs.Calls.{format_call, formatted, find_call, found_output, store_call, stored};
ghost use Rattle.card.specs.Calls.{release_call, released};
ghost use Rattle.card.specs.Answers.{ComesTo};

use crate::formed_card::{FormedCard, sized};
use crate::super_block::LiveInterval;
use refusals::{ImageRefusal, Refusal};

// Makes the live interval (0, 0).
#[tactic(auto, using(crate::proofs::CallLaws::format_bytes))]
pub fn format(n: u64, card: &mut [u8]) -> Result<(), Refusal>
    ensures result_value { outcome_of result ≡ format_call n card.old }
    ensures card_new { card.new ≡ formatted n card.old }
{
    sized(n, card)?;
    LiveInterval { start: 0, len: 0 }.rewrite(card);
    Ok(())
}

// What find comes to, with an output of so many bytes.
#[tactic(auto, using(crate::proofs::CallLaws::find_unformed))]
pub fn find_test(n: u64, card: &[u8], room: usize) -> Result<usize, ImageRefusal>
    ensures { ComesTo (find_call n card.now) room result }
{
    FormedCard::of(n, card)?.found(room)
}

// Hands out the live blocks' payload, in order, and tells how many blocks there are.
#[tactic(auto, using(crate::proofs::CallLaws::find_unformed, crate::proofs::CallLaws::find_given))]
pub fn find(n: u64, card: &[u8], out: &mut [u8]) -> Result<usize, ImageRefusal>
    ensures result_value { image_outcome_of result ≡ find_call n card.now out.old }
    ensures out_new { out.new ≡ found_output n card.now out.old }
{
    let formed = FormedCard::of(n, card)?;
    let blocks = formed.found(out.len())?;
    formed.copy_live(out);
    Ok(blocks)
}

// What store comes to.
#[tactic(auto, using(crate::proofs::CallLaws::store_unformed))]
pub fn store_test(n: u64, card: &[u8], image: &[u8], made: u64) -> Result<bool, ImageRefusal>
    ensures { image_outcome_of result ≡ store_call n card.now image.now made }
{
    let next = FormedCard::of(n, card)?.next_store(image, made)?;
    Ok(next.is_some())
}

// Makes the next store of an image, of which so many are made: k + 1 for k blocks. Tells whether one was left to make.
#[tactic(auto, using(crate::proofs::CallLaws::store_unformed, crate::proofs::StoreLaws::none_made))]
pub fn store(n: u64, card: &mut [u8], image: &[u8], made: u64) -> Result<bool, ImageRefusal>
    ensures result_value { image_outcome_of result ≡ store_call n card.old image.now made }
    ensures card_new { card.new ≡ stored n card.old image.now made }
{
    let Some(next) = FormedCard::of(n, card)?.next_store(image, made)? else {
        return Ok(false);
    };
    next.make(card);
    Ok(true)
}

// What release comes to.
#[tactic(auto, using(crate::proofs::CallLaws::release_unformed))]
pub fn release_test(n: u64, card: &[u8]) -> Result<usize, ImageRefusal>
    ensures { image_outcome_of result ≡ release_call n card.now }
{
    Ok(FormedCard::of(n, card)?.release()?.dropped)
}

// Drops the first batch from the live interval, and tells how many blocks it had.
#[tactic(auto, using(crate::proofs::CallLaws::release_unformed))]
pub fn release(n: u64, card: &mut [u8]) -> Result<usize, ImageRefusal>
    ensures result_value { image_outcome_of result ≡ release_call n card.old }
    ensures card_new { card.new ≡ released n card.old }
{
    let release = FormedCard::of(n, card)?.release()?;
    release.left.rewrite(card);
    Ok(release.dropped)
}
