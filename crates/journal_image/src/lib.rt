// From an image back to payload: document 01, "Back to entries" (strip).
// An image is whole blocks of 4,096 bytes: 32 of checksum, then 4,064 of payload. The clauses say these numbers, as
// document 01 does, and the code their names.
#![tactic(auto)]

ghost use Rattle.std.specs.Prelude.{◌≡◌, ◌/◌, min, length};
ghost use Rattle.journal_image.specs.Image.{checksum_checks_out, payloads_over, lowest_damaged};
ghost use Rattle.journal_image.specs.Strip.{strip_call, stripped_output};
ghost use Rattle.refusals.specs.Answers.{image_outcome_of};

use refusals::{ImageRefusal, Refusal};

// A block's bytes.
pub const BLOCK: usize = 4096;

// Those of its checksum, in front.
pub const CHECKSUM: usize = 32;

// Those of its payload, behind the checksum.
pub const PAYLOAD: usize = 4064;

// Whether a block's first 32 bytes are the checksum of its others. Bytes with no room for a checksum do not agree.
pub fn block_agrees(block: &[u8]) -> bool
    ensures { result ≡ checksum_checks_out block.now }
{
    match block.split_first_chunk::<CHECKSUM>() {
        Some((sum, payload)) => *sum == crc32c::checksum(payload),
        None => false,
    }
}

// The lowest damaged one, counted from 0, of an image's whole blocks, if there is one. Bytes behind the last whole
// block are not looked at.
pub fn lowest_damaged(image: &[u8]) -> Option<usize>
    ensures { result ≡ lowest_damaged (length image.now / 4096) image.now }
{
    image
        .chunks_exact(BLOCK)
        .position(|block| !block_agrees(block))
}

// Writes the payloads of an image's whole blocks, of as many as there is room for, each as one run.
pub fn copy_payloads(image: &[u8], out: &mut [u8])
    ensures { out.new
        ≡ payloads_over (min (length image.now / 4096) (length out.old / 4064))
        image.now out.old }
{
    let blocks = (image.len() / BLOCK).min(out.len() / PAYLOAD);
    // By index: of what is written through `chunks_exact_mut` a proof knows only the length.
    for k in 0..blocks {
        let block = &image[BLOCK * k..BLOCK * (k + 1)];
        out[PAYLOAD * k..PAYLOAD * (k + 1)].copy_from_slice(&block[CHECKSUM..]);
    }
}

// Turns an image into payload, and tells how many blocks it wrote. Nothing is written before every checksum has
// agreed.
#[tactic(auto, using(crate::proofs::Outcomes::strip_rows), unfolding(crate::specs::Strip::stripped_output))]
pub fn strip(image: &[u8], out: &mut [u8]) -> Result<usize, ImageRefusal>
    ensures result_value { image_outcome_of result ≡ strip_call image.now out.old }
    ensures out_new { out.new ≡ stripped_output image.now out.old }
{
    if image.len() % BLOCK != 0 {
        return Err(Refusal::ImageNotWhole.into());
    }
    let blocks = image.len() / BLOCK;
    if out.len() < PAYLOAD * blocks {
        return Err(Refusal::OutputTooShort.into());
    }
    if let Some(block) = lowest_damaged(image) {
        return Err(ImageRefusal::ChecksumDiffers(block));
    }
    copy_payloads(image, out);
    Ok(blocks)
}
