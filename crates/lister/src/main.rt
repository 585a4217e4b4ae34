// Reads an image on standard input and prints its entries, or why it cannot: document 01, the end of "Cases". Where
// the input cannot be read it prints `unread`.
#![tactic(auto)]

ghost use Rattle.std.specs.Prelude.{◌≡◌, ◌<◌, ◌≤◌, IfOk, length, take};
ghost use Rattle.std.specs.Io.KnownBytes.{Consumes, IsAtEnd};
ghost use Rattle.lister.specs.Lister.{image_number_of, listed_payload, listed_image};

use journal_entry::Joined;
use refusals::{ImageRefusal, Refusal};
use std::io;
use std::io::Read;

// The most bytes of an image: fifteen blocks.
const IMAGE: usize = 15 * 4096;

// Of its payload.
const PAYLOAD: usize = 15 * 4064;

// And of its text: a first line, and lines of at most twice their entries' wire forms.
const TEXT: usize = 2 * PAYLOAD + 32;

// A refusal's number. Which block is damaged is not printed.
fn number(why: ImageRefusal) -> u64
    ensures { result ≡ image_number_of why }
{
    match why {
        ImageRefusal::ChecksumDiffers(_) => 12,
        ImageRefusal::Plain(why) => why.into(),
    }
}

// The text of a payload's entries. The replay buffer takes their wire forms.
fn list_payload(payload: &[u8], replay: &mut [u8], text: &mut [u8]) -> Result<usize, Refusal>
    ensures { (result, text.new)
        ≡ listed_payload payload.now (length replay.old) text.old }
{
    let whole = Joined {
        front: payload,
        back: &[],
    };
    match journal_range::load(&whole, replay) {
        Ok(range) => listing::list_entries(&replay[0..range.bytes], range.entries, text),
        Err(Refusal::Unreadable) => listing::list_refusal(Refusal::Unreadable.into(), text),
        Err(short) => Err(short),
    }
}

// The text of an image. The payload buffer takes its payload.
#[tactic(auto, using(crate::proofs::Images::too_short))]
fn list_image(
    image: &[u8],
    payload: &mut [u8],
    replay: &mut [u8],
    text: &mut [u8],
) -> Result<usize, Refusal>
    ensures { (result, text.new)
        ≡ listed_image image.now (length payload.old) (length replay.old)
        text.old }
{
    if payload.len() < PAYLOAD || replay.len() < PAYLOAD || text.len() < TEXT {
        return Err(Refusal::OutputTooShort);
    }
    if IMAGE < image.len() {
        return listing::list_refusal(Refusal::PayloadNotWhole.into(), text);
    }
    match journal_image::strip(image, payload) {
        Ok(blocks) => list_payload(&payload[0..4064 * blocks], replay, text),
        Err(why) => listing::list_refusal(number(why), text),
    }
}

// Writes to standard output; where that does not take all, says so on standard error.
fn say(rt: &(impl Print + Eprint), text: &[u8]) -> io::Result<()> {
    if rt.write_all(text).is_err() {
        return eprintln!(rt; "lister: the output was not taken");
    }
    Ok(())
}

// Reads until the buffer is full or the input ends, and gives the number of bytes read: the input's next ones, at the
// buffer's front.
fn read_full<R: Read>(input: &mut R, buffer: &mut [u8]) -> io::Result<usize>
    ensures bound { IfOk result (λ n. n ≤ length buffer.new) }
    ensures bytes { IfOk result
        (λ n. Consumes (R.remaining input.old) (R.remaining input.new) (take n buffer.new)) }
    ensures end { IfOk result (λ n. n < length buffer.new → IsAtEnd (R.remaining input.new)) }
{
    let mut done = 0;
    while done < buffer.len() {
        let n = input.read(&mut buffer[done..])?;
        if n == 0 {
            return Ok(done);
        }
        done += n;
    }
    Ok(done)
}

// More than 61,440 bytes are refused, so nothing beyond 65,536 is read.
fn main(rt: HostRuntime) -> io::Result<()> {
    let mut image = [0u8; 65536];
    let Ok(n) = read_full(&mut rt.stdin(), &mut image) else {
        return say(&rt, b"unread\n");
    };
    let mut payload = [0u8; PAYLOAD];
    let mut replay = [0u8; PAYLOAD];
    let mut text = [0u8; TEXT];
    let Ok(end) = list_image(&image[..n], &mut payload, &mut replay, &mut text) else {
        return Ok(());
    };
    say(&rt, &text[..end])
}
