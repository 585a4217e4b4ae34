// The region on the unit's card for C and Rust. A word of answer goes to the first word of a lent slice, and the
// words behind stay; 9 where there is none, tested last: then nothing is stored or written.
ghost use Rattle.std.specs.Prelude.{◌≡◌, ◌^◌, ◌<◌};
ghost use Rattle.refusals.specs.Outcome.{into, bytes_after};
ghost use Rattle.card.specs.Calls.{format_call, formatted, found_output, stored, released};
ghost use Rattle.refusals.specs.Answers.{image_outcome_of};
ghost use Rattle.record_words.specs.Calls.{code_of};
ghost use Rattle.record_words.specs.AnswerWords.{output_after, answers_with, number_words, test_words};
ghost use Rattle.journal_c.specs.Cards.{block_named, card_find, card_store, card_release};

use crate::number;
use record_words::reply;

// Makes the live interval (0, 0): 1, 18.
#[unsafe(no_mangle)]
pub extern "C" fn journal_card_format(n: u64, card: &mut [u8]) -> u64
    ensures value { result ≡ code_of (format_call n card.old) }
    ensures card_new { card.new ≡ formatted n card.old }
{
    match card::format(n, card) {
        Ok(()) => 0,
        Err(why) => why.into(),
    }
}

// The live blocks' payload to out, and their number: 1, 18, 9, 12.
#[unsafe(no_mangle)]
pub extern "C" fn journal_card_find(n: u64, card: &[u8], out: &mut [u8], answer: &mut [u64]) -> u64
    ensures value { result
        ≡ code_of (card_find n card.now out.old answer.old) }
    ensures out_new { out.new
        ≡ bytes_after (card_find n card.now out.old answer.old)
        (found_output n card.now out.old) out.old }
    ensures answer_new { answer.new
        ≡ output_after answer.old
        (card_find n card.now out.old answer.old) }
{
    let told = if answer.len() < 1 {
        card::find_test(n, card, out.len())
    } else {
        card::find(n, card, out)
    };
    match told {
        Ok(blocks) => reply(answer, [blocks as u64]),
        Err(why) => number(why),
    }
}

// The next store of an image, of which so many are made, and whether there was one: 1, 18, 11, 12, 14, 19.
#[unsafe(no_mangle)]
pub extern "C" fn journal_card_store(
    n: u64,
    card: &mut [u8],
    image: &[u8],
    made: u64,
    answer: &mut [u64],
) -> u64
    ensures value { result
        ≡ code_of (card_store n card.old image.now made answer.old) }
    ensures card_new { card.new
        ≡ bytes_after (card_store n card.old image.now made answer.old)
        (stored n card.old image.now made) card.old }
    ensures answer_new { answer.new
        ≡ output_after answer.old
        (card_store n card.old image.now made answer.old) }
{
    let told = if answer.len() < 1 {
        card::store_test(n, card, image, made)
    } else {
        card::store(n, card, image, made)
    };
    match told {
        Ok(made) => reply(answer, [u64::from(made)]),
        Err(why) => number(why),
    }
}

// Drops the first batch from the live interval, and the blocks dropped: 1, 18, 8, 12, 14.
#[unsafe(no_mangle)]
pub extern "C" fn journal_card_release(n: u64, card: &mut [u8], answer: &mut [u64]) -> u64
    ensures value { result ≡ code_of (card_release n card.old answer.old) }
    ensures card_new { card.new
        ≡ bytes_after (card_release n card.old answer.old)
        (released n card.old) card.old }
    ensures answer_new { answer.new
        ≡ output_after answer.old (card_release n card.old answer.old) }
{
    let told = if answer.len() < 1 {
        card::release_test(n, card)
    } else {
        card::release(n, card)
    };
    match told {
        Ok(blocks) => reply(answer, [blocks as u64]),
        Err(why) => number(why),
    }
}
