// A store that is found first, and then made: what is to be written of a card needs no more of it than its length.
ghost use Rattle.std.specs.Prelude.{◌≡◌};
ghost use Rattle.card.specs.Answers.{Fits, card_with};

use crate::super_block::LiveInterval;
use journal_image::BLOCK;

#[derive(Clone, Copy)]
pub(crate) enum NextStore<'a> {
    // a block of an image, to a place of the card
    Block { at: usize, bytes: &'a [u8] },
    // the live interval, to block 0
    Interval(LiveInterval),
}

impl<'a> NextStore<'a> {
    #[tactic(auto, using(crate::proofs::StoreLaws::put_block))]
    pub(crate) fn make(&self, card: &mut [u8])
        requires { Fits self.now card.old }
        ensures { card.new ≡ card_with self.now card.old }
    {
        match *self {
            NextStore::Block { at, bytes } => {
                card[at..at + BLOCK].copy_from_slice(bytes);
            }
            NextStore::Interval(live) => live.rewrite(card),
        }
    }
}
