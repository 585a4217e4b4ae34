// Why a call says no: the rows of document 01's table "When a call says no" and of document 02's papers, one case a
// row, with its number.
#![tactic(auto)]

ghost use Rattle.std.specs.Prelude.{◌≡◌};
ghost use Rattle.refusals.specs.Refusals.{number_of};
ghost use Rattle.refusals.specs.declared.ImageRefusal.TheVariants.{Plain};

#[derive(Clone, Copy, Debug, PartialEq, Eq)]
pub enum Refusal {
    // N or R out of range
    SizeOutOfRange = 1,
    // the record's counts, or a lent buffer, do not hang together
    CountsDisagree = 2,
    // first bytes too long
    FirstTooLong = 3,
    // second bytes too long
    SecondTooLong = 4,
    // no room in the region
    RegionFull = 5,
    // no room in the ring
    RingFull = 6,
    // pending entries forbid it
    EntriesPending = 7,
    // nothing there
    NothingThere = 8,
    // lent output too short
    OutputTooShort = 9,
    // written length too large
    LengthTooLarge = 10,
    // image not whole blocks (12 names a block: ImageRefusal)
    ImageNotWhole = 11,
    // payload not whole blocks, or more than N
    PayloadNotWhole = 13,
    // range or replay entry does not read
    Unreadable = 14,
    // the ring's pending bytes do not read as the counted entries
    RingUnreadable = 15,
    // interval or location not valid
    PlaceNotValid = 16,
    // no freeze is remembered
    NoFreeze = 17,
    // the card's slice is not as long as N says, or its block 0 is not of its form
    CardUnformed = 18,
    // no room on the card
    CardFull = 19,
    // a clone would make a key over 512 bytes
    KeyTooLong = 20,
    // the resulting rows are longer than the table
    TableFull = 21,
    // an insert without first bytes
    NoKey = 22,
}

// The number in the table.
impl From<Refusal> for u64 {
    ghost from_gives = { λ why n. n ≡ number_of why };

    fn from(why: Refusal) -> u64 {
        why as u64
    }
}

// Why a call that looks at checksums says no.
#[derive(Clone, Copy, Debug, PartialEq, Eq)]
pub enum ImageRefusal {
    // 12: the lowest block, counted from 0, whose checksum differs
    ChecksumDiffers(usize),
    // every other row
    Plain(Refusal),
}

impl From<Refusal> for ImageRefusal {
    ghost from_gives = { λ why other. other ≡ Plain why };

    fn from(why: Refusal) -> ImageRefusal {
        ImageRefusal::Plain(why)
    }
}
