// What has passed row 1: a region. Its methods test row 16, each of its own argument.
ghost use Rattle.std.specs.Prelude.{◌≡◌, ◌&&◌, ◌≤◌, leb, IsTrue, IsFalse, MatchResult};
ghost use Rattle.refusals.specs.Answers.{outcome_of};
ghost use Rattle.refusals.specs.Outcome.{gives, require◌else◌then◌};
ghost use Rattle.refusals.specs.declared.Refusal.TheVariants.{SizeOutOfRange, PlaceNotValid};
ghost use Rattle.disk_layout.specs.DiskLayout.{blocks_in_range, journal_point, valid_journal_location};
ghost use Rattle.disk_layout.specs.DiskLayout.{journal_range_location};
ghost use Rattle.disk_layout.specs.JournalInterval.{valid_journal_interval, contiguous_journal_interval};
ghost use Rattle.disk_layout.specs.JournalInterval.{journal_interval_of_location};

use crate::placed::{Placed, TwoPlaced};
use crate::{JournalInterval, Location, blocks_in_range};
use refusals::Refusal;

// The bytes of a block, and the first of block 0.
const BLOCK: u64 = 4096;

const START: u64 = 2 * BLOCK;

// A region of 1 to 1,024 blocks.
#[derive(Clone, Copy)]
pub(crate) struct Region {
    pub(crate) blocks: u64,
    ghost in_range: { (1 ≤ blocks) × (blocks ≤ 1024) },
}

impl Region {
    // Row 1.
    pub(crate) fn of(n: u64) -> Result<Region, Refusal>
        ensures { MatchResult result
            (λ region. IsTrue (blocks_in_range n) × (region.blocks ≡ n))
            (λ why. IsFalse (blocks_in_range n) × (why ≡ SizeOutOfRange)) }
    {
        if !blocks_in_range(n) {
            return Err(Refusal::SizeOutOfRange);
        }
        Ok(Region { blocks: n })
    }

    // The byte at which a block starts, or the region's end.
    pub(crate) fn point(self, point: u64) -> Result<u64, Refusal>
        ensures { outcome_of result
            ≡ (require leb point self.blocks else 16 then gives (journal_point point)) }
    {
        if self.blocks < point {
            return Err(Refusal::PlaceNotValid);
        }
        Ok(START + point * BLOCK)
    }

    // Row 16 of one interval, and of two.
    #[tactic(auto, unfolding(crate::specs::JournalInterval::valid_journal_interval))]
    pub(crate) fn placed(self, indices: JournalInterval) -> Result<Placed, Refusal>
        ensures { MatchResult result
            (λ placed. IsTrue (valid_journal_interval self.blocks indices)
            × (placed.region ≡ self) × (placed.indices ≡ indices))
            (λ why. IsFalse (valid_journal_interval self.blocks indices) × (why ≡ PlaceNotValid)) }
    {
        if indices.start < self.blocks && indices.len <= self.blocks {
            Ok(Placed {
                region: self,
                indices,
            })
        } else {
            Err(Refusal::PlaceNotValid)
        }
    }

    pub(crate) fn both_placed(
        self,
        a: JournalInterval,
        b: JournalInterval,
    ) -> Result<TwoPlaced, Refusal>
        ensures { MatchResult result
            (λ two. IsTrue (valid_journal_interval self.blocks a && valid_journal_interval self.blocks b)
            × (two.a.region ≡ self) × (two.a.indices ≡ a) × (two.b.indices ≡ b))
            (λ why. IsFalse (valid_journal_interval self.blocks a && valid_journal_interval self.blocks b)
            × (why ≡ PlaceNotValid)) }
    {
        Ok(TwoPlaced {
            a: self.placed(a)?,
            b: self.placed(b)?,
        })
    }

    // Where the blocks of an interval that does not wrap lie.
    #[tactic(auto, unfolding(crate::specs::JournalInterval::contiguous_journal_interval))]
    pub(crate) fn location(self, indices: JournalInterval) -> Result<Location, Refusal>
        ensures { outcome_of result
            ≡ (require contiguous_journal_interval self.blocks indices else 16 then
            gives (journal_range_location indices.start indices.len)) }
    {
        if self.placed(indices)?.wraps() {
            return Err(Refusal::PlaceNotValid);
        }
        Ok(Location {
            addr: START + indices.start * BLOCK,
            len: indices.len * BLOCK,
        })
    }

    // Whether the location is whole blocks of the region. A sum of two 64-bit numbers may wrap, so the bytes left
    // behind the address are compared.
    #[tactic(auto, using(crate::proofs::Locations::location_tests))]
    fn contains(self, loc: Location) -> bool
        ensures { result ≡ valid_journal_location self.blocks loc }
    {
        let end = START + self.blocks * BLOCK;
        let is_whole = loc.addr % BLOCK == 0 && loc.len % BLOCK == 0;
        is_whole && START <= loc.addr && loc.addr < end && loc.len <= end - loc.addr
    }

    // The interval of a location's blocks.
    #[tactic(auto, using(crate::proofs::Locations::location_low))]
    pub(crate) fn interval(self, loc: Location) -> Result<JournalInterval, Refusal>
        ensures { outcome_of result
            ≡ (require valid_journal_location self.blocks loc else 16 then
            gives (journal_interval_of_location loc)) }
    {
        if !self.contains(loc) {
            return Err(Refusal::PlaceNotValid);
        }
        Ok(JournalInterval {
            start: (loc.addr - START) / BLOCK,
            len: loc.len / BLOCK,
        })
    }
}
