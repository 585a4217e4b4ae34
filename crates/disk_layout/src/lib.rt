// Places in the region: intervals of the journal's blocks, which wrap at the region's end, and their bytes' addresses.
// Every argument may be any 64-bit number. A call first tests N (refusal 1), then the interval or the location
// (refusal 16).
#![tactic(auto)]

mod placed;
mod region;

ghost use Rattle.std.specs.Prelude.{◌≡◌};
ghost use Rattle.refusals.specs.Answers.{outcome_of};
ghost use Rattle.disk_layout.specs.DiskLayout.{blocks_in_range};
ghost use Rattle.disk_layout.specs.Calls.{point_call, front_call, back_call, next_start_call, subinterval_call};
ghost use Rattle.disk_layout.specs.Calls.{overlap_call, shares_block_call, location_call, interval_call};

use crate::region::Region;
use refusals::Refusal;
use std::fmt;

// So many blocks from a block on; behind block N - 1 comes block 0.
#[derive(Clone, Copy, Debug, PartialEq, Eq)]
pub struct JournalInterval {
    pub start: u64,
    pub len: u64,
}

impl fmt::Display for JournalInterval {
    fn fmt<W: fmt::Write>(&self, f: &mut fmt::Formatter<W>) -> fmt::Result {
        write!(f, "({}, {})", self.start, self.len)
    }
}

// So many bytes from an address on.
#[derive(Clone, Copy, Debug, PartialEq, Eq)]
pub struct Location {
    pub addr: u64,
    pub len: u64,
}

impl fmt::Display for Location {
    fn fmt<W: fmt::Write>(&self, f: &mut fmt::Formatter<W>) -> fmt::Result {
        write!(f, "({}, {})", self.addr, self.len)
    }
}

// Whether N is 1 to 1,024.
pub fn blocks_in_range(n: u64) -> bool
    ensures { result ≡ blocks_in_range n }
{
    1 <= n && n <= 1024
}

// The byte at which a block starts. Point N is the region's end.
#[tactic(auto, unfolding(crate::specs::Calls::point_call))]
pub fn journal_point(n: u64, point: u64) -> Result<u64, Refusal>
    ensures { outcome_of result ≡ point_call n point }
{
    Region::of(n)?.point(point)
}

// The part up to the region's end, if it has any blocks.
#[tactic(auto, unfolding(crate::specs::Calls::front_call))]
pub fn journal_front_interval(
    n: u64,
    start: u64,
    len: u64,
) -> Result<Option<JournalInterval>, Refusal>
    ensures { outcome_of result ≡ front_call n start len }
{
    Ok(
        Region::of(n)?
            .placed(JournalInterval { start, len })?
            .front(),
    )
}

// The part from block 0 on, if it has any blocks.
#[tactic(auto, unfolding(crate::specs::Calls::back_call))]
pub fn journal_back_interval(
    n: u64,
    start: u64,
    len: u64,
) -> Result<Option<JournalInterval>, Refusal>
    ensures { outcome_of result ≡ back_call n start len }
{
    Ok(
        Region::of(n)?
            .placed(JournalInterval { start, len })?
            .back(),
    )
}

// The block behind the interval's last.
#[tactic(auto, unfolding(crate::specs::Calls::next_start_call))]
pub fn next_start_point(n: u64, indices: JournalInterval) -> Result<u64, Refusal>
    ensures { outcome_of result ≡ next_start_call n indices }
{
    Ok(Region::of(n)?.placed(indices)?.next_start())
}

// Whether b contains a.
#[tactic(auto, unfolding(crate::specs::Calls::subinterval_call))]
pub fn subinterval(n: u64, a: JournalInterval, b: JournalInterval) -> Result<bool, Refusal>
    ensures { outcome_of result ≡ subinterval_call n a b }
{
    Ok(Region::of(n)?.both_placed(a, b)?.contained())
}

// Whether two intervals overlap: two that wrap always do, since both hold block 0.
#[tactic(auto, unfolding(crate::specs::Calls::overlap_call))]
pub fn journal_cyclic_interval_overlap(
    n: u64,
    a: JournalInterval,
    b: JournalInterval,
) -> Result<bool, Refusal>
    ensures { outcome_of result ≡ overlap_call n a b }
{
    Ok(Region::of(n)?.both_placed(a, b)?.overlap())
}

// Whether two intervals share a block. Unlike overlap, an empty one shares none.
#[tactic(auto, unfolding(crate::specs::Calls::shares_block_call))]
pub fn shares_block(n: u64, a: JournalInterval, b: JournalInterval) -> Result<bool, Refusal>
    ensures { outcome_of result ≡ shares_block_call n a b }
{
    Ok(Region::of(n)?.both_placed(a, b)?.share_block())
}

// Where the blocks of an interval that does not wrap lie.
#[tactic(auto, unfolding(crate::specs::Calls::location_call))]
pub fn journal_range_location(n: u64, indices: JournalInterval) -> Result<Location, Refusal>
    ensures { outcome_of result ≡ location_call n indices }
{
    Region::of(n)?.location(indices)
}

// The interval of a location's blocks.
#[tactic(auto, unfolding(crate::specs::Calls::interval_call))]
pub fn journal_interval_of_location(n: u64, loc: Location) -> Result<JournalInterval, Refusal>
    ensures { outcome_of result ≡ interval_call n loc }
{
    Region::of(n)?.interval(loc)
}
