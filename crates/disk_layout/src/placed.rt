// What has passed rows 1 and 16: an interval of a region, and two of one region. No sum of their numbers wraps.
ghost use Rattle.std.specs.Prelude.{◌≡◌, ◌&&◌, ◌+◌, ◌-◌, ◌<◌, ◌≤◌, leb, ltb};
ghost use Rattle.disk_layout.specs.JournalInterval.{journal_front_interval, journal_back_interval, next_start_point};
ghost use Rattle.disk_layout.specs.JournalInterval.{subinterval, wrapped_overlap, journal_cyclic_interval_overlap};
ghost use Rattle.disk_layout.specs.JournalInterval.{shares_block};

use crate::JournalInterval;
use crate::region::Region;

// The blocks from start up to end.
#[derive(Clone, Copy)]
struct Span {
    start: u64,
    end: u64,
}

impl Span {
    fn lies_within(self, other: Span) -> bool
        ensures { result ≡ (leb other.start self.start && leb self.end other.end) }
    {
        other.start <= self.start && self.end <= other.end
    }

    fn overlaps(self, other: Span) -> bool
        ensures { result ≡ (ltb other.start self.end && ltb self.start other.end) }
    {
        other.start < self.end && self.start < other.end
    }
}

// An interval of a region.
#[derive(Clone, Copy)]
pub(crate) struct Placed {
    pub(crate) region: Region,
    pub(crate) indices: JournalInterval,
    ghost start_below: { indices.start < region.blocks },
    ghost len_within: { indices.len ≤ region.blocks },
}

impl Placed {
    fn end(self) -> u64
        ensures { result ≡ self.indices.start + self.indices.len }
    {
        self.indices.start + self.indices.len
    }

    // How many blocks lie past block N - 1, and so from block 0 on.
    fn wrapped(self) -> u64
        ensures { result ≡ self.indices.len - (self.region.blocks - self.indices.start) }
    {
        self.end().saturating_sub(self.region.blocks)
    }

    pub(crate) fn wraps(self) -> bool
        ensures { result ≡ ltb self.region.blocks (self.indices.start + self.indices.len) }
    {
        self.region.blocks < self.end()
    }

    // The part up to the region's end.
    #[tactic(auto, unfolding(crate::specs::JournalInterval::journal_front_interval))]
    pub(crate) fn front(self) -> Option<JournalInterval>
        ensures { result ≡ journal_front_interval self.region.blocks self.indices.start self.indices.len }
    {
        let JournalInterval { start, len } = self.indices;
        if len == 0 {
            return None;
        }
        Some(JournalInterval {
            start,
            len: len.min(self.region.blocks - start),
        })
    }

    // The part from block 0 on.
    #[tactic(auto, unfolding(crate::specs::JournalInterval::journal_back_interval))]
    pub(crate) fn back(self) -> Option<JournalInterval>
        ensures { result ≡ journal_back_interval self.region.blocks self.indices.start self.indices.len }
    {
        let len = self.wrapped();
        if len == 0 {
            return None;
        }
        Some(JournalInterval { start: 0, len })
    }

    // The block behind the last.
    #[tactic(auto, unfolding(crate::specs::JournalInterval::next_start_point))]
    pub(crate) fn next_start(self) -> u64
        ensures { result ≡ next_start_point self.region.blocks self.indices }
    {
        let end = self.end();
        if end < self.region.blocks {
            end
        } else {
            end - self.region.blocks
        }
    }

    fn span(self) -> Span
        ensures start { result.start ≡ self.indices.start }
        ensures end { result.end ≡ self.indices.start + self.indices.len }
    {
        Span {
            start: self.indices.start,
            end: self.end(),
        }
    }

    // Whether the two parts, where it wraps, overlap another that does not.
    #[tactic(auto, using(crate::proofs::Overlap::wrapped_tests))]
    fn parts_overlap(self, other: Placed) -> bool
        ensures { result ≡ wrapped_overlap self.region.blocks self.indices other.indices }
    {
        let front = Span {
            start: self.indices.start,
            end: self.region.blocks,
        };
        let back = Span {
            start: 0,
            end: self.wrapped(),
        };
        front.overlaps(other.span()) || back.overlaps(other.span())
    }
}

// Two intervals of one region.
#[derive(Clone, Copy)]
pub(crate) struct TwoPlaced {
    pub(crate) a: Placed,
    pub(crate) b: Placed,
    ghost same_region: { a.region.blocks ≡ b.region.blocks },
}

impl TwoPlaced {
    // Whether a lies within b, as it stands or N places further on.
    #[tactic(auto, unfolding(crate::specs::JournalInterval::subinterval))]
    pub(crate) fn contained(self) -> bool
        ensures { result ≡ subinterval self.a.region.blocks self.a.indices self.b.indices }
    {
        let a = self.a.span();
        let b = self.b.span();
        let further_on = Span {
            start: a.start + self.a.region.blocks,
            end: a.end + self.a.region.blocks,
        };
        a.lies_within(b) || further_on.lies_within(b)
    }

    // Whether they overlap: two that wrap always do, since both hold block 0.
    #[tactic(auto, using(crate::proofs::Overlap::overlap_cases))]
    pub(crate) fn overlap(self) -> bool
        ensures { result ≡ journal_cyclic_interval_overlap self.a.region.blocks self.a.indices self.b.indices }
    {
        match (self.a.wraps(), self.b.wraps()) {
            (true, true) => true,
            (true, false) => self.a.parts_overlap(self.b),
            (false, true) => self.b.parts_overlap(self.a),
            (false, false) => self.a.span().overlaps(self.b.span()),
        }
    }

    // Whether a block lies in both. An empty interval has none, and of two others overlap tells.
    #[tactic(auto, using(crate::proofs::Sharing::shares_cases))]
    pub(crate) fn share_block(self) -> bool
        ensures { result ≡ shares_block self.a.region.blocks self.a.indices self.b.indices }
    {
        self.a.indices.len != 0 && self.b.indices.len != 0 && self.overlap()
    }
}
