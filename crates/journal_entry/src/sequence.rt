// A byte sequence that is read where it lies. Nothing is copied, and only length words are looked at.
ghost use Rattle.std.specs.Prelude.{◌≡◌, List, ℕ, ◌+◌, ◌≤◌, length, get_or, Some};
ghost use Rattle.journal_entry.specs.Places.{word_at};
ghost use Rattle.journal_entry.specs.Sequence.{joined};

pub trait ByteSequence {
    // its bytes
    ghost bytes: { Self → List ℕ };

    fn len(&self) -> usize
        ensures { result ≡ length (bytes self.now) };

    // The byte at i, 0 past the end.
    fn byte_at(&self, i: usize) -> u8
        ensures { result ≡ get_or (bytes self.now) i 0 };

    // The word at i, if it is at hand in one piece.
    fn word_whole(&self, i: usize) -> Option<u32>
        ensures value { (word : ℕ) → result ≡ Some word → word ≡ word_at (bytes self.now) i }
        ensures inside { (word : ℕ) → result ≡ Some word → i + 4 ≤ length (bytes self.now) };

    // The word at i. Bytes past the end count 0.
    #[tactic(auto, using(crate::proofs::Joins::word_past, crate::proofs::Joins::word_by_bytes))]
    fn word_at(&self, i: usize) -> u32
        ensures { result ≡ word_at (bytes self.now) i }
    {
        if let Some(word) = self.word_whole(i) {
            return word;
        }
        if self.len() <= i {
            return 0;
        }
        // (there is no byte at usize::MAX)
        words::word_of(
            self.byte_at(i),
            self.byte_at(i.saturating_add(1)),
            self.byte_at(i.saturating_add(2)),
            self.byte_at(i.saturating_add(3)),
        )
    }
}

// Two slices as one, front then back: a payload in two parts, or the two parts of a ring.
#[derive(Clone, Copy)]
pub struct Joined<'a> {
    pub front: &'a [u8],
    pub back: &'a [u8],
}

impl<'a> ByteSequence for &'a [u8] {
    ghost bytes = { λ s. s.now };

    fn len(&self) -> usize {
        let s = *self;
        s.len()
    }

    fn byte_at(&self, i: usize) -> u8 {
        let s = *self;
        s.get(i).copied().unwrap_or(0)
    }

    #[tactic(auto, using(crate::proofs::Joins::word_of_chunk))]
    fn word_whole(&self, i: usize) -> Option<u32> {
        let s = *self;
        let word = s.get(i..)?.first_chunk::<4>()?;
        Some(u32::from_le_bytes(*word))
    }
}

impl<'a> ByteSequence for Joined<'a> {
    ghost bytes = { joined };

    fn len(&self) -> usize {
        self.front.len() + self.back.len()
    }

    fn byte_at(&self, i: usize) -> u8 {
        let n = self.front.len();
        if i < n {
            self.front[i]
        } else {
            self.back.byte_at(i - n)
        }
    }

    #[tactic(auto, using(crate::proofs::Joins::whole_left, crate::proofs::Joins::whole_right))]
    fn word_whole(&self, i: usize) -> Option<u32> {
        let n = self.front.len();
        if i < n {
            self.front.word_whole(i)
        } else {
            self.back.word_whole(i - n)
        }
    }
}
