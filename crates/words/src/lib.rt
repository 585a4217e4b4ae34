// Numbers as bytes, lowest byte first; and bytes that are zero.
#![tactic(auto)]

ghost use Rattle.std.specs.Prelude.{◌≡◌, [], ◌∷◌, length, replicate};
ghost use Rattle.words.specs.Words.{unpack, word};
ghost use Rattle.words.specs.Lists.{all_zero};

// The 32-bit word that four bytes say. (On bytes that lie side by side this is compiled to one load.)
pub fn word_of(a: u8, b: u8, c: u8, d: u8) -> u32
    ensures { result ≡ unpack (a ∷ b ∷ c ∷ d ∷ []) }
{
    u32::from_le_bytes([a, b, c, d])
}

// The four bytes of a 32-bit word.
#[tactic(auto, unfolding(crate::specs::Words::word))]
pub fn bytes_of(n: u32) -> [u8; 4]
    ensures { result ≡ word n }
{
    n.to_le_bytes()
}

// Zeros over the whole of dst.
pub fn zero_fill(dst: &mut [u8])
    ensures { dst.new ≡ replicate (length dst.old) 0 }
{
    dst.fill(0);
}

// Whether every byte is 0: the first is, and each other is as the one before it. (So std compares many at a time.)
pub fn all_zero(s: &[u8]) -> bool
    ensures { result ≡ all_zero s.now }
{
    let Some((first, rest)) = s.split_first() else {
        return true;
    };
    *first == 0 && rest == &s[..rest.len()]
}
