// Keys compared byte by byte; and, in specs/, the map from keys to values that entries make.
#![tactic(auto)]

ghost use Rattle.std.specs.Prelude.{◌≡◌, ◌+◌, ◌≤◌, length, take, drop};
ghost use Rattle.words.specs.Lists.{Bytes};
ghost use Rattle.key_map.specs.Keys.{before, begins, same};
ghost use Rattle.key_map.specs.Digits.{high};

// Eight bytes from place i on as a number, the first byte highest: such numbers are ordered as their bytes are. (On
// bytes that lie side by side this is compiled to one load.)
#[inline(always)]
fn eight_at(s: &[u8], i: usize) -> u64
    requires { i + 8 ≤ length s.now }
    ensures value { result ≡ high 0 (take 8 (drop i s.now)) }
    ensures bytes { Bytes (take 8 (drop i s.now)) }
{
    u64::from_be_bytes([
        s[i],
        s[i + 1],
        s[i + 2],
        s[i + 3],
        s[i + 4],
        s[i + 5],
        s[i + 6],
        s[i + 7],
    ])
}

// Whether key a stands before key b: eight bytes at a time, and at last the last eight of the shorter, some of which
// may have been compared.
pub fn is_before(a: &[u8], b: &[u8]) -> bool
    ensures { result ≡ before a.now b.now }
{
    let end = a.len().min(b.len());
    if end < 8 {
        return a.cmp(&b).is_lt();
    }
    let last = end - 8;
    let mut i = 0;
    while i < last {
        let (x, y) = (eight_at(a, i), eight_at(b, i));
        if x != y {
            return x < y;
        }
        i += 8;
    }
    let (x, y) = (eight_at(a, last), eight_at(b, last));
    if x != y {
        return x < y;
    }
    a.len() < b.len()
}

// Whether a key begins with a prefix.
#[tactic(auto, using(crate::proofs::Compared::begins_with))]
pub fn begins_with(prefix: &[u8], key: &[u8]) -> bool
    ensures { result ≡ begins prefix.now key.now }
{
    key.starts_with(prefix)
}

// Whether both are the same key.
#[tactic(auto, using(crate::proofs::Compared::is_same))]
pub fn is_same(a: &[u8], b: &[u8]) -> bool
    ensures { result ≡ same a.now b.now }
{
    a == b
}
