// CRC-32C of a slice of bytes, and the 32 bytes at a block's head.
#![tactic(auto)]

ghost use Rattle.std.specs.Prelude.{◌≡◌, slice_index, drop};
ghost use mathlib.Core.List.{foldl};
ghost use Rattle.crc32c_register.specs.Register.{step_byte};
ghost use Rattle.crc32c.specs.Crc32c.{crc32c_of, checksum_bytes};
ghost use Rattle.crc32c.specs.Lanes.{lanes};

use crc32c_register::{step_byte, step_word};
use crc32c_tables::step_128;
use words::bytes_of;

// The register with the bytes of s, one by one.
fn with_bytes(register: u32, s: &[u8]) -> u32
    ensures { result ≡ foldl step_byte register s.now }
{
    s.iter().fold(register, |r, b| step_byte(r, *b))
}

// The first of the registers with the bytes of s, a word at a turn, where the others are due, one after each of the
// first words.
fn with_due(registers: [u32; 4], s: &[u8]) -> u32
    ensures { result ≡ lanes (slice_index registers 0) (drop 1 registers) s.now }
{
    let mut registers = registers;
    let mut rest = s;
    while let Some((word, behind)) = rest.split_first_chunk::<4>() {
        let [a, b, c, d] = registers;
        registers = [step_word(a ^ u32::from_le_bytes(*word)) ^ b, c, d, 0];
        rest = behind;
    }
    let [a, b, c, d] = registers;
    with_bytes(a, rest) ^ b ^ c ^ d
}

// The register with the bytes of s, a word at a turn. Four registers take the words in rotation, so that no look
// into the tables waits for the one before; each steps past the words of the others too, so the last three words and
// what is left of a fourth are taken by one.
fn with_words(register: u32, s: &[u8]) -> u32
    ensures { result ≡ foldl step_byte register s.now }
{
    let turns = (s.len() / 4).saturating_sub(3);
    let (front, rest) = s.split_at(4 * turns);
    let mut registers = [register, 0, 0, 0];
    for word in front.as_chunks::<4>().0 {
        let [a, b, c, d] = registers;
        registers = [b, c, d, step_128(a ^ u32::from_le_bytes(*word))];
    }
    with_due(registers, rest)
}

// CRC-32C of s.
#[tactic(auto, unfolding(crate::specs::Crc32c::crc32c_of))]
pub fn crc32c(s: &[u8]) -> u32
    ensures { result ≡ crc32c_of s.now }
{
    with_words(0xFFFF_FFFF, s) ^ 0xFFFF_FFFF
}

// The 32 bytes at the head of a block with the payload s.
#[tactic(auto, unfolding(crate::specs::Crc32c::checksum_bytes))]
pub fn checksum(s: &[u8]) -> [u8; 32]
    ensures { result ≡ checksum_bytes s.now }
{
    let c = crc32c(s);
    let mut r = [0u8; 32];
    r[..4].copy_from_slice(&bytes_of(c));
    r
}
