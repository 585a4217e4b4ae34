// The register of CRC-32C: its steps as RFC 3720 has them, bit by bit, and a byte's and a word's by tables of half
// bytes.
#![tactic(auto)]

ghost use Rattle.std.specs.Prelude.{◌≡◌};
ghost use Rattle.crc32c_register.specs.Register.{step_bit, step_bits, step_byte};

pub mod table;
mod tables;

use tables::{STEPS_4, STEPS_8, STEPS_12, STEPS_16, STEPS_20, STEPS_24, STEPS_28, STEPS_32};

fn step_bit(register: u32) -> u32
    ensures { result ≡ step_bit register }
{
    ((register % 2) * 0x82F6_3B78) ^ (register / 2)
}

// So many steps, bit by bit: what the tables save.
pub fn step_bits(n: u32, register: u32) -> u32
    ensures { result ≡ step_bits n register }
{
    let mut r = register;
    for _ in 0..n {
        r = step_bit(r);
    }
    r
}

// Half a byte's steps: the low half by the table, the rest goes down.
fn step_half(register: u32) -> u32
    ensures { result ≡ step_bits 4 register }
{
    STEPS_4.look(register) ^ (register >> 4)
}

// The register with one byte more.
pub fn step_byte(register: u32, byte: u8) -> u32
    ensures { result ≡ step_byte register byte }
{
    step_half(step_half(register ^ byte as u32))
}

// A word's steps: each half byte of the register through a table of its own, none waiting for another.
pub fn step_word(register: u32) -> u32
    ensures { result ≡ step_bits 32 register }
{
    STEPS_32.look(register)
        ^ STEPS_28.look(register >> 4)
        ^ STEPS_24.look(register >> 8)
        ^ STEPS_20.look(register >> 12)
        ^ STEPS_16.look(register >> 16)
        ^ STEPS_12.look(register >> 20)
        ^ STEPS_8.look(register >> 24)
        ^ STEPS_4.look(register >> 28)
}
