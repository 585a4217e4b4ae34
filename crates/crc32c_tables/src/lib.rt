// Sixteen bytes' steps of the register of CRC-32C at once, by four tables.
#![tactic(auto)]

ghost use Rattle.std.specs.Prelude.{◌≡◌};
ghost use Rattle.crc32c_register.specs.Register.{step_bits};

mod tables;

use tables::{STEPS_104, STEPS_112, STEPS_120, STEPS_128};

// A hundred and twenty-eight steps: each byte of the register through a table of its own.
pub fn step_128(register: u32) -> u32
    ensures { result ≡ step_bits 128 register }
{
    STEPS_128.look(register)
        ^ STEPS_120.look(register >> 8)
        ^ STEPS_112.look(register >> 16)
        ^ STEPS_104.look(register >> 24)
}
