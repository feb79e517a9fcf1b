// One byte and four bytes into the register, by tables of what so many steps make of a byte in its top eight bits.
ghost use Rattle.std.specs.Prelude.{◌≡◌, ◌*◌, ◌^◌};
ghost use Rattle.sc32.specs.Checksum.{bit_steps, byte_step, checksum};
ghost use Rattle.sc32.specs.Tables.{Tabulates};

use crate::tables::{STEPS_8, STEPS_16, STEPS_24, STEPS_32};

fn after<const STEPS: usize>(table: &[u32; 256], byte: u8) -> u32
    requires { Tabulates STEPS table.now }
    ensures { result ≡ bit_steps STEPS (byte * 2 ^ 24) }
{
    table[byte as usize]
}

pub(crate) fn byte_step(register: u32, byte: u8) -> u32
    ensures { result ≡ byte_step register byte }
{
    (register << 8) ^ after::<8>(&STEPS_8, (register >> 24) as u8 ^ byte)
}

pub(crate) fn four_step(register: u32, bytes: [u8; 4]) -> u32
    ensures { result ≡ checksum register bytes }
{
    let [w0, w1, w2, w3] = register.to_be_bytes();
    let [b0, b1, b2, b3] = bytes;
    after::<32>(&STEPS_32, w0 ^ b0)
        ^ (after::<24>(&STEPS_24, w1 ^ b1)
            ^ (after::<16>(&STEPS_16, w2 ^ b2) ^ after::<8>(&STEPS_8, w3 ^ b3)))
}
