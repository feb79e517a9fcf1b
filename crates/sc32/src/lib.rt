// SC-32, a 32-bit checksum of a byte string from a seed, four bytes at a time.
#![tactic(auto)]

ghost use Rattle.std.specs.Prelude.{◌≡◌, [], ◌∷◌, ◌++◌};
ghost use Rattle.std.specs.List.{concat};
ghost use Rattle.sc32.specs.Checksum.{checksum};

use steps::{byte_step, four_step};

mod steps;
mod tables;

fn over_words(seed: u32, words: &[[u8; 4]]) -> u32
    ensures { result ≡ checksum seed (concat words.now) }
{
    let mut register = seed;
    for word in words {
        register = four_step(register, *word);
    }
    register
}

fn over_bytes(seed: u32, bytes: &[u8]) -> u32
    ensures { result ≡ checksum seed bytes.now }
{
    let mut register = seed;
    for byte in bytes {
        register = byte_step(register, *byte);
    }
    register
}

// The checksum of the bytes. Continuing after them is the same call, with its answer as the seed.
pub fn sc32(seed: u32, bytes: &[u8]) -> u32
    ensures value { result ≡ checksum seed bytes.now }
{
    let (words, rest) = bytes.as_chunks::<4>();
    over_bytes(over_words(seed, words), rest)
}

// The checksum of two parts that stand one behind the other, with no copy made of them.
pub fn checksum_of_two(seed: u32, first: &[u8], second: &[u8]) -> u32
    ensures value { result ≡ checksum seed (first.now ++ second.now) }
{
    sc32(sc32(seed, first), second)
}

// From seed 0, the one byte 01 hex has the checksum F4ACFB13 hex.
pub fn worked_example()
    ensures value { checksum 0 (1 ∷ []) ≡ 0xF4AC_FB13 }
{}
