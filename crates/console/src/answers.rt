// What a command is answered.
ghost use Rattle.std.specs.Prelude.{◌≡◌};
ghost use Rattle.console.specs.declared.answers.Failure.TheVariants.{Refused as IsRefused, OutOfMemory};

use crate::command::Side;
use directory::comparing::Comparison;
use fleet::book::NamePart;
use fleet::questions::Found;
use std::alloc::AllocError;
use train::entries::{Coupled, Vehicle};
use train::refusal::Refusal;

/// The answer to a command that is carried out.
#[derive(Drop)]
pub enum Answer<'a> {
    /// One word says all.
    Done(&'static str),
    Turned(Vec<Coupled>),
    Checksum(u32),
    Consist(Found),
    Vehicle(Vehicle),
    Name(NamePart<'a>),
    Absent,
    Filled(Filled),
    Desk(Side),
    Compared(Comparison),
}

/// A buffer that was written into, and what came of that; it is shown whole, refused or not.
#[derive(Drop)]
pub struct Filled {
    pub outcome: Result<Written, Refusal>,
    pub buffer: Vec<u8>,
}

/// What was written into a buffer.
#[derive(Clone, Copy, PartialEq, Eq, Debug)]
pub enum Written {
    Imported { length: usize },
    Exported { length: usize, lines: usize },
    Composed { length: usize },
}

/// Why a command is not carried out.
#[derive(Clone, Copy, PartialEq, Eq)]
pub enum Failure {
    Refused(Refusal),
    OutOfMemory(AllocError),
}

impl From<Refusal> for Failure {
    ghost from_gives = { λ refusal e. e ≡ IsRefused refusal };

    fn from(refusal: Refusal) -> Failure {
        Failure::Refused(refusal)
    }
}

impl From<AllocError> for Failure {
    ghost from_gives = { λ error e. e ≡ OutOfMemory error };

    fn from(error: AllocError) -> Failure {
        Failure::OutOfMemory(error)
    }
}
