// The two desks of a console, and comparing what stands on them.
use crate::answers::{Answer, Failure};
use crate::command::{Command, Side, Source};
use crate::desk::{Desk, buffer};
use directory::comparing::{Comparison, compare};
use std::alloc::{AllocError, Global};

/// Two desks, and the one that commands go to.
#[derive(Drop)]
pub struct Desks<'a> {
    left: Desk<'a>,
    right: Desk<'a>,
    at: Side,
}

impl<'a> Desks<'a> {
    /// Two empty desks; commands go to the first.
    pub fn new(heap: Global) -> Desks<'a> {
        Desks {
            left: Desk::new(heap),
            right: Desk::new(heap),
            at: Side::Left,
        }
    }

    /// Carries out a command, or refuses it.
    pub fn answer(&mut self, heap: Global, command: &'a Command) -> Result<Answer<'a>, Failure> {
        match command {
            Command::Desk(side) => {
                self.at = *side;
                Ok(Answer::Desk(*side))
            }
            Command::Compare { left, right, room } => {
                Ok(Answer::Compared(self.compared(heap, *left, *right, *room)?))
            }
            Command::ToDesk(command) => self.current().answer(heap, command),
        }
    }

    /// The desk that commands go to.
    fn current(&mut self) -> &mut Desk<'a> {
        match self.at {
            Side::Left => &mut self.left,
            Side::Right => &mut self.right,
        }
    }

    /// Compares the calls of the left desk over its fleet with those of the right over its own.
    fn compared(
        &self,
        heap: Global,
        left: Source,
        right: Source,
        room: u16,
    ) -> Result<Comparison, AllocError> {
        let mut out = buffer(heap, room)?;
        let mut other = buffer(heap, room)?;
        Ok(compare(
            self.left.calls(),
            self.right.calls(),
            &self.left.fleet(left),
            &self.right.fleet(right),
            out.as_mut_slice(),
            other.as_mut_slice(),
        ))
    }
}
