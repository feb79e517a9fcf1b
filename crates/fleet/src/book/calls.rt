// Opening a book, and what it answers.
ghost use Rattle.std.specs.Prelude.{◌≡◌, [], None, MatchOption, MatchResult};
ghost use Rattle.train.specs.Refusals.{refusal_of, refusal};
ghost use Rattle.train.specs.declared.refusal.Part.TheVariants.{Book as InBook};
ghost use Rattle.fleet.specs.Books.{book_checks, meaning_of, name_at, Opened, NoBook};
ghost use Rattle.fleet.specs.Held.{lent, held, HandsOut};
ghost use Rattle.fleet.specs.BookMeantLemmas.{book_lawful};

use super::*;
use crate::parts::{CONSIST, Parts, VEHICLE, checked, vehicles_in};
use crate::questions::{Fleet, Found, Meant};
use crate::rows::{counter_of, size_of};
use crate::seek::seek;
use train::entries::Vehicle;
use train::identity::Identity;
use train::refusal::Refusal;

impl<'a> Book<'a> {
    /// A book that holds nothing.
    pub fn new() -> Book<'a>
        ensures { held result ≡ [] }
    {
        Book {
            bytes: &[],
            consists: &[],
            vehicles: &[],
        }
    }

    /// Reads the lent bytes. Where they are refused, the book is as it was; what is accepted is
    /// exactly the book of one fleet, which is then held.
    pub fn open(&mut self, bytes: &'a [u8]) -> Result<(), Refusal>
        ensures answer { refusal_of result ≡ refusal InBook (book_checks bytes.now) }
        ensures after { MatchResult result (λ _. lent self.new ≡ bytes.now) (λ _. self.new ≡ self.old) }
        ensures exactly { MatchResult result (λ _. Opened bytes.now (held self.new)) (λ _. NoBook bytes.now) }
    {
        let Parts { consists, vehicles } = checked(bytes)?;
        *self = Book {
            bytes,
            consists,
            vehicles,
        };
        Ok(())
    }

    /// The k-th name of the book, counted from 1.
    pub fn name(&self, k: usize) -> Option<NamePart<'a>>
        ensures { MatchOption result (name_at (held self.now) k ≡ None) (λ part. HandsOut self.now k part) }
    {
        let at = k.checked_sub(1)?;
        let row = self.vehicles.get(at)?;
        let offset = 6 + CONSIST * self.consists.len() + VEHICLE * at;
        Some(NamePart {
            offset,
            bytes: &row[..16],
        })
    }
}

impl Meant for Book<'_> {
    ghost meaning = { λ b id. meaning_of (held b) id };

    ghost lawful = { book_lawful };
}

impl Fleet for Book<'_> {
    fn look_up(&self, identity: &Identity) -> Option<Found> {
        let row = &self.consists[seek(self.consists, &identity.bytes)?];
        Some(Found {
            counter: counter_of(row),
            count: size_of(row),
        })
    }

    fn vehicle(&self, identity: &Identity, k: u8) -> Option<Vehicle> {
        let i = seek(self.consists, &identity.bytes)?;
        if k == 0 || k > size_of(&self.consists[i]) {
            return None;
        }
        let at = vehicles_in(&self.consists[..i]) + (usize::from(k) - 1);
        Some(Vehicle::from(self.vehicles[at]))
    }
}
