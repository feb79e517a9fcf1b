// Announcing and forgetting consists, and what the roster answers.
ghost use Rattle.std.specs.Prelude.{◌≡◌, None, MatchResult};
ghost use Rattle.train.specs.Refusals.{refusal_of, refusal};
ghost use Rattle.train.specs.declared.identity.Identity.{Identity as Id};
ghost use Rattle.train.specs.declared.refusal.Part.TheVariants.{Roster as InRoster};
ghost use Rattle.fleet.specs.Meant.{meant};
ghost use Rattle.fleet.specs.Rosters.{announced, forgotten, Announces, forget_checks};
ghost use Rattle.fleet.specs.Sound.{roster_lawful};

use super::seats::*;
use super::*;
use crate::questions::{Fleet, Found, Meant};
use train::checks::require;
use train::refusal::{Part, Reason, Refusal};

impl Roster {
    /// A roster without consists.
    pub fn new() -> Roster
        ensures { (id : Id) → meant result id ≡ None }
    {
        Roster {
            seats: ArrayVec::new(),
        }
    }

    /// Sets a consist, or replaces the one of this identity.
    pub fn announce(
        &mut self,
        identity: Identity,
        counter: u32,
        vehicles: &[Vehicle],
    ) -> Result<(), Refusal>
        ensures answer { Announces (meant self.old) identity counter vehicles.now (refusal_of result) }
        ensures after { MatchResult result (λ _. (other : Id) → meant self.new other ≡ announced identity (record { counter = counter; vehicles = vehicles.now }) (meant self.old) other) (λ _. self.new ≡ self.old) }
    {
        let seat = Seat {
            identity,
            counter,
            vehicles: checked(&identity, counter, vehicles)?,
        };
        match place_of(self.seats.as_slice(), &identity) {
            Some(at) => self.seats[at] = seat,
            None => {
                require(Part::Roster, !self.seats.is_full(), Reason::RosterFull)?;
                self.seats.push(seat);
            }
        }
        Ok(())
    }

    /// Removes a consist; its seat serves again.
    pub fn forget(&mut self, identity: &Identity) -> Result<(), Refusal>
        ensures answer { refusal_of result ≡ refusal InRoster (forget_checks (meant self.old) identity.now) }
        ensures after { MatchResult result (λ _. (other : Id) → meant self.new other ≡ forgotten identity.now (meant self.old) other) (λ _. self.new ≡ self.old) }
    {
        require(Part::Roster, !identity.is_zero(), Reason::IdentityOrder)?;
        let place = place_of(self.seats.as_slice(), identity);
        require(Part::Roster, place.is_some(), Reason::NotPresent)?;
        self.seats.retain(|seat| seat.identity != *identity);
        Ok(())
    }
}

impl Meant for Roster {
    ghost meaning = { λ r id. meant r id };

    ghost lawful = { λ r id. roster_lawful r id };
}

impl Fleet for Roster {
    fn look_up(&self, identity: &Identity) -> Option<Found> {
        let seats = self.seats.as_slice();
        let seat = &seats[place_of(seats, identity)?];
        Some(Found {
            counter: seat.counter,
            count: seat.vehicles.len() as u8,
        })
    }

    fn vehicle(&self, identity: &Identity, k: u8) -> Option<Vehicle> {
        let seats = self.seats.as_slice();
        let seat = &seats[place_of(seats, identity)?];
        let at = usize::from(k).checked_sub(1)?;
        seat.vehicles.as_slice().get(at).copied()
    }
}
