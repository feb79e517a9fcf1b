// The seats of a roster: finding one, and the consist that takes one.
ghost use Rattle.std.specs.Prelude.{◌≡◌, ◌<◌, length, IfOk, IfSome};
ghost use Rattle.train.specs.Refusals.{refusal_of, refusal};
ghost use Rattle.train.specs.declared.refusal.Part.TheVariants.{Roster as InRoster};
ghost use Rattle.fleet.specs.Rosters.{consist_checks};
ghost use Rattle.fleet.specs.Seats.{is_here};
ghost use Rattle.fleet.specs.Seeks.{find};

use super::*;
use train::checks::{facings_known, labels_apart, names_well_formed, require};
use train::refusal::{Part, Reason, Refusal};

/// The seat of a consist, counted from 0.
pub fn place_of(seats: &[Seat], identity: &Identity) -> Option<usize>
    ensures found { result ≡ find (is_here identity.now) 0 seats.now }
    ensures below { IfSome result (λ i. i < length seats.now) }
{
    seats.iter().position(|seat| seat.identity == *identity)
}

/// The vehicles of a consist that keeps the rules.
pub fn checked(
    identity: &Identity,
    counter: u32,
    vehicles: &[Vehicle],
) -> Result<ArrayVec<Vehicle, VEHICLES>, Refusal>
    ensures answer { refusal_of result ≡ refusal InRoster (consist_checks identity.now counter vehicles.now) }
    ensures list { IfOk result (λ list. list.items ≡ vehicles.now) }
{
    require(Part::Roster, !identity.is_zero(), Reason::IdentityOrder)?;
    require(Part::Roster, counter != 0, Reason::ZeroCounter)?;
    require(Part::Roster, !vehicles.is_empty(), Reason::EntryCount)?;
    let Ok(list) = ArrayVec::try_from(vehicles) else {
        return Err(Refusal::at(Part::Roster, Reason::EntryCount, 0));
    };
    names_well_formed(Part::Roster, vehicles)?;
    facings_known(Part::Roster, vehicles)?;
    labels_apart(Part::Roster, vehicles)?;
    Ok(list)
}
