// The calls of a bench.
ghost use Rattle.std.specs.Prelude.{◌≡◌, ◌<◌, ◌≤◌, true, false, ◌&&◌, length, IfOk, OnOk};
ghost use Rattle.train.specs.Refusals.{refusal, refusal_of, breach, must};
ghost use Rattle.train.specs.declared.refusal.Reason.TheVariants.{ClaimRange, EntryCount};
ghost use Rattle.train.specs.declared.refusal.Part.TheVariants.{Bench as OfBench};
ghost use Rattle.bench.specs.Calls.{Call};
ghost use Rattle.bench.specs.Facts.{nothing, checks as checks_of, place_checks, list_checks, after, coupled_in, directed, within, some, Place};
ghost use Rattle.bench.specs.Shown.{shown};

use super::questions::place_of;
use super::*;
use crate::claims::Claim;
use arrayvec::ArrayVec;
use train::checks::{
    facings_known, identities_well_formed, labels_apart, names_well_formed, require,
};
use train::facing::Facing;
use train::identity::Identity;
use train::refusal::{Part, Reason, Refusal};

/// The last number that a vehicle of a consist can have.
const LAST: u8 = 32;

/// A list of entries, where there are some and not too many.
fn listed<T: Copy + Default>(entries: &[T]) -> Result<ArrayVec<T, MOST>, Refusal>
    ensures answer { refusal_of result ≡ breach OfBench (must (within 1 63 (length entries.now)) EntryCount) }
    ensures list { IfOk result (λ list. list.items ≡ entries.now) }
{
    require(Part::Bench, !entries.is_empty(), Reason::EntryCount)?;
    match ArrayVec::try_from(entries) {
        Ok(list) => Ok(list),
        Err(_) => Err(Refusal::at(Part::Bench, Reason::EntryCount, 0)),
    }
}

/// The formation, where it and its counter pass the checks.
fn check_formation(etb: u32, formation: &[Coupled]) -> Result<ArrayVec<Coupled, MOST>, Refusal>
    ensures answer { refusal_of result ≡ refusal OfBench (checks_of nothing (Call.inaugurate etb formation.now)) }
    ensures list { IfOk result (λ list. list.items ≡ formation.now) }
{
    identities_well_formed(Part::Bench, formation)?;
    require(Part::Bench, etb > 0, Reason::ZeroCounter)?;
    let list = listed(formation)?;
    facings_known(Part::Bench, formation)?;
    labels_apart(Part::Bench, formation)?;
    Ok(list)
}

/// The confirmed list, where it passes the checks.
fn check_list(names: &[Name]) -> Result<ArrayVec<Name, MOST>, Refusal>
    ensures answer { refusal_of result ≡ refusal OfBench (list_checks names.now) }
    ensures list { IfOk result (λ list. list.items ≡ names.now) }
{
    let list = listed(names)?;
    names_well_formed(Part::Bench, names)?;
    labels_apart(Part::Bench, names)?;
    Ok(list)
}

/// The claim of a vehicle and a direction, where both are in range.
fn claim_for(vehicle: u8, direction: u8) -> Result<Claim, Refusal>
    ensures answer { refusal_of result ≡ breach OfBench (must (within 1 32 vehicle && within 1 2 direction) ClaimRange) }
    ensures value { IfOk result (λ c. (c ≡ record { vehicle = vehicle; direction = directed direction }) × (1 ≤ vehicle)) }
{
    require(
        Part::Bench,
        vehicle >= 1 && vehicle <= LAST,
        Reason::ClaimRange,
    )?;
    match Facing::try_from(direction) {
        Ok(direction) if direction.is_known() => Ok(Claim { vehicle, direction }),
        _ => Err(Refusal::at(Part::Bench, Reason::ClaimRange, 0)),
    }
}

impl Bench {
    /// The place of a consist that a call names.
    fn place_for(&self, identity: &Identity) -> Result<usize, Refusal>
        ensures answer { refusal_of result ≡ refusal OfBench (place_checks (shown self.now) identity.now) }
        ensures value { IfOk result (λ i. Place identity.now (shown self.now).formation i × (i < 63) × (length (shown self.now).formation ≤ 63)) }
    {
        require(
            Part::Bench,
            identity.is_well_formed(),
            Reason::IdentityOrder,
        )?;
        require(Part::Bench, self.is_formed(), Reason::NoFormation)?;
        match place_of(self.formation(), identity) {
            Some(place) => Ok(place),
            None => Err(Refusal::at(Part::Bench, Reason::NotPresent, 0)),
        }
    }

    /// Sets the ETB counter and the formation; all claims and the confirmed list fall.
    pub fn inaugurate(&mut self, etb: u32, formation: &[Coupled]) -> Result<(), Refusal>
        ensures answer { refusal_of result ≡ refusal OfBench (checks_of (shown self.old) (Call.inaugurate etb formation.now)) }
        ensures facts { shown self.new ≡ after (shown self.old) (Call.inaugurate etb formation.now) }
    {
        self.formation = check_formation(etb, formation)?;
        self.etb = etb;
        self.claims = [None; MOST];
        self.confirmed.clear();
        Ok(())
    }

    /// Sets the claim of a consist, and of no other.
    pub fn claim(&mut self, identity: Identity, vehicle: u8, direction: u8) -> Result<(), Refusal>
        ensures answer { refusal_of result ≡ refusal OfBench (checks_of (shown self.old) (Call.claim identity vehicle direction)) }
        ensures facts { shown self.new ≡ after (shown self.old) (Call.claim identity vehicle direction) }
    {
        let place = self.place_for(&identity)?;
        let claim = claim_for(vehicle, direction)?;
        self.claims[place] = Some(claim);
        Ok(())
    }

    /// Ends the claim of a consist.
    pub fn yield_claim(&mut self, identity: Identity) -> Result<(), Refusal>
        ensures answer { refusal_of result ≡ refusal OfBench (checks_of (shown self.old) (Call.yield identity)) }
        ensures facts { shown self.new ≡ after (shown self.old) (Call.yield identity) }
    {
        let place = self.place_for(&identity)?;
        require(
            Part::Bench,
            self.claims[place].is_some(),
            Reason::NothingStands,
        )?;
        self.claims[place] = None;
        Ok(())
    }

    /// Sets the confirmed list, from the head of the train.
    pub fn confirm(&mut self, names: &[Name]) -> Result<(), Refusal>
        ensures answer { refusal_of result ≡ refusal OfBench (checks_of (shown self.old) (Call.confirm names.now)) }
        ensures facts { shown self.new ≡ after (shown self.old) (Call.confirm names.now) }
    {
        let list = check_list(names)?;
        require(Part::Bench, self.is_formed(), Reason::NoFormation)?;
        self.confirmed = list;
        Ok(())
    }

    /// Ends the confirmed list.
    pub fn withdraw(&mut self) -> Result<(), Refusal>
        ensures answer { refusal_of result ≡ refusal OfBench (checks_of (shown self.old) Call.withdraw) }
        ensures facts { shown self.new ≡ after (shown self.old) Call.withdraw }
    {
        require(Part::Bench, self.is_formed(), Reason::NoFormation)?;
        require(
            Part::Bench,
            !self.confirmed.is_empty(),
            Reason::NothingStands,
        )?;
        self.confirmed.clear();
        Ok(())
    }
}
