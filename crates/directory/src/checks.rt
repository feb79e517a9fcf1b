// The checks of composing over the formation and its vehicles.
ghost use Rattle.std.specs.Prelude.{◌≡◌, ◌≤◌, true, not, ◌&&◌, [], length, is_some, if◌then◌else◌};
ghost use Rattle.train.specs.Refusals.{refusal_of, breach, each, alone, keeps, first_breach, or_else};
ghost use Rattle.train.specs.declared.refusal.Part.TheVariants.{Composing};
ghost use Rattle.train.specs.declared.refusal.Reason.TheVariants.{ClaimBeyond};
ghost use Rattle.bench.specs.Shown.{shown};
ghost use Rattle.directory.specs.Composing.{in_reach, reaches, in_order, inserted as is_inserted, car_of, split as splits_from, parted as is_parted};
ghost use Rattle.directory.specs.Operation.{leads as leads_of, orient, orientation as orientation_of, names as names_of};

use crate::cars::Car;
use crate::loading::count_of;
use bench::claims::Claim;
use bench::state::Bench;
use fleet::questions::Fleet;
use train::checks::each_passes;
use train::facing::Facing;
use train::identity::Identity;
use train::name::Name;
use train::octets;
use train::refusal::{Part, Reason, Refusal};

/// How many claims stand.
pub(crate) fn claims_standing(bench: &Bench) -> usize
    ensures { result ≡ length (leads_of (shown bench.now).claims (shown bench.now).formation) }
{
    let formation = bench.formation();
    formation
        .iter()
        .filter(|entry| bench.claim_of(&entry.identity).is_some())
        .count()
}

/// Whether the claimed number is one of a consist's vehicles.
fn in_reach(claim: Option<Claim>, count: usize) -> bool
    ensures { result ≡ reaches claim count }
{
    match claim {
        Some(claim) => claim.vehicle as usize <= count,
        None => true,
    }
}

/// No claimed number exceeds its consist.
pub(crate) fn claims_in_reach<F: Fleet>(fleet: &F, bench: &Bench) -> Result<(), Refusal>
    ensures { refusal_of result ≡ breach Composing (each (alone (in_reach (F.Meant.meaning fleet.now) (shown bench.now).claims)) ClaimBeyond (shown bench.now).formation) }
{
    each_passes(
        Part::Composing,
        Reason::ClaimBeyond,
        bench.formation(),
        |entry| {
            let claim = bench.claim_of(&entry.identity);
            in_reach(claim, count_of(fleet, &entry.identity))
        },
    )
}

/// The train orientation.
pub(crate) fn orientation(bench: &Bench) -> Facing
    ensures { result ≡ orientation_of (shown bench.now) }
{
    let formation = bench.formation();
    for entry in formation {
        if let Some(claim) = bench.claim_of(&entry.identity) {
            return claim.direction.within(entry.facing);
        }
    }
    Facing::Direct
}

/// Whether a car is an inserted one.
pub(crate) fn is_inserted(car: &Car) -> bool
    ensures { result ≡ is_inserted car.now }
{
    octets::is_zero(&car.consist.bytes)
}

/// Whether a car of this consist is among these.
fn has_car_of(identity: &Identity, cars: &[Car]) -> bool
    ensures { result ≡ car_of identity.now cars.now }
{
    cars.iter().any(|car| *identity == car.consist)
}

/// Whether this is an inserted car, with a car of the consist behind it.
fn splits(car: &Car, identity: &Identity, behind: &[Car]) -> bool
    ensures { result ≡ (is_inserted car.now && car_of identity.now behind.now) }
{
    is_inserted(car) && has_car_of(identity, behind)
}

/// Whether an inserted car stands before a car of this consist.
fn is_split(identity: &Identity, cars: &[Car]) -> bool
    ensures { result ≡ splits_from identity.now cars.now }
{
    for (i, car) in cars.iter().enumerate() {
        if splits(car, identity, &cars[i + 1..]) {
            return true;
        }
    }
    false
}

/// Whether this car's consist goes on behind an inserted car.
fn is_parted_behind(car: &Car, behind: &[Car]) -> bool
    ensures { result ≡ (not (is_inserted car.now) && splits_from car.now.consist behind.now) }
{
    !is_inserted(car) && is_split(&car.consist, behind)
}

/// Whether an inserted car stands between two of one consist.
pub(crate) fn is_parted(cars: &[Car]) -> bool
    ensures { result ≡ is_parted cars.now }
{
    for (i, car) in cars.iter().enumerate() {
        if is_parted_behind(car, &cars[i + 1..]) {
            return true;
        }
    }
    false
}
