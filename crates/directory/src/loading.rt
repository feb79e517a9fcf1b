// The vehicles of a formation, asked of the fleet and laid out in train order.
ghost use Rattle.std.specs.Prelude.{◌≡◌, ◌+◌, ◌≤◌, [], ◌++◌, length, Option as Maybe};
ghost use Rattle.train.specs.Refusals.{refusal_of, breach, each, alone};
ghost use Rattle.train.specs.declared.identity.Identity.{Identity as Id};
ghost use Rattle.train.specs.declared.refusal.Part.TheVariants.{Composing};
ghost use Rattle.train.specs.declared.refusal.Reason.TheVariants.{ConsistAbsent};
ghost use Rattle.fleet.specs.Fleets.{vehicles_of};
ghost use Rattle.bench.specs.Shown.{shown};
ghost use Rattle.bench.specs.declared.claims.Claim.{Claim as Claimed};
ghost use Rattle.directory.specs.Cars.{mark, cars as cars_from, stretch, train as train_of};
ghost use Rattle.directory.specs.Composing.{has};
ghost use Rattle.arrayvec.specs.ArrayVec.{array_vec_len};

use crate::cars::{Car, Cars};
use bench::claims::Claim;
use bench::state::Bench;
use fleet::questions::Fleet;
use train::checks::each_passes;
use train::entries::{Coupled, Vehicle};
use train::facing::Facing;
use train::identity::Identity;
use train::refusal::{Part, Reason, Refusal};
use train::turning::turn_all;

/// The last number that a vehicle of a consist can have.
const LAST: u8 = 32;

/// The claimed direction, if this is the claimed vehicle.
fn lead_mark(claim: Option<Claim>, k: u8) -> Facing
    ensures { result ≡ mark claim k }
{
    match claim {
        Some(claim) if claim.vehicle == k => claim.direction,
        _ => Facing::NotKnown,
    }
}

/// Lays out the vehicles of a consist, from its vehicle 1 on.
fn load_consist<F: Fleet>(fleet: &F, identity: &Identity, claim: Option<Claim>, cars: &mut Cars)
    requires { array_vec_len cars.old + length (vehicles_of (F.Meant.meaning fleet.now identity.now)) ≤ 63 }
    ensures { cars.new.items ≡ cars.old.items ++ cars_from identity.now claim 1 (vehicles_of (F.Meant.meaning fleet.now identity.now)) }
{
    for k in 0..LAST {
        let Some(vehicle) = fleet.vehicle(identity, k + 1) else {
            return;
        };
        cars.push(Car {
            consist: *identity,
            stance: Facing::Direct,
            name: vehicle.name,
            facing: vehicle.facing,
            lead: lead_mark(claim, k + 1),
        });
    }
}

/// Every consist of the formation is one of the fleet's.
pub(crate) fn consists_present<F: Fleet>(fleet: &F, formation: &[Coupled]) -> Result<(), Refusal>
    ensures { refusal_of result ≡ breach Composing (each (alone (has (F.Meant.meaning fleet.now))) ConsistAbsent formation.now) }
{
    each_passes(Part::Composing, Reason::ConsistAbsent, formation, |entry| {
        fleet.look_up(&entry.identity).is_some()
    })
}

/// How many vehicles a consist has; 0 where the fleet lacks it.
pub(crate) fn count_of<F: Fleet>(fleet: &F, identity: &Identity) -> usize
    ensures value { result ≡ length (vehicles_of (F.Meant.meaning fleet.now identity.now)) }
    ensures few { result ≤ 255 }
{
    fleet
        .look_up(identity)
        .map_or(0, |found| usize::from(found.count))
}

/// How many vehicles the formation has, whatever is claimed.
pub(crate) fn train_length<F: Fleet>(fleet: &F, formation: &[Coupled]) -> usize
    requires { length formation.now ≤ 63 }
    ensures { (claims : Id → Maybe Claimed) → result ≡ length (train_of (F.Meant.meaning fleet.now) claims formation.now) }
{
    formation
        .iter()
        .map(|entry| count_of(fleet, &entry.identity))
        .sum()
}

/// Lays out the vehicles of one entry of the formation, in train order.
fn load_entry<F: Fleet>(fleet: &F, bench: &Bench, entry: &Coupled, cars: &mut Cars)
    requires { array_vec_len cars.old + length (vehicles_of (F.Meant.meaning fleet.now entry.now.identity)) ≤ 63 }
    ensures { cars.new.items ≡ cars.old.items ++ stretch (F.Meant.meaning fleet.now) (shown bench.now).claims entry.now }
{
    let from = cars.len();
    let claim = bench.claim_of(&entry.identity);
    load_consist(fleet, &entry.identity, claim, cars);
    if entry.facing == Facing::Inverse {
        turn_all(&mut cars.as_mut_slice()[from..]);
    }
}

/// Lays out the vehicles of the formation, entry after entry.
pub(crate) fn load_train<F: Fleet>(fleet: &F, bench: &Bench, cars: &mut Cars)
    requires empty { cars.old.items ≡ [] }
    requires few { length (train_of (F.Meant.meaning fleet.now) (shown bench.now).claims (shown bench.now).formation) ≤ 63 }
    ensures { cars.new.items ≡ train_of (F.Meant.meaning fleet.now) (shown bench.now).claims (shown bench.now).formation }
{
    let formation = bench.formation();
    for entry in formation {
        load_entry(fleet, bench, entry, cars);
    }
}
