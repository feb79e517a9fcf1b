// The rows of a composition: along the formation, and from the head of the train.
ghost use Rattle.std.specs.Prelude.{◌≡◌, ◌+◌, ◌≤◌, [], map, length, if◌then◌else◌};
ghost use Rattle.std.specs.Str.{bytes_eq};
ghost use Rattle.fleet.specs.Fleets.{vehicles_of};
ghost use Rattle.directory.specs.Rows.{train_row_of, consist_row_of, vehicle_row_of};
ghost use Rattle.directory.specs.Sections.{counter_of, firsts, seats, nobody};

use crate::cars::{Car, MOST};
use crate::orders::{consist_number, vehicle_number};
use crate::rows::{ConsistRow, TrainRow, VehicleRow};
use arrayvec::ArrayVec;
use fleet::questions::Fleet;
use train::entries::Coupled;
use train::identity::Identity;
use train::octets;

/// The rows of a section.
pub(crate) type Rows<R> = ArrayVec<R, MOST>;

/// The counter of a consist; 0 where the fleet lacks it.
fn counter_of<F: Fleet>(fleet: &F, identity: &Identity) -> u32
    ensures { result ≡ counter_of (F.Meant.meaning fleet.now identity.now) }
{
    fleet.look_up(identity).map_or(0, |found| found.counter)
}

/// The rows of the train consists, along the formation.
pub(crate) fn train_rows<F: Fleet>(fleet: &F, formation: &[Coupled], table: &mut Rows<TrainRow>)
    requires empty { table.old.items ≡ [] }
    requires few { length formation.now ≤ 63 }
    ensures { table.new.items ≡ map (train_row_of (F.Meant.meaning fleet.now)) formation.now }
{
    for entry in formation {
        table.push(TrainRow {
            identity: entry.identity,
            counter: counter_of(fleet, &entry.identity),
            facing: entry.facing,
        });
    }
}

/// The row of the operational consist that begins with this car.
fn consist_row(car: &Car, formation: &[Coupled]) -> ConsistRow
    requires { length formation.now ≤ 63 }
    ensures { result ≡ consist_row_of formation.now car.now }
{
    ConsistRow {
        identity: car.consist,
        facing: car.stance,
        number: consist_number(&car.consist, formation) as u8,
    }
}

/// The rows of the operational consists, one for each unbroken run of a consist's cars.
pub(crate) fn consist_rows(cars: &[Car], formation: &[Coupled], table: &mut Rows<ConsistRow>)
    requires empty { table.old.items ≡ [] }
    requires few { length formation.now ≤ 63 }
    requires room { length cars.now ≤ 63 }
    ensures { table.new.items ≡ map (consist_row_of formation.now) (firsts nobody cars.now) }
{
    let mut prior: &[u8] = &[];
    for car in cars {
        if octets::same(prior, &car.consist.bytes) {
            continue;
        }
        table.push(consist_row(car, formation));
        prior = &car.consist.bytes;
    }
}

/// The number of the run that this car belongs to, behind a car of the consist `prior` in the run `run`.
fn run_of(prior: &[u8], car: &Car, run: usize) -> usize
    requires { run ≤ 63 }
    ensures value { result ≡ (if bytes_eq prior.now car.now.consist.bytes then run else run + 1) }
    ensures few { result ≤ run + 1 }
{
    if octets::same(prior, &car.consist.bytes) {
        run
    } else {
        run + 1
    }
}

/// The row of an operational vehicle.
fn vehicle_row(car: &Car, train: &[Car], run: usize) -> VehicleRow
    requires few { length train.now ≤ 63 }
    requires ran { run ≤ 63 }
    ensures { result ≡ vehicle_row_of train.now (record { car = car.now; run = run }) }
{
    VehicleRow {
        name: car.name,
        lead: car.lead,
        number: vehicle_number(&car.name, train) as u8,
        facing: car.facing,
        run: run as u8,
    }
}

/// The rows of the operational vehicles.
pub(crate) fn vehicle_rows(cars: &[Car], train: &[Car], table: &mut Rows<VehicleRow>)
    requires empty { table.old.items ≡ [] }
    requires few { length train.now ≤ 63 }
    requires room { length cars.now ≤ 63 }
    ensures { table.new.items ≡ map (vehicle_row_of train.now) (seats 0 nobody cars.now) }
{
    let mut prior: &[u8] = &[];
    let mut run = 0;
    for car in cars {
        run = run_of(prior, car, run);
        table.push(vehicle_row(car, train, run));
        prior = &car.consist.bytes;
    }
}
