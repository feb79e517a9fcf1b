// Composing: the fleet is asked, the checks are made in order, and the composition is written.
ghost use Rattle.std.specs.Prelude.{◌≡◌, ◌+◌, ◌*◌, ◌≤◌, [], ◌++◌, length, OnOk, MatchResult};
ghost use Rattle.train.specs.Refusals.{refusal, refusal_of, breach};
ghost use Rattle.train.specs.declared.refusal.Part.TheVariants.{Composing};
ghost use Rattle.bench.specs.Shown.{shown};
ghost use Rattle.directory.specs.Cars.{met, train as train_of, turned_car};
ghost use Rattle.directory.specs.Operation.{ordered, operational, orientation as orientation_of};
ghost use Rattle.directory.specs.Composing.{formation_checks, train_checks, order_checks, room_check, checks as checks_of};
ghost use Rattle.directory.specs.Sections.{composition};
ghost use Rattle.directory.specs.Whole.{standing};
ghost use Rattle.directory.specs.Written.{Written};

use crate::cars::{Car, Cars, MOST};
use crate::checks::{claims_in_reach, claims_standing, is_parted, orientation};
use crate::loading::{consists_present, load_train, train_length};
use crate::orders::{copy_to, in_order, names_apart, order_by};
use crate::rows::{ConsistRow, TrainRow, VehicleRow};
use crate::tables::{Rows, consist_rows, train_rows, vehicle_rows};
use crate::writing::{Head, Status, write_whole};
use bench::state::Bench;
use fleet::questions::Fleet;
use train::checks::require;
use train::facing::Facing;
use train::identity::Identity;
use train::name::Name;
use train::refusal::{Part, Reason, Refusal};
use train::turning::turn_all;

/// The checks of the formation.
fn check_formation<F: Fleet>(bench: &Bench, fleet: &F) -> Result<(), Refusal>
    ensures answer { refusal_of result ≡ refusal Composing (formation_checks (shown bench.now) (F.Meant.meaning fleet.now)) }
    ensures fits { OnOk result (length (train_of (F.Meant.meaning fleet.now) (shown bench.now).claims (shown bench.now).formation) ≤ 63) }
{
    let formation = bench.formation();
    require(Part::Composing, formation.len() >= 1, Reason::NoFormation)?;
    consists_present(fleet, formation)?;
    let count = train_length(fleet, formation);
    require(Part::Composing, count <= MOST, Reason::TrainLength)
}

/// The checks of the train's names and the claims.
fn check_train<F: Fleet>(bench: &Bench, fleet: &F, train: &[Car]) -> Result<(), Refusal>
    requires { train.now ≡ train_of (F.Meant.meaning fleet.now) (shown bench.now).claims (shown bench.now).formation }
    ensures { refusal_of result ≡ refusal Composing (train_checks (shown bench.now) (F.Meant.meaning fleet.now)) }
{
    names_apart(bench.formation(), train)?;
    require(
        Part::Composing,
        claims_standing(bench) <= 1,
        Reason::SeveralClaims,
    )?;
    claims_in_reach(fleet, bench)
}

/// Lays out the train from its head.
fn train_from_head(bench: &Bench, train: &[Car], head: &mut Cars)
    requires empty { head.old.items ≡ [] }
    requires few { length train.now ≤ 63 }
    ensures { head.new.items ≡ met turned_car (orientation_of (shown bench.now)) train.now }
{
    copy_to(train, head);
    if orientation(bench) == Facing::Inverse {
        turn_all(head.as_mut_slice());
    }
}

/// The checks of the confirmed list; lays out the operational order.
fn check_order(bench: &Bench, head: &[Car], cars: &mut Cars) -> Result<(), Refusal>
    requires empty { cars.old.items ≡ [] }
    requires few { length head.now ≤ 63 }
    ensures answer { refusal_of result ≡ refusal Composing (order_checks (shown bench.now).confirmed head.now) }
    ensures laid { OnOk result (cars.new.items ≡ ordered (shown bench.now).confirmed head.now) }
{
    let confirmed = bench.confirmed();
    require(
        Part::Composing,
        in_order(confirmed, head),
        Reason::ListOrder,
    )?;
    order_by(confirmed, head, cars);
    require(
        Part::Composing,
        !is_parted(cars.as_slice()),
        Reason::InsertedInside,
    )
}

/// Confirmed where a vehicle list stands.
fn status(bench: &Bench) -> Status
    ensures { result ≡ standing (shown bench.now) }
{
    if bench.confirmed().is_empty() {
        Status::Unconfirmed
    } else {
        Status::Confirmed
    }
}

/// What the header says besides its sections' counters.
fn head_of(bench: &Bench) -> Head
    ensures { result ≡ record { orientation = orientation_of (shown bench.now); status = standing (shown bench.now); etb = (shown bench.now).etb } }
{
    Head {
        orientation: orientation(bench),
        status: status(bench),
        etb: bench.etb_counter(),
    }
}

/// Writes the composition of a train that has been checked, if the buffer is long enough.
fn write_composition<F: Fleet>(
    bench: &Bench,
    fleet: &F,
    train: &[Car],
    cars: &[Car],
    out: &mut [u8],
) -> Result<usize, Refusal>
    requires train { train.now ≡ train_of (F.Meant.meaning fleet.now) (shown bench.now).claims (shown bench.now).formation }
    requires cars { cars.now ≡ operational (shown bench.now) (F.Meant.meaning fleet.now) }
    requires few { (length train.now ≤ 63) × (length cars.now ≤ 63) }
    ensures answer { refusal_of result ≡ breach Composing (room_check (shown bench.now) (F.Meant.meaning fleet.now) (length out.old)) }
    ensures wrote { MatchResult result (λ n. Written (composition (shown bench.now) (F.Meant.meaning fleet.now)) out.old n out.new) (λ _. out.new ≡ out.old) }
{
    let formation = bench.formation();
    let mut trains = Rows::new();
    train_rows(fleet, formation, &mut trains);
    let mut consists = Rows::new();
    consist_rows(cars, formation, &mut consists);
    let mut vehicles = Rows::new();
    vehicle_rows(cars, train, &mut vehicles);
    let need = 19 + 24 * trains.len() + 20 * consists.len() + 24 * vehicles.len();
    if out.len() < need {
        return Err(Refusal::at(Part::Composing, Reason::BufferShort, need));
    }
    let head = head_of(bench);
    Ok(write_whole(
        head,
        trains.as_slice(),
        consists.as_slice(),
        vehicles.as_slice(),
        out,
    ))
}

/// Composes the bench's facts over a fleet, and answers the length written.
pub fn compose<F: Fleet>(bench: &Bench, fleet: &F, out: &mut [u8]) -> Result<usize, Refusal>
    ensures answer { refusal_of result ≡ refusal Composing (checks_of (shown bench.now) (F.Meant.meaning fleet.now) (length out.old)) }
    ensures wrote { MatchResult result (λ n. Written (composition (shown bench.now) (F.Meant.meaning fleet.now)) out.old n out.new) (λ _. out.new ≡ out.old) }
{
    check_formation(bench, fleet)?;
    let mut train = Cars::new();
    load_train(fleet, bench, &mut train);
    check_train(bench, fleet, train.as_slice())?;
    let mut head = Cars::new();
    train_from_head(bench, train.as_slice(), &mut head);
    let mut cars = Cars::new();
    check_order(bench, head.as_slice(), &mut cars)?;
    write_composition(bench, fleet, train.as_slice(), cars.as_slice(), out)
}
