// The coach order of a fleet list.
ghost use Rattle.std.specs.Prelude.{◌≡◌, ◌≤◌, length, IfOk, IfErr};
ghost use Rattle.train.specs.Refusals.{refusal_of};
ghost use Rattle.fleet.specs.Books.{IsFleet, vehicles_in};
ghost use Rattle.fleet.specs.Held.{held};
ghost use Rattle.bench.specs.Shown.{shown};
ghost use Rattle.coach_order.specs.Orders.{facts_of, inaugurated, uncoupled};
ghost use Rattle.coach_order.specs.Ordered.{IsOrder, Refused, Ordered, Decided};

use crate::coupling::couple_all;
use crate::section::operational_vehicles;
use arrayvec::ArrayVec;
use bench::state::Bench;
use directory::cars::MOST;
use directory::composing::compose;
use fleet::book::Book;
use fleet_list::import::import_list;
use train::entries::Vehicle;
use train::refusal::Refusal;

/// The vehicles of a train from the head.
pub type Order = ArrayVec<Vehicle, MOST>;

/// The length of a full book: 200 consists and 2000 vehicles.
const BOOK: usize = 38206;

/// The length of the longest composition: 63 consists and 63 vehicles.
const COMPOSITION: usize = 4303;

/// A bench on which all consists of a book are coupled, each direct, with ETB counter 1.
fn couple_on_bench(book: &Book<'_>) -> Result<Bench, Refusal>
    requires { length (held book.now) ≤ 200 }
    ensures answer { refusal_of result ≡ inaugurated (held book.now) }
    ensures facts { IfOk result (λ bench. shown bench ≡ facts_of (held book.now)) }
{
    let mut bench = Bench::new();
    bench.inaugurate(1, couple_all(book).as_slice())?;
    Ok(bench)
}

/// Composes all consists of a book: its vehicles from the head.
fn compose_all(book: &Book<'_>) -> Result<Order, Refusal>
    requires { IsFleet (held book.now) }
    ensures answer { refusal_of result ≡ uncoupled (held book.now) }
    ensures order { IfOk result (λ vehicles. vehicles.items ≡ vehicles_in (held book.now)) }
{
    let bench = couple_on_bench(book)?;
    // A buffer and the length that was written: the call fills what it is lent, and nothing is allocated here.
    let mut out = [0; COMPOSITION];
    let length = compose(&bench, book, &mut out)?;
    Ok(operational_vehicles(&out[..length]))
}

/// Composes all consists of a fleet list in its order, each direct, with ETB counter 1, no claim and no confirmed
/// list: the vehicles from the head.
pub fn order_from_head(list: &[u8]) -> Result<Order, Refusal>
    ensures order { IfOk result (λ vehicles. IsOrder list.now vehicles.items) }
    ensures refused { IfErr result (Refused list.now) }
    ensures decided { Decided list.now result }
{
    // A buffer and the length that was written, as above.
    let mut bytes = [0; BOOK];
    let length = import_list(list, &mut bytes)?;
    let mut book = Book::new();
    book.open(&bytes[..length])?;
    compose_all(&book)
}

/// Lays out the vehicles of `order_from_head` at the front of `vehicles`, and answers how many there are.
pub fn coach_order(list: &[u8], vehicles: &mut [Vehicle; MOST]) -> Result<usize, Refusal>
    ensures answer { Ordered list.now vehicles.old vehicles.new result }
    ensures decided { Decided list.now result }
{
    let order = order_from_head(list)?;
    let count = order.len();
    vehicles[..count].copy_from_slice(order.as_slice());
    Ok(count)
}
