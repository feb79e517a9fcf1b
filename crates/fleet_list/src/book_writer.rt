// Writing a book from tables.
ghost use Rattle.std.specs.Prelude.{◌<◌, ◌≤◌, length};
ghost use Rattle.std.specs.List.{flat_map};
ghost use Rattle.fleet.specs.Books.{book_of, two, vehicle_row};
ghost use Rattle.fleet_list.specs.Entries.{head_row};
ghost use Rattle.fleet_list.specs.Consists.{items_in};
ghost use Rattle.fleet_list.specs.Writes.{Written};

use crate::consists::Consists;
use crate::forms::{Form, put_each};
use crate::tables::Head;
use train::entries::Vehicle;

const VERSION: u8 = 1;

const RELEASE: u8 = 0;

fn put_bytes(out: &mut [u8], bytes: &[u8]) -> usize
    requires { length bytes.now ≤ length out.old }
    ensures { Written bytes.now out.old result out.new }
{
    out[0..bytes.len()].copy_from_slice(bytes);
    bytes.len()
}

// A number in two bytes, high byte first.
fn put_count(out: &mut [u8], n: usize) -> usize
    requires room { 2 ≤ length out.old }
    requires small { n < 65536 }
    ensures { Written (two n) out.old result out.new }
{
    put_bytes(out, &(n as u16).to_be_bytes())
}

/// The rows of a book.
struct Row;

// The entry of a consist: identity, counter, vehicle count.
impl Form<Head> for Row {
    ghost bytes = { head_row };

    fn put(out: &mut [u8], head: &Head) -> usize {
        let mut at = put_bytes(out, &head.identity.bytes);
        at += put_bytes(&mut out[at..], &head.counter.to_be_bytes());
        out[at] = head.count;
        at + 1
    }
}

// The entry of a vehicle: name, facing.
impl Form<Vehicle> for Row {
    ghost bytes = { vehicle_row };

    fn put(out: &mut [u8], vehicle: &Vehicle) -> usize {
        let at = put_bytes(out, &vehicle.name.bytes);
        out[at] = vehicle.facing.number();
        at + 1
    }
}

// The book of these consists.
pub fn put_book(out: &mut [u8], consists: Consists) -> usize
    requires small { (length consists.heads.now < 65536) × (length consists.vehicles.now < 65536) }
    requires room { length (book_of (items_in consists)) ≤ length out.old }
    ensures { Written (book_of (items_in consists.entry)) out.old result out.new }
{
    let Consists { heads, vehicles } = consists;
    let mut at = put_bytes(out, &[VERSION, RELEASE]);
    at += put_count(&mut out[at..], heads.len());
    at += put_each::<Row, Head>(&mut out[at..], heads);
    at += put_count(&mut out[at..], vehicles.len());
    at += put_each::<Row, Vehicle>(&mut out[at..], vehicles);
    at
}
