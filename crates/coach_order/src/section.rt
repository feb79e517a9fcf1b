// The operational vehicles, read from a written composition.
ghost use Rattle.std.specs.Prelude.{◌≡◌, ◌<◌, ◌≤◌, drop, length, map, slice_index};
ghost use Rattle.fleet.specs.Rows.{rows};
ghost use Rattle.directory.specs.Part.{past as past_of, vehicles as vehicles_in, Section, Sections};
ghost use Rattle.coach_order.specs.Reads.{row_vehicle, vehicles_read};

use crate::order::Order;
use train::entries::Vehicle;
use train::facing::Facing;
use train::name::Name;

/// How many bytes stand before the sections.
const HEAD: usize = 16;

/// How many bytes a row of each section has.
const TRAIN: usize = 24;

const CONSIST: usize = 20;

const VEHICLE: usize = 24;

/// The rows of the section at the front, and what stands behind it.
fn split_section<const N: usize>(bytes: &[u8]) -> (&[[u8; N]], &[u8])
    requires wide { 0 < N }
    requires whole { Section N bytes.now }
    ensures rows { result.0.now ≡ rows N (slice_index bytes.now 0) (drop 1 bytes.now) }
    ensures past { result.1.now ≡ past_of N bytes.now }
{
    let count = bytes[0] as usize;
    let (section, past) = bytes[1..].split_at(N * count);
    let (rows, _) = section.as_chunks::<N>();
    (rows, past)
}

/// The vehicle of a row.
fn vehicle_of(row: &[u8; VEHICLE]) -> Vehicle
    ensures { result ≡ row_vehicle row.now }
{
    let name = row.first_chunk().unwrap();
    Vehicle {
        name: Name { bytes: *name },
        facing: Facing::try_from(row[20]).unwrap_or(Facing::NotKnown),
    }
}

/// The rows of the operational vehicles of a written composition.
fn vehicle_rows(composition: &[u8]) -> &[[u8; VEHICLE]]
    requires { Sections composition.now }
    ensures { result.now ≡ rows 24 (slice_index (vehicles_in composition.now) 0) (drop 1 (vehicles_in composition.now)) }
{
    let (_, operational) = split_section::<TRAIN>(&composition[HEAD..]);
    let (_, vehicles) = split_section::<CONSIST>(operational);
    let (rows, _) = split_section::<VEHICLE>(vehicles);
    rows
}

/// The vehicles of the rows.
fn vehicles_of(rows: &[[u8; VEHICLE]]) -> Order
    requires { length rows.now ≤ 63 }
    ensures { result.items ≡ map row_vehicle rows.now }
{
    let mut vehicles = Order::new();
    for row in rows {
        vehicles.push(vehicle_of(row));
    }
    vehicles
}

/// The operational vehicles of a written composition.
pub(crate) fn operational_vehicles(composition: &[u8]) -> Order
    requires written { Sections composition.now }
    requires room { slice_index (vehicles_in composition.now) 0 ≤ 63 }
    ensures { result.items ≡ vehicles_read composition.now }
{
    vehicles_of(vehicle_rows(composition))
}
