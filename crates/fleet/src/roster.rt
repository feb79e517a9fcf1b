// The roster: at most 63 consists that are announced.
ghost use Rattle.std.specs.Prelude.{◌≡◌, ◌≤◌, true, length};
ghost use Rattle.fleet.specs.Seats.{sound_seats, apart_seats};

use arrayvec::ArrayVec;
use train::entries::Vehicle;
use train::identity::Identity;

pub mod calls;
mod seats;

/// The most vehicles of a consist.
const VEHICLES: usize = 32;

/// The most consists of a roster.
const CONSISTS: usize = 63;

/// A consist that is announced.
#[derive(Default, Drop)]
struct Seat {
    identity: Identity,
    counter: u32,
    vehicles: ArrayVec<Vehicle, VEHICLES>,
}

/// The consists that were announced and not forgotten.
#[derive(Drop)]
pub struct Roster {
    seats: ArrayVec<Seat, CONSISTS>,
    ghost few: { length seats.items ≤ 63 },
    ghost sound: { sound_seats seats.items ≡ true },
    ghost apart: { apart_seats seats.items ≡ true },
}
