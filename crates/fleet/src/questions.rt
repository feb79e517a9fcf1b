// The questions that every fleet answers, by what it means.
ghost use Rattle.std.specs.Prelude.{◌≡◌, is_some, Option};
ghost use Rattle.train.specs.declared.identity.Identity.{Identity as Id};
ghost use Rattle.fleet.specs.Fleets.{Consist, Lawful, found_in, vehicle_in, vehicles_of, last_of};

use train::entries::Vehicle;
use train::identity::Identity;

/// What a look-up finds of a consist.
#[derive(Clone, Copy, PartialEq, Eq, Debug)]
pub struct Found {
    pub counter: u32,
    pub count: u8,
}

/// A fleet means, for each identity, nothing or one consist.
pub trait Meant {
    ghost meaning: { Self → Id → Option Consist };

    ghost lawful: { (fleet : Self) (id : Id) → Lawful (meaning fleet id) };
}

/// A fleet that can be asked; the questions alter nothing.
pub trait Fleet: Meant {
    /// The counter and the vehicle count of a consist; nothing where it is absent.
    fn look_up(&self, identity: &Identity) -> Option<Found>
        ensures { result ≡ found_in (Self.Meant.meaning self.now identity.now) };

    /// The k-th vehicle of a consist, counted from 1; nothing where there is none.
    fn vehicle(&self, identity: &Identity, k: u8) -> Option<Vehicle>
        ensures { result ≡ vehicle_in (Self.Meant.meaning self.now identity.now) k };
}

/// The last vehicle of a consist: every consist has one.
pub fn last_vehicle<F: Fleet>(fleet: &F, identity: &Identity) -> Option<Vehicle>
    ensures last { result ≡ last_of (vehicles_of (F.Meant.meaning fleet.now identity.now)) }
    ensures present { is_some result ≡ is_some (F.Meant.meaning fleet.now identity.now) }
{
    let found = fleet.look_up(identity)?;
    fleet.vehicle(identity, found.count)
}
