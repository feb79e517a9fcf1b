// The vehicles of a train as they stand along it.
ghost use Rattle.std.specs.Prelude.{◌≡◌};
ghost use Rattle.directory.specs.Cars.{turned_car};
ghost use Rattle.directory.specs.Operation.{strange};
ghost use Rattle.std.proofs.Common.{rules};

use arrayvec::ArrayVec;
use train::facing::Facing;
use train::identity::Identity;
use train::name::Name;
use train::turning::Turn;

/// The most vehicles of a train, and the most consists.
pub const MOST: usize = 63;

/// The vehicles of a train, in some order.
pub(crate) type Cars = ArrayVec<Car, MOST>;

/// A vehicle as it stands along the train, with its consist and that consist's facing. Of an inserted
/// vehicle the identity is zero and the facings are not known. `lead` is the claimed direction of the
/// leading vehicle, and not known for every other.
#[derive(Clone, Copy, Default)]
pub struct Car {
    pub consist: Identity,
    pub stance: Facing,
    pub name: Name,
    pub facing: Facing,
    pub lead: Facing,
}

impl Car {
    /// An inserted vehicle: of no consist of the train, and nothing known of its facing.
    pub(crate) fn inserted(name: Name) -> Car
        ensures { result ≡ strange name }
    {
        Car {
            consist: Identity { bytes: [0; 16] },
            stance: Facing::NotKnown,
            name,
            facing: Facing::NotKnown,
            lead: Facing::NotKnown,
        }
    }
}

impl Turn for Car {
    ghost turned = { turned_car };

    ghost twice = { Prim.search rules };

    fn turn(self) -> Car {
        Car {
            consist: self.consist,
            stance: self.stance.opposed(),
            name: self.name,
            facing: self.facing.opposed(),
            lead: self.lead,
        }
    }
}
