// Turning: one rule for everything that stands along a train.
ghost use Rattle.std.specs.Prelude.{◌≡◌, List, ◌++◌};
ghost use Rattle.train.specs.Turning.{turned_list, turned_coupled, turned_vehicle, TurnedExample};
ghost use Rattle.std.proofs.Common.{rules};

use crate::entries::{Coupled, Vehicle};

/// An entry that can be seen from the other end of the train.
pub trait Turn: Sized {
    ghost turned: { Self → Self };

    fn turn(self) -> Self
        ensures { result ≡ turned self };

    ghost twice: { (x : Self) → turned (turned x) ≡ x };
}

impl Turn for Coupled {
    ghost turned = { turned_coupled };

    ghost twice = { Prim.search rules };

    fn turn(self) -> Coupled {
        Coupled {
            identity: self.identity,
            facing: self.facing.opposed(),
        }
    }
}

impl Turn for Vehicle {
    ghost turned = { turned_vehicle };

    ghost twice = { Prim.search rules };

    fn turn(self) -> Vehicle {
        Vehicle {
            name: self.name,
            facing: self.facing.opposed(),
        }
    }
}

/// Turns a list in place: its order is reversed, and each entry turned.
pub fn turn_all<T: Turn + Copy>(entries: &mut [T])
    ensures { entries.new ≡ turned_list T.turned entries.old }
{
    entries.reverse();
    for x in entries.iter_mut() {
        *x = x.turn();
    }
}

/// For every kind of entry: a list turned twice is itself, and two joined lists turn into their
/// turns joined the other way round.
pub fn turning_laws<T: Turn>()
    ensures twice { (xs : List T) → turned_list T.Turn.turned (turned_list T.Turn.turned xs) ≡ xs }
    ensures joined { (xs ys : List T) → turned_list T.Turn.turned (xs ++ ys) ≡ turned_list T.Turn.turned ys ++ turned_list T.Turn.turned xs }
{}

/// A worked example: A inverse, B direct turns into B inverse, A direct.
pub fn turned_example()
    ensures { TurnedExample }
{}
