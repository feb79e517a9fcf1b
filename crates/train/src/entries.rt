// What stands along a train: the vehicles of a consist, and the consists of a formation.
use crate::facing::Facing;
use crate::identity::Identity;
use crate::name::Name;

/// A vehicle, and which way it faces in its consist.
#[derive(Clone, Copy, Default, Debug)]
pub struct Vehicle {
    pub name: Name,
    pub facing: Facing,
}

/// An entry of a formation: a consist, and which way it faces in the train.
#[derive(Clone, Copy, Default, Debug)]
pub struct Coupled {
    pub identity: Identity,
    pub facing: Facing,
}
