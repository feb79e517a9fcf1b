// Consists in tables: a head for each, and the vehicles of all of them one behind another.
ghost use Rattle.std.specs.Prelude.{◌≡◌, ◌≤◌, take};
ghost use Rattle.fleet_list.specs.Entries.{head_of, head_identity};
ghost use Rattle.fleet_list.specs.Tables.{counts};

use crate::consists::Consists;
use fleet::rows::{counter_of, identity_of, size_of};
use train::checks::Labelled;
use train::entries::Vehicle;
use train::identity::Identity;
use train::rows::ConsistRow;

pub const LINES: usize = 200;

pub const VEHICLES: usize = 2000;

pub const LONGEST: usize = 32;

// One line more than a fleet has, and its vehicles.
pub const HEADS: usize = 201;

pub const ROOM: usize = 2032;

// How long the entries of a book are, and all that stands beside them.
pub const CONSIST: usize = 21;

pub const VEHICLE: usize = 17;

pub const FRAME: usize = 6;

// A consist without its vehicles, and how many it has.
#[derive(Clone, Copy, Default)]
pub struct Head {
    pub identity: Identity,
    pub counter: u32,
    pub count: u8,
}

impl Labelled for Head {
    ghost labels = { head_identity };

    fn label(&self) -> &[u8] {
        &self.identity.bytes
    }
}

impl From<ConsistRow> for Head {
    ghost from_gives = { λ row head. head ≡ head_of row };

    fn from(row: ConsistRow) -> Head {
        Head {
            identity: identity_of(&row),
            counter: counter_of(&row),
            count: size_of(&row),
        }
    }
}

/// How many consists and vehicles were read, and the tables that hold them where there is room for all.
#[derive(Drop)]
pub struct Tables {
    pub heads: [Head; HEADS],
    pub lines: usize,
    pub vehicles: [Vehicle; ROOM],
    pub total: usize,
}

impl Tables {
    pub fn new() -> Tables
        ensures lines { result.lines ≡ 0 }
        ensures total { result.total ≡ 0 }
    {
        Tables {
            heads: [Head::default(); HEADS],
            lines: 0,
            vehicles: [Vehicle::default(); ROOM],
            total: 0,
        }
    }

    /// The consists, which are not too many.
    pub fn consists(&self) -> Consists<'_>
        requires few { self.now.lines ≤ 200 }
        requires small { self.now.total ≤ 2000 }
        requires sums { counts (take self.now.lines self.now.heads) ≡ self.now.total }
        ensures heads { result.heads.now ≡ take self.now.lines self.now.heads }
        ensures vehicles { result.vehicles.now ≡ take self.now.total self.now.vehicles }
    {
        Consists {
            heads: &self.heads[0..self.lines],
            vehicles: &self.vehicles[0..self.total],
        }
    }
}
