// The commands of a script.
use bench::calls::Call;
use train::entries::{Coupled, Vehicle};
use train::identity::Identity;
use train::name::Name;

/// A command to the console.
#[derive(Drop)]
pub enum Command {
    /// From here on commands go to this desk.
    Desk(Side),
    Compare {
        left: Source,
        right: Source,
        room: u16,
    },
    ToDesk(DeskCommand),
}

/// The first desk, or the second.
#[derive(Clone, Copy, PartialEq, Eq, Debug)]
pub enum Side {
    Left,
    Right,
}

/// Where consists come from: the opened book, or the roster.
#[derive(Clone, Copy, PartialEq, Eq, Debug)]
pub enum Source {
    Book,
    Roster,
}

/// A command to one desk.
#[derive(Drop)]
pub enum DeskCommand {
    Turn {
        formation: Vec<Coupled>,
    },
    Sc32 {
        seed: u32,
        bytes: Vec<u8>,
    },
    Import {
        room: u16,
        text: Vec<u8>,
    },
    Export {
        room: u16,
        book: Vec<u8>,
    },
    Open {
        bytes: Vec<u8>,
    },
    Name {
        k: u16,
    },
    Announce {
        identity: Identity,
        counter: u32,
        vehicles: Vec<Vehicle>,
    },
    Forget {
        identity: Identity,
    },
    Look {
        source: Source,
        identity: Identity,
    },
    Vehicle {
        source: Source,
        identity: Identity,
        k: u8,
    },
    Compose {
        source: Source,
        room: u16,
    },
    ToBench(BenchCommand),
}

/// A command to the bench of a desk.
#[derive(Drop)]
pub enum BenchCommand {
    Inaugurate {
        etb: u32,
        formation: Vec<Coupled>,
    },
    Claim {
        identity: Identity,
        vehicle: u8,
        direction: u8,
    },
    Yield {
        identity: Identity,
    },
    Confirm {
        names: Vec<Name>,
    },
    Withdraw,
}

impl BenchCommand {
    /// The call of the bench that this is.
    pub fn call(&self) -> Call<'_> {
        match self {
            BenchCommand::Inaugurate { etb, formation } => Call::Inaugurate {
                etb: *etb,
                formation: formation.as_slice(),
            },
            BenchCommand::Claim {
                identity,
                vehicle,
                direction,
            } => Call::Claim {
                identity: *identity,
                vehicle: *vehicle,
                direction: *direction,
            },
            BenchCommand::Yield { identity } => Call::Yield {
                identity: *identity,
            },
            BenchCommand::Confirm { names } => Call::Confirm {
                names: names.as_slice(),
            },
            BenchCommand::Withdraw => Call::Withdraw,
        }
    }
}
