// Entries as bytes: sixteen bytes of a label, and what stands behind them.
ghost use Rattle.std.specs.Prelude.{◌≡◌, take};
ghost use Rattle.train.specs.Rows.{label_in, facing_in, vehicle_in, coupled_in};

use crate::checks::{Faced, Labelled};
use crate::entries::{Coupled, Vehicle};
use crate::facing::Facing;
use crate::identity::Identity;
use crate::name::Name;

/// A label and the number of a facing: a vehicle of a book, or a consist of a formation.
pub type FacedRow = [u8; 17];

/// An identity, a counter and a vehicle count: a consist of a book.
pub type ConsistRow = [u8; 21];

impl Labelled for ConsistRow {
    ghost labels = { label_in };

    fn label(&self) -> &[u8] {
        &self[..16]
    }
}

fn sixteen(row: &FacedRow) -> [u8; 16]
    ensures { result ≡ label_in row.now }
{
    let mut bytes = [0; 16];
    bytes.copy_from_slice(&row[..16]);
    bytes
}

impl Labelled for FacedRow {
    ghost labels = { label_in };

    fn label(&self) -> &[u8] {
        &self[..16]
    }
}

impl Faced for FacedRow {
    ghost faces = { facing_in };

    fn way(&self) -> Facing {
        Facing::try_from(self[16]).unwrap_or(Facing::NotKnown)
    }
}

impl From<FacedRow> for Vehicle {
    ghost from_gives = { λ row vehicle. vehicle ≡ vehicle_in row };

    fn from(row: FacedRow) -> Vehicle {
        Vehicle {
            name: Name {
                bytes: sixteen(&row),
            },
            facing: row.way(),
        }
    }
}

impl From<FacedRow> for Coupled {
    ghost from_gives = { λ row entry. entry ≡ coupled_in row };

    fn from(row: FacedRow) -> Coupled {
        Coupled {
            identity: Identity {
                bytes: sixteen(&row),
            },
            facing: row.way(),
        }
    }
}
