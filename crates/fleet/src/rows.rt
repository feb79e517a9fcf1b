// What an entry of a consist says, and what it must be.
ghost use Rattle.std.specs.Prelude.{◌≡◌};
ghost use Rattle.fleet.specs.Rows.{identity_of, counter_of, size_of, counted, sized};

use train::identity::Identity;
use train::rows::ConsistRow;

/// The identity of an entry of a consist.
pub fn identity_of(row: &ConsistRow) -> Identity
    ensures { result.bytes ≡ identity_of row.now }
{
    let mut bytes = [0; 16];
    bytes.copy_from_slice(&row[..16]);
    Identity { bytes }
}

/// Its counter.
pub fn counter_of(row: &ConsistRow) -> u32
    ensures { result ≡ counter_of row.now }
{
    u32::from_be_bytes([row[16], row[17], row[18], row[19]])
}

/// How many vehicles it has.
pub fn size_of(row: &ConsistRow) -> u8
    ensures { result ≡ size_of row.now }
{
    row[20]
}

pub(crate) fn is_counted(row: &ConsistRow) -> bool
    ensures { result ≡ counted row.now }
{
    counter_of(row) != 0
}

pub(crate) fn is_sized(row: &ConsistRow) -> bool
    ensures { result ≡ sized row.now }
{
    matches!(size_of(row), 1..=32)
}
