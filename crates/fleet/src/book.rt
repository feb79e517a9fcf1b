// A book: the lent bytes of a fleet, and the entries that stand in them.
ghost use Rattle.std.specs.Prelude.{◌≡◌, ◌*◌, ◌≤◌, true, false, length, is_some};
ghost use Rattle.train.specs.Refusals.{refusal};
ghost use Rattle.train.specs.declared.refusal.Part.TheVariants.{Book as InBook};
ghost use Rattle.fleet.specs.Rows.{sizes, entry_checks};
ghost use Rattle.fleet.specs.Books.{count_of, entries_of, total_of, table_of, consist_rows, vehicle_rows};
ghost use Rattle.fleet.specs.Bytes.{bytes_in};

use train::rows::{ConsistRow, FacedRow};

pub mod calls;
mod consists;

/// An opened book; before the first opening it holds nothing.
#[derive(Drop)]
pub struct Book<'a> {
    bytes: &'a [u8],
    consists: &'a [ConsistRow],
    vehicles: &'a [FacedRow],
    ghost parted: { consists.now ≡ consist_rows bytes.now },
    ghost listed: { vehicles.now ≡ vehicle_rows bytes.now },
    ghost long: { length (entries_of bytes.now) ≡ 21 * count_of bytes.now },
    ghost tall: { length (table_of bytes.now) ≡ 17 * total_of bytes.now },
    ghost few: { length consists.now ≤ 200 },
    ghost small: { length vehicles.now ≤ 2000 },
    ghost sum: { sizes consists.now ≡ length vehicles.now },
    ghost sound: { is_some (refusal InBook (entry_checks consists.now (length vehicles.now) vehicles.now)) ≡ false },
    ghost octets: { bytes_in (entries_of bytes.now) ≡ true },
}

/// The bytes of a book that hold a name, and where they begin in it, counted from 0.
#[derive(Clone, Copy)]
pub struct NamePart<'a> {
    pub offset: usize,
    pub bytes: &'a [u8],
}
