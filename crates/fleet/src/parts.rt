// The parts of a book, and all that opening checks.
ghost use Rattle.std.specs.Prelude.{◌≡◌, ◌≤◌, IfOk, length, take};
ghost use Rattle.train.specs.Refusals.{refusal_of, refusal};
ghost use Rattle.train.specs.declared.refusal.Part.TheVariants.{Book};
ghost use Rattle.fleet.specs.Rows.{sizes};
ghost use Rattle.fleet.specs.Books.{head_checks, book_checks};
ghost use Rattle.fleet.specs.Cuts.{Cut};

use crate::checks::*;
use crate::rows::size_of;
use train::refusal::{Part, Reason, Refusal};
use train::rows::{ConsistRow, FacedRow};

/// How many bytes an entry of a consist has, and one of a vehicle.
pub const CONSIST: usize = 21;

pub const VEHICLE: usize = 17;

/// The lent bytes of a book, cut into the entries of its consists and those of its vehicles.
#[derive(Clone, Copy)]
pub struct Parts<'a> {
    pub consists: &'a [ConsistRow],
    pub vehicles: &'a [FacedRow],
}

/// The parts, where the head is right and the length is what the two counts say.
fn cut<'a>(bytes: &'a [u8]) -> Result<Parts<'a>, Refusal>
    ensures answer { refusal_of result ≡ refusal Book (head_checks bytes.now) }
    ensures parts { IfOk result (λ p. Cut bytes.now p.consists.now p.vehicles.now) }
{
    let [1, 0, high, low, rest @ ..] = bytes else {
        return Err(Refusal::at(Part::Book, Reason::BookHead, 0));
    };
    let count = *high as usize * 256 + *low as usize;
    if count > 200 || rest.len() < count * CONSIST + 2 {
        return Err(Refusal::at(Part::Book, Reason::ConsistCount, 0));
    }
    let (entries, tail) = rest.split_at(count * CONSIST);
    let total = tail[0] as usize * 256 + tail[1] as usize;
    let table = &tail[2..];
    if total > 2000 || table.len() != total * VEHICLE {
        return Err(Refusal::at(Part::Book, Reason::VehicleCount, 0));
    }
    let (consists, _) = entries.as_chunks::<CONSIST>();
    let (vehicles, _) = table.as_chunks::<VEHICLE>();
    Ok(Parts { consists, vehicles })
}

/// How many vehicles the entries have together.
pub fn vehicles_in(consists: &[ConsistRow]) -> usize
    requires { length consists.now ≤ 200 }
    ensures { result ≡ sizes consists.now }
{
    consists.iter().map(|row| usize::from(size_of(row))).sum()
}

/// Makes every check, in order.
pub fn checked<'a>(bytes: &'a [u8]) -> Result<Parts<'a>, Refusal>
    ensures answer { refusal_of result ≡ refusal Book (book_checks bytes.now) }
    ensures parts { IfOk result (λ p. Cut bytes.now p.consists.now p.vehicles.now) }
{
    let parts = cut(bytes)?;
    let Parts { consists, vehicles } = parts;
    rising(consists)?;
    all_counted(consists)?;
    all_sized(consists)?;
    if vehicles_in(consists) != vehicles.len() {
        return Err(Refusal::at(Part::Book, Reason::VehicleSum, 0));
    }
    all_named(vehicles)?;
    all_faced(vehicles)?;
    all_apart(consists, vehicles)?;
    Ok(parts)
}
