// The entries of a formation and of a confirmed list, in lent bytes.
ghost use Rattle.std.specs.Prelude.{◌≡◌, ◌<◌, ◌≤◌, ◌%◌, ◌==◌, true, IfOk, map, length, is_err};
ghost use Rattle.train.specs.Closures.{Gives};
ghost use Rattle.train.specs.Refusals.{breach, must, refusal, refusal_of};
ghost use Rattle.train.specs.Rows.{coupled_in};
ghost use Rattle.train.specs.declared.refusal.Part.TheVariants.{Bench as OfBench};
ghost use Rattle.train.specs.declared.refusal.Reason.TheVariants.{EntryCount};
ghost use Rattle.bench.specs.Calls.{Call};
ghost use Rattle.bench.specs.Facts.{nothing, checks as checks_of};
ghost use Rattle.linkage.specs.Plans.{entries};

use arrayvec::ArrayVec;
use bench::state::MOST;
use train::checks::{identities_well_formed, require};
use train::refusal::{Part, Reason, Refusal};
use train::rows::FacedRow;

/// The bytes of an entry of a formation: identity and facing.
pub(crate) const COUPLED: usize = 17;

/// The bytes of a label: an identity, or a name.
pub(crate) const LABEL: usize = 16;

/// Lent bytes as entries of `N` bytes, if they are whole entries.
pub(crate) fn whole_entries<const N: usize>(bytes: &[u8]) -> Result<&[[u8; N]], Refusal>
    requires { 0 < N }
    ensures answer { refusal_of result ≡ breach OfBench (must (length bytes.now % N == 0) EntryCount) }
    ensures rows { IfOk result (λ rows. rows.now ≡ entries N bytes.now) }
{
    let (rows, rest) = bytes.as_chunks::<N>();
    require(Part::Bench, rest.is_empty(), Reason::EntryCount)?;
    Ok(rows)
}

/// What each entry is read as, in a list as long as a bench takes.
pub(crate) fn read<R, T: Copy + Default, F: Fn(&R) -> T>(rows: &[R], form: F) -> ArrayVec<T, MOST>
    requires callable { F.IsAlwaysCallable form }
    requires room { length rows.now ≤ 63 }
    ensures { (of : R → T) → Gives F.Fn form of → result.items ≡ map of rows.now }
{
    let mut list = ArrayVec::new();
    for row in rows {
        list.push(form(row));
    }
    list
}

/// The refusal of a formation with more entries than a bench takes.
pub(crate) fn refuse_long(etb: u32, rows: &[FacedRow]) -> Result<(), Refusal>
    requires { 63 < length rows.now }
    ensures answer { refusal_of result ≡ refusal OfBench (checks_of nothing (Call.inaugurate etb (map coupled_in rows.now))) }
    ensures never { is_err result ≡ true }
{
    identities_well_formed(Part::Bench, rows)?;
    require(Part::Bench, etb > 0, Reason::ZeroCounter)?;
    Err(Refusal::at(Part::Bench, Reason::EntryCount, 0))
}
