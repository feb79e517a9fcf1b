// A plan: a book, a formation, and what was claimed and confirmed on it.
ghost use Rattle.std.specs.Prelude.{[], ◌∷◌};
ghost use Rattle.bench.specs.Shown.{shown};
ghost use Rattle.linkage.specs.Plans.{Played, PlannedInto, Planned, coupling, claiming, confirming, steps, said};

use crate::answer::*;
use crate::entries::*;
use bench::state::{Bench, MOST};
use directory::composing::compose;
use fleet::book::Book;
use train::checks::require;
use train::entries::Coupled;
use train::identity::Identity;
use train::name::Name;
use train::refusal::{Part, Reason, Refusal};

/// A book, and a run of calls on a new bench, as lent bytes.
#[derive(Clone, Copy)]
struct Plan<'a> {
    book: &'a [u8],
    etb: u32,
    formation: &'a [u8],
    claimed: &'a [u8],
    vehicle: u8,
    direction: u8,
    confirmed: &'a [u8],
}

/// Couples the train, if the bytes are whole entries.
fn couple(bench: &mut Bench, etb: u32, formation: &[u8]) -> Result<(), Refusal>
    ensures { Played (shown bench.old) (coupling etb formation.now ∷ []) result (shown bench.new) }
{
    let rows = whole_entries::<COUPLED>(formation)?;
    if rows.len() > MOST {
        return refuse_long(etb, rows);
    }
    let entries = read(rows, |row| Coupled::from(*row));
    bench.inaugurate(etb, entries.as_slice())
}

/// Claims the cab that leads, if a consist is given.
fn claim_leading(
    bench: &mut Bench,
    claimed: &[u8],
    vehicle: u8,
    direction: u8,
) -> Result<(), Refusal>
    ensures { Played (shown bench.old) (claiming claimed.now vehicle direction) result (shown bench.new) }
{
    if claimed.is_empty() {
        return Ok(());
    }
    let Ok(bytes) = claimed.try_into() else {
        return Err(Refusal::at(Part::Bench, Reason::IdentityOrder, 0));
    };
    bench.claim(Identity { bytes }, vehicle, direction)
}

/// Confirms the vehicle list, if one is given and the bytes are whole names.
fn confirm_names(bench: &mut Bench, confirmed: &[u8]) -> Result<(), Refusal>
    ensures { Played (shown bench.old) (confirming confirmed.now) result (shown bench.new) }
{
    if confirmed.is_empty() {
        return Ok(());
    }
    let rows = whole_entries::<LABEL>(confirmed)?;
    require(Part::Bench, rows.len() <= MOST, Reason::EntryCount)?;
    let names = read(rows, |row| Name { bytes: *row });
    bench.confirm(names.as_slice())
}

/// Plays the run of a plan.
fn play_run(bench: &mut Bench, plan: &Plan<'_>) -> Result<(), Refusal>
    ensures { Played (shown bench.old) (steps (said plan.now)) result (shown bench.new) }
{
    couple(bench, plan.etb, plan.formation)?;
    claim_leading(bench, plan.claimed, plan.vehicle, plan.direction)?;
    confirm_names(bench, plan.confirmed)
}

/// Opens the book, plays the run on a new bench, and composes it into `out`.
fn plan_into(plan: &Plan<'_>, out: &mut [u8]) -> Result<usize, Refusal>
    ensures { PlannedInto (said plan.now) result out.old out.new }
{
    let mut book = Book::new();
    book.open(plan.book)?;
    let mut bench = Bench::new();
    play_run(&mut bench, plan)?;
    compose(&bench, &book, out)
}

/// Opens the book, couples the formation's entries of 17 bytes on a new bench, claims and confirms
/// what is given, and writes the composition at the front of `out`. The first refusal met is the
/// answer, and alters no byte.
#[unsafe(no_mangle)]
pub extern "C" fn yoltsjer_plan<'a>(
    book: &'a [u8],
    etb_counter: u32,
    formation: &'a [u8],
    claimed: &'a [u8],
    vehicle: u8,
    direction: u8,
    confirmed: &'a [u8],
    out: &mut [u8],
    answer: &mut Answer,
) -> u32
    ensures { Planned (record { book = book.now; etb = etb_counter; formation = formation.now; claimed = claimed.now; vehicle = vehicle; direction = direction; confirmed = confirmed.now }) out.old out.new result answer.new }
{
    let plan = Plan {
        book,
        etb: etb_counter,
        formation,
        claimed,
        vehicle,
        direction,
        confirmed,
    };
    let planned = plan_into(&plan, out);
    tell_length(planned, answer)
}
