// Importing a list: its fleet, written as a book.
ghost use Rattle.std.specs.Prelude.{◌≤◌, length};
ghost use Rattle.std.specs.List.{AllByRecursion};
ghost use Rattle.fleet_list.specs.Imports.{Imported, Decided, Stored};
ghost use Rattle.fleet_list.specs.Lists.{IsLine};
ghost use Rattle.fleet_list.specs.Consists.{items_in};

use crate::book_writer::put_book;
use crate::checks::*;
use crate::consists::Consists;
use crate::list_reader::read_list;
use crate::tables::*;
use train::refusal::{Part, Reason, Refusal};

// Makes the checks over the entries, and writes the book.
fn store(consists: Consists, out: &mut [u8]) -> Result<usize, Refusal>
    requires lines { AllByRecursion IsLine (items_in consists) }
    requires few { length consists.heads.now ≤ 200 }
    requires small { length consists.vehicles.now ≤ 2000 }
    ensures { Stored (items_in consists.entry) out.old out.new result }
{
    identities_rise(consists.heads)?;
    names_apart(consists)?;
    let need = FRAME + CONSIST * consists.heads.len() + VEHICLE * consists.vehicles.len();
    if out.len() < need {
        return Err(Refusal::at(Part::Text, Reason::BufferShort, need));
    }
    Ok(put_book(out, consists))
}

// Reads the list, and writes the book of its fleet.
fn read_and_store(text: &[u8], out: &mut [u8]) -> Result<usize, Refusal>
    ensures { Imported text.now out.old out.new result }
{
    let mut tables = Tables::new();
    read_list(text, &mut tables)?;
    if tables.lines > LINES {
        return Err(Refusal::at(Part::Text, Reason::ConsistCount, 0));
    }
    if tables.total > VEHICLES {
        return Err(Refusal::at(Part::Text, Reason::VehicleCount, 0));
    }
    store(tables.consists(), out)
}

/// Reads a fleet list, writes its fleet as a book at the front of `out`, and answers the length of
/// the book. A refusal alters no byte.
pub fn import_list(text: &[u8], out: &mut [u8]) -> Result<usize, Refusal>
    ensures answer { Imported text.now out.old out.new result }
    ensures decided { Decided text.now out.old result }
{
    read_and_store(text, out)
}
