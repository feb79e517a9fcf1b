// Exporting a book: the list of its fleet.
ghost use Rattle.std.specs.Prelude.{◌^◌, ◌<◌, length};
ghost use Rattle.fleet_list.specs.Exports.{Exported, Shown};
ghost use Rattle.fleet_list.specs.Lists.{list_text};
ghost use Rattle.fleet_list.specs.Consists.{items_in};

use crate::book_reader::read_book;
use crate::consists::Consists;
use crate::tables::Tables;
use crate::text_size::list_size;
use crate::text_writer::put_list;
use fleet::book::Book;
use train::refusal::{Part, Reason, Refusal};

// Writes the list of these consists, where there is room for it.
fn show(consists: Consists, out: &mut [u8]) -> Result<(usize, usize), Refusal>
    requires { length (list_text (items_in consists)) < 2 ^ 64 }
    ensures { Shown (items_in consists.entry) out.old out.new result }
{
    let need = list_size(consists);
    if out.len() < need {
        return Err(Refusal::at(Part::Book, Reason::BufferShort, need));
    }
    let bytes = put_list(out, consists);
    Ok((bytes, consists.heads.len()))
}

/// Writes the list of the fleet that a book holds at the front of `out`, and answers how many bytes
/// and how many lines it has. A refusal alters no byte.
pub fn export_book(book: &[u8], out: &mut [u8]) -> Result<(usize, usize), Refusal>
    ensures { Exported book.now out.old out.new result }
{
    let mut opened = Book::new();
    opened.open(book)?;
    let mut tables = Tables::new();
    read_book(book, &mut tables);
    show(tables.consists(), out)
}
