// Fleet lists and books: checking one, importing and exporting.
ghost use Rattle.linkage.specs.Listings.{ListChecked, ListImported, BookExported, book_checked};
ghost use Rattle.linkage.specs.Told.{Tells, unlined};

use crate::answer::*;
use fleet_list::export::export_book;
use fleet_list::import::import_list;

/// Whether a text is the list of a fleet, as importing it would answer with room enough; the length
/// is that of its book.
#[unsafe(no_mangle)]
pub extern "C" fn yoltsjer_check_list(list: &[u8], answer: &mut Answer) -> u32
    ensures { ListChecked list.now result answer.new }
{
    let checked = with_room(import_list(list, &mut []));
    tell_length(checked, answer)
}

/// Writes the book of a list at the front of `out`; the length is that of the book.
#[unsafe(no_mangle)]
pub extern "C" fn yoltsjer_import_list(list: &[u8], out: &mut [u8], answer: &mut Answer) -> u32
    ensures { ListImported list.now out.old out.new result answer.new }
{
    let imported = import_list(list, out);
    tell_length(imported, answer)
}

/// Whether bytes are the book of a fleet, as exporting them would answer with room enough; the
/// length is that of its list.
#[unsafe(no_mangle)]
pub extern "C" fn yoltsjer_check_book(book: &[u8], answer: &mut Answer) -> u32
    ensures { Tells (unlined (book_checked book.now)) result answer.new }
{
    let checked = length_of(export_book(book, &mut []));
    tell_length(with_room(checked), answer)
}

/// Writes the list of a book at the front of `out`; answers its length and how many lines it has.
#[unsafe(no_mangle)]
pub extern "C" fn yoltsjer_export_book(book: &[u8], out: &mut [u8], answer: &mut Answer) -> u32
    ensures { BookExported book.now out.old out.new result answer.new }
{
    let exported = export_book(book, out);
    tell(exported, answer)
}
