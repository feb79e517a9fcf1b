// One call undoes the other.
ghost use Rattle.fleet_list.specs.Laws.{OneToOne, Examples};
ghost use Rattle.fleet_list.specs.Trips.{ListTrip, BookTrip};

use crate::export::export_book;
use crate::import::import_list;
use train::refusal::Refusal;

/// Imports a list into `book`, and exports that book into `back`, where the same text then stands;
/// answers the lengths of both.
pub fn list_round_trip(
    text: &[u8],
    book: &mut [u8],
    back: &mut [u8],
) -> Result<(usize, usize), Refusal>
    ensures { ListTrip text.now book.old book.new back.old back.new result }
{
    let len = import_list(text, book)?;
    let (bytes, _lines) = export_book(&book[0..len], back)?;
    Ok((len, bytes))
}

/// Exports a book into `text`, and imports that list into `back`, where the same book then stands;
/// answers the lengths of both.
pub fn book_round_trip(
    book: &[u8],
    text: &mut [u8],
    back: &mut [u8],
) -> Result<(usize, usize), Refusal>
    ensures { BookTrip book.now text.old text.new back.old back.new result }
{
    let (bytes, _lines) = export_book(book, text)?;
    let len = import_list(&text[0..bytes], back)?;
    Ok((bytes, len))
}

/// A book has one list and a list one book, and a text that is no list breaks at one place.
pub fn lists_and_books()
    ensures { OneToOne }
{}

/// Two worked examples: a name with a quote mark in it, and a line that breaks.
pub fn worked_examples()
    ensures { Examples }
{}
