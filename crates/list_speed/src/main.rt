// Prints how long the book of the list in the input is, and the list of that book, and on the second stream
// how many microseconds 200 imports and 200 exports took.
#![tactic(auto)]

use fleet_list::export::export_book;
use fleet_list::import::import_list;
use std::io;
use std::io::Read;
use std::time::Instant;

const TIMES: usize = 200;

// Room for a full book, and for the longest list.
const BOOK: usize = 38206;

const LIST: usize = 76800;

fn main(rt: HostRuntime) -> io::Result<()> {
    let mut text = Vec::new(rt.alloc());
    let mut input = rt.stdin();
    input.read_to_end(&mut text)?;
    let mut book = vec![in rt.alloc(); 0; BOOK]?;
    let mut list = vec![in rt.alloc(); 0; LIST]?;

    let mut imported = import_list(text.as_slice(), book.as_mut_slice());
    let start = Instant::now(&rt)?;
    for _ in 0..TIMES {
        imported = import_list(text.as_slice(), book.as_mut_slice());
    }
    let import_took = start.elapsed(&rt)?.as_micros();
    let Ok(length) = imported else {
        return println!(rt; "refused");
    };
    println!(rt; "book {length}")?;
    book.truncate(length);

    let mut exported = export_book(book.as_slice(), list.as_mut_slice());
    let start = Instant::now(&rt)?;
    for _ in 0..TIMES {
        exported = export_book(book.as_slice(), list.as_mut_slice());
    }
    let export_took = start.elapsed(&rt)?.as_micros();
    let Ok((bytes, _)) = exported else {
        return println!(rt; "refused");
    };
    eprintln!(rt; "{import_took} {export_took}")?;
    println!(rt; "list {bytes}")
}
