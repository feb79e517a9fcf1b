// Opens the book of the list in the input, asks it for every vehicle, and composes its consists, each direct and the
// last one leading from its last vehicle, without and with a confirmed list. Prints what came of it, and on the second
// stream how many nanoseconds each took, for one book or one train.
#![tactic(auto)]

use bench::state::Bench;
use directory::composing::compose;
use fleet::book::Book;
use fleet::questions::Fleet;
use fleet_list::import::import_list;
use std::alloc::{AllocError, Global};
use std::io;
use std::io::Read;
use std::time::Instant;
use train::entries::Coupled;
use train::facing::Facing;
use train::name::Name;

const TIMES: usize = 200;

/// Room for a full book, and for the longest composition.
const BOOK: usize = 38206;

const COMPOSITION: usize = 4303;

/// How many vehicles the book answers with a facing, asked one by one.
fn asked(book: &Book<'_>) -> usize {
    let mut known = 0usize;
    for k in 1..201 {
        if let Some(identity) = book.identity(k)
            && let Some(found) = book.look_up(&identity)
        {
            for j in 0..found.count {
                if let Some(vehicle) = book.vehicle(&identity, j.saturating_add(1))
                    && vehicle.facing.is_known()
                {
                    known = known.saturating_add(1);
                }
            }
        }
    }
    known
}

/// All consists of the book, each direct.
fn formation(heap: Global, book: &Book<'_>) -> Result<Vec<Coupled>, AllocError> {
    let mut entries = Vec::new(heap);
    for k in 1..201 {
        if let Some(identity) = book.identity(k) {
            entries.push(Coupled {
                identity,
                facing: Facing::Direct,
            })?;
        }
    }
    Ok(entries)
}

/// A bench with the formation, led from the last vehicle of its last consist.
fn led(book: &Book<'_>, entries: &[Coupled]) -> Bench {
    let mut bench = Bench::new();
    let _ = bench.inaugurate(1, entries);
    if let Some(last) = entries.last()
        && let Some(found) = book.look_up(&last.identity)
    {
        let _ = bench.claim(last.identity, found.count, 2);
    }
    bench
}

/// The names of the train from its head: those of the book from its end, since the train is turned.
fn names_from_head(heap: Global, book: &Book<'_>) -> Result<Vec<Name>, AllocError> {
    let mut names = Vec::new(heap);
    for k in 1..2001 {
        if let Some(part) = book.name(k)
            && part.bytes.len() == 16
        {
            let mut bytes = [0; 16];
            bytes.copy_from_slice(part.bytes);
            names.push(Name { bytes })?;
        }
    }
    names.as_mut_slice().reverse();
    Ok(names)
}

/// Composes some times; answers the length written, 0 where refused, and the time of one call.
fn timed(rt: &HostRuntime, bench: &Bench, book: &Book<'_>) -> io::Result<(usize, u128)> {
    let mut out = vec![in rt.alloc(); 0; COMPOSITION]?;
    let mut length = 0;
    let start = Instant::now(rt)?;
    for _ in 0..TIMES {
        length = compose(bench, book, out.as_mut_slice()).unwrap_or(0);
    }
    Ok((length, start.elapsed(rt)?.as_nanos() / 200))
}

/// Opens some times; answers the time of one call.
fn opened(rt: &HostRuntime, bytes: &[u8]) -> io::Result<u128> {
    let mut book = Book::new();
    let start = Instant::now(rt)?;
    for _ in 0..TIMES {
        let _ = book.open(bytes);
    }
    Ok(start.elapsed(rt)?.as_nanos() / 200)
}

fn questions(rt: &HostRuntime, book: &Book<'_>) -> io::Result<(usize, u128)> {
    let mut known = 0;
    let start = Instant::now(rt)?;
    for _ in 0..TIMES {
        known = asked(book);
    }
    Ok((known, start.elapsed(rt)?.as_nanos() / 200))
}

fn main(rt: HostRuntime) -> io::Result<()> {
    let mut text = Vec::new(rt.alloc());
    rt.stdin().read_to_end(&mut text)?;
    let mut bytes = vec![in rt.alloc(); 0; BOOK]?;
    let Ok(length) = import_list(text.as_slice(), bytes.as_mut_slice()) else {
        return println!(rt; "refused");
    };
    bytes.truncate(length);
    let open_took = opened(&rt, bytes.as_slice())?;
    let mut book = Book::new();
    let _ = book.open(bytes.as_slice());
    let (known, ask_took) = questions(&rt, &book)?;
    let entries = formation(rt.alloc(), &book)?;
    let mut bench = led(&book, entries.as_slice());
    let (plain, plain_took) = timed(&rt, &bench, &book)?;
    let names = names_from_head(rt.alloc(), &book)?;
    let _ = bench.confirm(names.as_slice());
    let (listed, listed_took) = timed(&rt, &bench, &book)?;
    eprintln!(rt; "{open_took} {ask_took} {plain_took} {listed_took}")?;
    println!(rt; "vehicles {known} composed {plain} confirmed {listed}")
}
