// The rows of a book, into tables.
ghost use Rattle.std.specs.Prelude.{◌≡◌, ◌≤◌, map, take, length};
ghost use Rattle.train.specs.Closures.{Gives};
ghost use Rattle.fleet_list.specs.Entries.{IsLong, Loaded};

use crate::tables::*;
use train::entries::Vehicle;

// Fills a table with what is read of the first rows.
fn read_rows<R, T: Copy, F: Fn(&R) -> T>(rows: &[R], table: &mut [T], form: F)
    requires callable { F.IsAlwaysCallable form }
    requires long { length table.old ≤ length rows.now }
    ensures { (of : R → T) → Gives F.Fn form of → table.new ≡ map of (take (length table.old) rows.now) }
{
    for (i, slot) in table.iter_mut().enumerate() {
        *slot = form(&rows[i]);
    }
}

// Reads the entries of a book into the tables.
pub fn read_book(book: &[u8], tables: &mut Tables)
    requires { IsLong book.now }
    ensures { Loaded book.now tables.new.heads tables.new.vehicles tables.new.lines tables.new.total }
{
    let count = book[2] as usize * 256 + book[3] as usize;
    let (entries, tail) = book[4..].split_at(count * CONSIST);
    let total = tail[0] as usize * 256 + tail[1] as usize;
    let (heads, _) = entries.as_chunks::<CONSIST>();
    let (vehicles, _) = tail[2..].as_chunks::<VEHICLE>();
    read_rows(heads, &mut tables.heads[0..count], |row| Head::from(*row));
    read_rows(
        vehicles,
        &mut tables.vehicles[0..total],
        |row| Vehicle::from(*row),
    );
    tables.lines = count;
    tables.total = total;
}
