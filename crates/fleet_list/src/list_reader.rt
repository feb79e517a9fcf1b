// The reader of a list: its lines into tables.
ghost use Rattle.std.specs.Prelude.{◌≡◌};
ghost use Rattle.fleet_list.specs.Readings.{ListAnswer};

use crate::cursor::Cursor;
use crate::line_reader::read_line;
use crate::tables::*;
use train::refusal::Refusal;

// Reads every line into the tables, which have a place more for a line that does not fit, and for
// its vehicles.
pub fn read_list(text: &[u8], tables: &mut Tables) -> Result<(), Refusal>
    requires lines { tables.old.lines ≡ 0 }
    requires total { tables.old.total ≡ 0 }
    ensures { ListAnswer text.now tables.new result }
{
    let mut cursor = Cursor::new(text);
    while !cursor.is_at_end() {
        let from = tables.total.min(VEHICLES);
        let room = &mut tables.vehicles[from..from + LONGEST];
        let head = read_line(&mut cursor, room)?;
        tables.heads[tables.lines.min(LINES)] = head;
        tables.lines += 1;
        tables.total += head.count as usize;
        cursor.next_line();
    }
    Ok(())
}
