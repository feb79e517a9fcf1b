// The reader of a line.
ghost use Rattle.std.specs.Prelude.{◌≤◌, length, IfOk};
ghost use Rattle.fleet_list.specs.Cursors.{Takes};
ghost use Rattle.fleet_list.specs.Lists.{IsLine, line_text};
ghost use Rattle.fleet_list.specs.Tables.{item_of};

use crate::counter_reader::read_counter;
use crate::cursor::Cursor;
use crate::identity_reader::read_identity;
use crate::tables::Head;
use crate::vehicle_reader::{read_others, read_vehicle};
use train::entries::Vehicle;
use train::refusal::Refusal;

// A line. Its vehicles go into `room`.
pub fn read_line(cursor: &mut Cursor, room: &mut [Vehicle]) -> Result<Head, Refusal>
    requires { 32 ≤ length room.old }
    ensures answer { Takes IsLine line_text (λ h. item_of h room.new) cursor.old cursor.new result }
    ensures count { IfOk result (λ h. h.count ≤ length room.new) }
{
    let identity = read_identity(cursor)?;
    let counter = read_counter(cursor)?;
    room[0] = read_vehicle(cursor)?;
    let others = read_others(cursor, &mut room[1..])?;
    Ok(Head {
        identity,
        counter,
        count: (1 + others) as u8,
    })
}
