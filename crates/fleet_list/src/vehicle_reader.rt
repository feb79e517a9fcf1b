// The reader of the vehicles of a line.
ghost use Rattle.std.specs.Prelude.{◌≤◌, length, take, IfOk};
ghost use Rattle.fleet_list.specs.Cursors.{Takes};
ghost use Rattle.fleet_list.specs.Texts.{sign};
ghost use Rattle.fleet_list.specs.Parts.{same, Known, Sign, GoodCar, car, car_of, spaced, Few, others, cars};

use crate::cursor::Cursor;
use crate::name_reader::read_name;
use train::entries::Vehicle;
use train::facing::Facing;
use train::refusal::Refusal;

pub const OTHERS: usize = 31;

fn facing_of(b: u8) -> Option<Facing>
    ensures { Sign b result }
{
    match b {
        b'+' => Some(Facing::Direct),
        b'-' => Some(Facing::Inverse),
        _ => None,
    }
}

fn read_facing(cursor: &mut Cursor) -> Result<Facing, Refusal>
    ensures { Takes Known sign same cursor.old cursor.new result }
{
    cursor.take(facing_of)
}

// A quoted name and a facing.
pub fn read_vehicle(cursor: &mut Cursor) -> Result<Vehicle, Refusal>
    ensures { Takes GoodCar car car_of cursor.old cursor.new result }
{
    let name = read_name(cursor)?;
    let facing = read_facing(cursor)?;
    Ok(Vehicle { name, facing })
}

// A vehicle behind a space.
fn read_other(cursor: &mut Cursor) -> Result<Vehicle, Refusal>
    ensures { Takes GoodCar spaced car_of cursor.old cursor.new result }
{
    cursor.expect(b' ')?;
    read_vehicle(cursor)
}

// At most thirty-one vehicles, each behind a space, and the end of the line. They go into `room`;
// answers how many there are.
pub fn read_others(cursor: &mut Cursor, room: &mut [Vehicle]) -> Result<usize, Refusal>
    requires { 31 ≤ length room.old }
    ensures answer { Takes (Few 31) others (λ n. cars (take n room.new)) cursor.old cursor.new result }
    ensures count { IfOk result (λ n. n ≤ length room.new) }
{
    let mut count = 0;
    while count < OTHERS && cursor.is_at(b' ') {
        room[count] = read_other(cursor)?;
        count += 1;
    }
    cursor.expect(b'\n')?;
    Ok(count)
}
