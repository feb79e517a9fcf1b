// The reader of a counter.
ghost use Rattle.std.specs.Prelude.{◌≡◌};
ghost use Rattle.fleet_list.specs.Cursors.{Takes};
ghost use Rattle.fleet_list.specs.Parts.{same};
ghost use Rattle.fleet_list.specs.Counters.{digit, turn_of, Counter, counter_text};

use crate::cursor::Cursor;
use train::refusal::Refusal;

// The number that the digits of `value` and the digit `b` write, if it is a counter; `value` is 0
// where there are none.
fn with_digit(value: u32, b: u8) -> Option<u32>
    ensures { (b ≡ 32 → value ≡ 0) → turn_of result ≡ digit value b }
{
    if !b.is_ascii_digit() {
        return None;
    }
    let more = value.checked_mul(10)?.checked_add(u32::from(b - b'0'))?;
    (more > 0).then_some(more)
}

// A decimal counter and a space.
pub fn read_counter(cursor: &mut Cursor) -> Result<u32, Refusal>
    ensures { Takes Counter counter_text same cursor.old cursor.new result }
{
    let mut value = 0;
    while value == 0 || !cursor.is_at(b' ') {
        value = cursor.take(|b| with_digit(value, b))?;
    }
    cursor.expect(b' ')?;
    Ok(value)
}
