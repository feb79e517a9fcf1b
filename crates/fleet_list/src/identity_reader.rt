// The reader of an identity.
ghost use Rattle.std.specs.Prelude.{length};
ghost use Rattle.fleet_list.specs.Cursors.{Takes};
ghost use Rattle.fleet_list.specs.Texts.{byte_text};
ghost use Rattle.fleet_list.specs.Parts.{same, Nibble, digit_text, Digit, Byte, Bytes, bytes_text, bytes_of};

use crate::cursor::Cursor;
use train::identity::Identity;
use train::refusal::Refusal;

fn nibble(b: u8) -> Option<u8>
    ensures { Digit b result }
{
    match b {
        b'0'..=b'9' => Some(b - b'0'),
        b'a'..=b'f' => Some(b - b'a' + 10),
        _ => None,
    }
}

fn read_digit(cursor: &mut Cursor) -> Result<u8, Refusal>
    ensures { Takes Nibble digit_text same cursor.old cursor.new result }
{
    cursor.take(nibble)
}

// The two hex digits of a byte.
fn read_byte(cursor: &mut Cursor) -> Result<u8, Refusal>
    ensures { Takes Byte byte_text same cursor.old cursor.new result }
{
    let high = read_digit(cursor)?;
    let low = read_digit(cursor)?;
    Ok(high * 16 + low)
}

// Thirty-two hex digits and a space.
pub fn read_identity(cursor: &mut Cursor) -> Result<Identity, Refusal>
    ensures { Takes (Bytes 16) bytes_text bytes_of cursor.old cursor.new result }
{
    let mut bytes = [0; 16];
    for slot in bytes.iter_mut() {
        *slot = read_byte(cursor)?;
    }
    cursor.expect(b' ')?;
    Ok(Identity { bytes })
}
