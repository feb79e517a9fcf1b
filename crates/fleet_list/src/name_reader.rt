// The reader of a quoted name.
ghost use Rattle.train.specs.Names.{IsName};
ghost use Rattle.fleet_list.specs.Cursors.{Takes};
ghost use Rattle.fleet_list.specs.Texts.{escaped};
ghost use Rattle.fleet_list.specs.Parts.{name_text, name_bytes, same, Letter, Plain, Marked};

use crate::cursor::Cursor;
use train::name::Name;
use train::refusal::Refusal;

pub const LONGEST: usize = 15;

// A byte of a name that stands for itself.
fn plain(b: u8) -> Option<u8>
    ensures { Plain b result }
{
    match b {
        b'"' | b'\\' => None,
        b' '..=b'~' => Some(b),
        _ => None,
    }
}

// A byte of a name that stands behind a backslash.
fn marked(b: u8) -> Option<u8>
    ensures { Marked b result }
{
    match b {
        b'"' | b'\\' => Some(b),
        _ => None,
    }
}

// A byte of a name, behind a backslash where it needs one.
fn read_letter(cursor: &mut Cursor) -> Result<u8, Refusal>
    ensures { Takes Letter escaped same cursor.old cursor.new result }
{
    if !cursor.is_at(b'\\') {
        return cursor.take(plain);
    }
    cursor.expect(b'\\')?;
    cursor.take(marked)
}

// The quoted name.
pub fn read_name(cursor: &mut Cursor) -> Result<Name, Refusal>
    ensures { Takes IsName name_text name_bytes cursor.old cursor.new result }
{
    let mut bytes = [0; 16];
    cursor.expect(b'"')?;
    let letters = &mut bytes[0..LONGEST];
    for slot in letters.iter_mut() {
        *slot = read_letter(cursor)?;
        if cursor.is_at(b'"') {
            break;
        }
    }
    cursor.expect(b'"')?;
    Ok(Name { bytes })
}
