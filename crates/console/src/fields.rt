// The forms of the fields: hex digits, identities, numbers, facings.
ghost use Rattle.std.specs.Prelude.{◌≡◌, ℕ, ◌<◌, ◌++◌, false, List, [], length, slice_get, slice_index_or, IfOk, IfSome, OnOk, All, IsTrue};
ghost use Rattle.std.specs.Fmt.{digit_glyph};
ghost use Rattle.std.specs.Fn.{FnReturnsAt};
ghost use Rattle.std.specs.Int.{from_be_bytes, w32};
ghost use Rattle.std.specs.Char.{is_ascii_digit};
ghost use Rattle.train.specs.Words.{facing_text};
ghost use Rattle.console.specs.Fields.{fields_in};
ghost use Rattle.console.specs.Texts.{byte_text, hex_text, bytes_text, entry_text, source_text};
ghost use Rattle.console.specs.declared.fields.ParseError.TheVariants.{OutOfMemory};

use crate::command::Source;
use crate::pieces::Fields;
use std::alloc::{AllocError, Global};
use std::str::FromStr;
use train::entries::{Coupled, Vehicle};
use train::facing::Facing;
use train::identity::Identity;
use train::name::Name;

/// Why a line gives no command.
#[derive(Clone, Copy, PartialEq, Eq)]
pub enum ParseError {
    Malformed,
    OutOfMemory(AllocError),
}

impl From<AllocError> for ParseError {
    ghost from_gives = { λ error e. e ≡ OutOfMemory error };

    fn from(error: AllocError) -> ParseError {
        ParseError::OutOfMemory(error)
    }
}

/// The value of a hex digit, 0 to 9 or a to f.
fn nibble(digit: u8) -> Result<u8, ParseError>
    ensures small { IfOk result (λ n. n < 16) }
    ensures value { IfOk result (λ n. digit_glyph false n ≡ digit) }
{
    match digit {
        b'0'..=b'9' => Ok(digit - b'0'),
        b'a'..=b'f' => Ok(digit - b'a' + 10),
        _ => Err(ParseError::Malformed),
    }
}

/// The byte of two hex digits.
fn hex_byte(digits: &[u8; 2]) -> Result<u8, ParseError>
    ensures { IfOk result (λ byte. byte_text byte ≡ digits.now) }
{
    let [high, low] = *digits;
    Ok(nibble(high)? * 16 + nibble(low)?)
}

/// The bytes of pairs of hex digits.
fn hex_pairs(heap: Global, pairs: &[[u8; 2]]) -> Result<Vec<u8>, ParseError>
    ensures len { IfOk result (λ bytes. length bytes.items ≡ length pairs.now) }
    ensures each { IfOk result (λ bytes. (k : ℕ) → k < length pairs.now → byte_text (slice_index_or bytes.items k 0) ≡ slice_index_or pairs.now k []) }
{
    let mut bytes = Vec::with_capacity(heap, pairs.len())?;
    for pair in pairs {
        bytes.push(hex_byte(pair)?).map_err(AllocError::from)?;
    }
    Ok(bytes)
}

/// An even number of hex digits, or `-` for no bytes.
#[tactic(auto, using(crate::proofs::Hexes::bytes_text_of_pairs))]
pub fn hex_bytes(heap: Global, field: &[u8]) -> Result<Vec<u8>, ParseError>
    ensures { IfOk result (λ bytes. bytes_text bytes.items ≡ field.now) }
{
    if let b"-" = field {
        return Ok(Vec::new(heap));
    }
    match field.as_chunks::<2>() {
        (pairs, []) if !pairs.is_empty() => hex_pairs(heap, pairs),
        _ => Err(ParseError::Malformed),
    }
}

/// So many bytes, each by two hex digits.
#[tactic(auto, using(crate::proofs::Hexes::hex_text_of_pairs))]
pub fn hex_array<const N: usize>(field: &[u8]) -> Result<[u8; N], ParseError>
    ensures { IfOk result (λ bytes. hex_text bytes ≡ field.now) }
{
    let (pairs, rest) = field.as_chunks::<2>();
    if pairs.len() != N || !rest.is_empty() {
        return Err(ParseError::Malformed);
    }
    let mut bytes = [0; N];
    for (i, pair) in pairs.iter().enumerate() {
        bytes[i] = hex_byte(pair)?;
    }
    Ok(bytes)
}

/// Eight hex digits.
pub fn seed(field: &[u8]) -> Result<u32, ParseError>
    ensures { IfOk result (λ seed. (bytes : List ℕ) × (seed ≡ from_be_bytes w32 bytes) × (hex_text bytes ≡ field.now)) }
{
    Ok(u32::from_be_bytes(hex_array(field)?))
}

/// A decimal number that the type holds; no sign stands before it.
pub fn number<T: FromStr>(field: &[u8]) -> Result<T, ParseError>
where
    T::Err: Drop,
    ensures digits { OnOk result (All (λ digit. IsTrue (is_ascii_digit digit)) field.now) }
    ensures value { IfOk result (λ number. T.from_str_gives field.now (Ok number)) }
{
    if !field.iter().all(|digit| digit.is_ascii_digit()) {
        return Err(ParseError::Malformed);
    }
    let digits = str::from_utf8(field).map_err(|_| ParseError::Malformed)?;
    digits.parse().map_err(|_| ParseError::Malformed)
}

/// The name inside quotes, its escapes undone: at most sixteen bytes, zero bytes behind them.
fn unquoted(inside: &[u8]) -> Result<[u8; 16], ParseError> {
    let mut bytes = [0; 16];
    let mut rest = inside;
    for place in bytes.iter_mut() {
        let (byte, tail) = match rest {
            [] => break,
            [b'\\', byte @ (b'"' | b'\\'), tail @ ..] => (byte, tail),
            [b'"' | b'\\', ..] => return Err(ParseError::Malformed),
            [byte, tail @ ..] => (byte, tail),
        };
        *place = *byte;
        rest = tail;
    }
    if rest.is_empty() {
        Ok(bytes)
    } else {
        Err(ParseError::Malformed)
    }
}

/// A quoted name, or x and thirty-two hex digits.
pub fn name(field: &[u8]) -> Result<Name, ParseError> {
    let bytes = match field {
        [b'x', digits @ ..] => hex_array(digits)?,
        [b'"', inside @ .., b'"'] => unquoted(inside)?,
        _ => return Err(ParseError::Malformed),
    };
    Ok(Name { bytes })
}

/// Thirty-two hex digits.
pub fn identity(field: &[u8]) -> Result<Identity, ParseError>
    ensures { IfOk result (λ identity. hex_text identity.bytes ≡ field.now) }
{
    Ok(Identity {
        bytes: hex_array(field)?,
    })
}

/// The facing at the end of a field, and what stands before it.
fn faced(field: &[u8]) -> Result<(&[u8], Facing), ParseError>
    ensures { IfOk result (λ (front, facing). front.now ++ facing_text facing ≡ field.now) }
{
    match field {
        [front @ .., b'+'] => Ok((front, Facing::Direct)),
        [front @ .., b'-'] => Ok((front, Facing::Inverse)),
        [front @ .., b'?'] => Ok((front, Facing::NotKnown)),
        _ => Err(ParseError::Malformed),
    }
}

/// An identity with its facing.
pub fn coupled(field: &[u8]) -> Result<Coupled, ParseError>
    ensures { IfOk result (λ entry. entry_text entry ≡ field.now) }
{
    let (front, facing) = faced(field)?;
    Ok(Coupled {
        identity: identity(front)?,
        facing,
    })
}

/// A name with its facing.
pub fn vehicle(field: &[u8]) -> Result<Vehicle, ParseError>
    ensures { IfOk result (λ vehicle. (front : List ℕ) × (front ++ facing_text vehicle.facing ≡ field.now)) }
{
    let (front, facing) = faced(field)?;
    Ok(Vehicle {
        name: name(front)?,
        facing,
    })
}

/// The word for a fleet of a desk.
pub fn source(field: &[u8]) -> Result<Source, ParseError>
    ensures { IfOk result (λ source. source_text source ≡ field.now) }
{
    match field {
        b"book" => Ok(Source::Book),
        b"roster" => Ok(Source::Roster),
        _ => Err(ParseError::Malformed),
    }
}

/// The fields, each read as an entry of one form; the first that is none ends the reading.
pub fn each<T: Drop, R: Fn(&[u8]) -> Result<T, ParseError>>(
    heap: Global,
    fields: Fields<'_>,
    read: R,
) -> Result<Vec<T>, ParseError>
    requires { R.IsAlwaysCallable read }
    ensures len { IfOk result (λ entries. length entries.items ≡ length (fields_in fields.entry)) }
    ensures each { IfOk result (λ entries. (k : ℕ) → IfSome (slice_get (fields_in fields.entry) k) (λ field. IfSome (slice_get entries.items k) (λ entry. FnReturnsAt R.Fn read field (Ok entry)))) }
{
    let mut entries = Vec::new(heap);
    for field in fields {
        entries.push(read(field)?).map_err(AllocError::from)?;
    }
    Ok(entries)
}
