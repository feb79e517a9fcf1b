// What the tests build trains of, and how they read what was written.
use std::process::Abort;
use train::entries::{Coupled, Vehicle};
use train::facing::Facing;
use train::identity::Identity;
use train::name::Name;

// The first sixteen bytes of a text, zero bytes behind it.
pub fn name(text: &[u8]) -> Name {
    let mut bytes = [0; 16];
    for i in 0..16usize {
        if i < text.len() {
            bytes[i] = text[i];
        }
    }
    Name { bytes }
}

pub fn vehicle(text: &[u8], facing: Facing) -> Vehicle {
    Vehicle {
        name: name(text),
        facing,
    }
}

pub fn coupled(identity: Identity, facing: Facing) -> Coupled {
    Coupled { identity, facing }
}

// These bytes stand at the front; answers what stands behind them.
pub fn behind<'a>(rt: &impl Abort, bytes: &'a [u8], front: &[u8]) -> &'a [u8] {
    assert!(rt; bytes.len() >= front.len());
    let (begin, rest) = bytes.split_at(front.len());
    assert_eq!(rt; begin, front);
    rest
}

// A section begins with its count.
fn behind_count<'a>(rt: &impl Abort, bytes: &'a [u8], count: usize) -> &'a [u8] {
    assert!(rt; bytes.len() >= 1);
    assert_eq!(rt; usize::from(bytes[0]), count);
    &bytes[1..]
}

// The train consists are these: identity, counter, then train number and facing.
pub fn behind_trains<'a>(
    rt: &impl Abort,
    bytes: &'a [u8],
    rows: &[(Identity, u8, [u8; 2])],
) -> &'a [u8] {
    let mut rest = behind_count(rt, bytes, rows.len());
    for (identity, counter, tail) in rows {
        rest = behind(rt, rest, &identity.bytes);
        rest = behind(rt, rest, &[0, 0, 0, *counter]);
        rest = behind(rt, rest, tail);
        rest = behind(rt, rest, &[0, 0]);
    }
    rest
}

// The operational consists are these: identity, then operational number, facing and train number.
pub fn behind_consists<'a>(
    rt: &impl Abort,
    bytes: &'a [u8],
    rows: &[(Identity, [u8; 3])],
) -> &'a [u8] {
    let mut rest = behind_count(rt, bytes, rows.len());
    for (identity, tail) in rows {
        rest = behind(rt, rest, &identity.bytes);
        rest = behind(rt, rest, tail);
        rest = behind(rt, rest, &[0]);
    }
    rest
}

// The operational vehicles are these: name, then operational number, leading mark, claimed
// direction, train number, facing and operational consist number.
pub fn behind_vehicles<'a, const N: usize>(
    rt: &impl Abort,
    bytes: &'a [u8],
    rows: &[(&[u8; N], [u8; 6])],
) -> &'a [u8] {
    let mut rest = behind_count(rt, bytes, rows.len());
    for (text, tail) in rows {
        rest = behind(rt, rest, &name(*text).bytes);
        rest = behind(rt, rest, tail);
        rest = behind(rt, rest, &[0, 0]);
    }
    rest
}

pub fn all_are(bytes: &[u8], byte: u8) -> bool {
    for b in bytes {
        if *b != byte {
            return false;
        }
    }
    true
}
