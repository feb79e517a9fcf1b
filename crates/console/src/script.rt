// Reading a script: a command from each line that is neither blank nor a comment.
ghost use Rattle.std.specs.Prelude.{◌++◌, Some, codes, decimal};

use crate::command::{BenchCommand, Command, DeskCommand, Side};
use crate::fields::*;
use crate::pieces::Fields;
use std::alloc::{AllocError, Global};
use std::fmt;

/// What a line reads as: a command, or the number of a line that is none.
pub type Line = Result<Command, BadLine>;

/// A line that is no command, counted from 1.
#[derive(Clone, Copy, PartialEq, Eq, Debug)]
pub struct BadLine {
    number: usize,
}

impl fmt::Display for BadLine {
    ghost output = { λ line. Some (codes "error line " ++ decimal line.number) };

    fn fmt<W: fmt::Write>(&self, f: &mut fmt::Formatter<W>) -> fmt::Result {
        write!(f, "error line {}", self.number)
    }
}

/// How many fields of a line without entries are looked at: one more than a command has.
const FRONT: usize = 5;

/// The field that comes next, if there is one.
fn next<'a>(fields: &mut Fields<'a>) -> Result<&'a [u8], ParseError> {
    fields.next().ok_or(ParseError::Malformed)
}

fn turn(heap: Global, fields: Fields<'_>) -> Result<DeskCommand, ParseError> {
    let formation = each(heap, fields, coupled)?;
    if formation.is_empty() {
        return Err(ParseError::Malformed);
    }
    Ok(DeskCommand::Turn { formation })
}

fn announce(heap: Global, mut fields: Fields<'_>) -> Result<DeskCommand, ParseError> {
    Ok(DeskCommand::Announce {
        identity: identity(next(&mut fields)?)?,
        counter: number(next(&mut fields)?)?,
        vehicles: each(heap, fields, vehicle)?,
    })
}

fn inaugurate(heap: Global, mut fields: Fields<'_>) -> Result<BenchCommand, ParseError> {
    Ok(BenchCommand::Inaugurate {
        etb: number(next(&mut fields)?)?,
        formation: each(heap, fields, coupled)?,
    })
}

fn confirm(heap: Global, fields: Fields<'_>) -> Result<BenchCommand, ParseError> {
    Ok(BenchCommand::Confirm {
        names: each(heap, fields, name)?,
    })
}

/// A command to a bench, of one form.
fn bench_command(fields: &[&[u8]]) -> Result<BenchCommand, ParseError> {
    match fields {
        [b"claim", consist, vehicle, direction] => Ok(BenchCommand::Claim {
            identity: identity(consist)?,
            vehicle: number(vehicle)?,
            direction: number(direction)?,
        }),
        [b"yield", consist] => Ok(BenchCommand::Yield {
            identity: identity(consist)?,
        }),
        [b"withdraw"] => Ok(BenchCommand::Withdraw),
        _ => Err(ParseError::Malformed),
    }
}

/// A command to a desk, of one form.
fn desk_command(heap: Global, fields: &[&[u8]]) -> Result<DeskCommand, ParseError> {
    match fields {
        [b"sc32", start, bytes] => Ok(DeskCommand::Sc32 {
            seed: seed(start)?,
            bytes: hex_bytes(heap, bytes)?,
        }),
        [b"import", room, text] => Ok(DeskCommand::Import {
            room: number(room)?,
            text: hex_bytes(heap, text)?,
        }),
        [b"export", room, book] => Ok(DeskCommand::Export {
            room: number(room)?,
            book: hex_bytes(heap, book)?,
        }),
        [b"compose", fleet, room] => Ok(DeskCommand::Compose {
            source: source(fleet)?,
            room: number(room)?,
        }),
        _ => fleet_command(heap, fields),
    }
}

/// A command to the book or the roster of a desk, or else to its bench, of one form.
fn fleet_command(heap: Global, fields: &[&[u8]]) -> Result<DeskCommand, ParseError> {
    match fields {
        [b"open", bytes] => Ok(DeskCommand::Open {
            bytes: hex_bytes(heap, bytes)?,
        }),
        [b"name", k] => Ok(DeskCommand::Name { k: number(k)? }),
        [b"forget", consist] => Ok(DeskCommand::Forget {
            identity: identity(consist)?,
        }),
        [b"look", fleet, consist] => Ok(DeskCommand::Look {
            source: source(fleet)?,
            identity: identity(consist)?,
        }),
        [b"vehicle", fleet, consist, k] => Ok(DeskCommand::Vehicle {
            source: source(fleet)?,
            identity: identity(consist)?,
            k: number(k)?,
        }),
        _ => Ok(DeskCommand::ToBench(bench_command(fields)?)),
    }
}

/// A command that has so many fields.
fn formed_command(heap: Global, fields: &[&[u8]]) -> Result<Command, ParseError> {
    match fields {
        [b"desk", b"1"] => Ok(Command::Desk(Side::Left)),
        [b"desk", b"2"] => Ok(Command::Desk(Side::Right)),
        [b"compare", left, right, room] => Ok(Command::Compare {
            left: source(left)?,
            right: source(right)?,
            room: number(room)?,
        }),
        others => Ok(Command::ToDesk(desk_command(heap, others)?)),
    }
}

/// The command that stands in a line: entries are read field by field, any other one from its first fields.
fn command(heap: Global, line: &[u8]) -> Result<Command, ParseError> {
    let fields = Fields::of(line);
    let mut rest = fields;
    let command = match rest.next() {
        Some(b"turn") => turn(heap, rest)?,
        Some(b"announce") => announce(heap, rest)?,
        Some(b"inaugurate") => DeskCommand::ToBench(inaugurate(heap, rest)?),
        Some(b"confirm") => DeskCommand::ToBench(confirm(heap, rest)?),
        _ => {
            let front: Vec<&[u8]> = fields.take(FRONT).collect(heap)?;
            return formed_command(heap, front.as_slice());
        }
    };
    Ok(Command::ToDesk(command))
}

/// The lines of a script that are neither blank nor begin with #, in order.
pub fn parse_script(heap: Global, script: &[u8]) -> Result<Vec<Line>, AllocError> {
    let mut lines = Vec::new(heap);
    for (i, line) in script.split(|byte| *byte == b'\n').enumerate() {
        if let [] | [b'#', ..] = line {
            continue;
        }
        lines.push(match command(heap, line) {
            Ok(command) => Ok(command),
            Err(ParseError::Malformed) => Err(BadLine { number: i + 1 }),
            Err(ParseError::OutOfMemory(error)) => return Err(error),
        })?;
    }
    Ok(lines)
}
