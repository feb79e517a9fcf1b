// How answers are printed.
ghost use Rattle.std.specs.Prelude.{◌≡◌, ◌*◌, ◌<◌, ◌≤◌, false, length, Some};
ghost use Rattle.std.specs.Fmt.{digit_glyph};
ghost use Rattle.console.specs.Texts.{byte_text, hex_text, refused_text, side_text, written_text, outcome_text, filled_text, entry_text, formation_text, likeness_text, comparison_text, answer_text};

use crate::answers::{Answer, Filled, Written};
use crate::command::Side;
use directory::comparing::{Comparison, LeadingEnds, Likeness};
use fleet::book::NamePart;
use fleet::questions::Found;
use std::fmt;
use train::entries::{Coupled, Vehicle};
use train::refusal::Refusal;

/// How many bytes are written at a time.
const RUN: usize = 32;

fn digit(n: u8) -> u8
    requires { n < 16 }
    ensures { result ≡ digit_glyph false n }
{
    if n < 10 { b'0' + n } else { b'a' + (n - 10) }
}

/// Puts two hex digits for each byte.
fn put_digits(bytes: &[u8], text: &mut [u8])
    requires { length text.old ≡ 2 * length bytes.now }
    ensures { text.new ≡ hex_text bytes.now }
{
    for (i, byte) in bytes.iter().enumerate() {
        text[2 * i] = digit(byte / 16);
        text[2 * i + 1] = digit(byte % 16);
    }
}

/// A run of bytes as hex digits.
fn digits<'t>(bytes: &[u8], room: &'t mut [u8; 64]) -> &'t str
    requires { length bytes.now ≤ 32 }
    ensures { result.now ≡ hex_text bytes.now }
{
    let text = &mut room[..2 * bytes.len()];
    put_digits(bytes, text);
    str::from_utf8(text).unwrap()
}

/// Bytes as hex digits.
#[derive(Clone, Copy)]
struct Hex<'a>(&'a [u8]);

impl fmt::Display for Hex<'_> {
    ghost output = { λ hex. Some (hex_text hex.0.now) };

    fn fmt<W: fmt::Write>(&self, f: &mut fmt::Formatter<W>) -> fmt::Result {
        let mut room = [0; 2 * RUN];
        let (runs, rest) = self.0.as_chunks::<RUN>();
        for run in runs {
            f.write_str(digits(run, &mut room))?;
        }
        f.write_str(digits(rest, &mut room))
    }
}

/// A refusal: its part, number and place.
#[derive(Clone, Copy)]
pub struct Refused(pub Refusal);

impl fmt::Display for Refused {
    ghost output = { λ refused. Some (refused_text refused.0) };

    fn fmt<W: fmt::Write>(&self, f: &mut fmt::Formatter<W>) -> fmt::Result {
        let Refusal {
            part,
            reason,
            place,
        } = self.0;
        write!(f, "refused {part} {} {place}", reason.number())
    }
}

impl fmt::Display for Side {
    ghost output = { λ side. Some (side_text side) };

    fn fmt<W: fmt::Write>(&self, f: &mut fmt::Formatter<W>) -> fmt::Result {
        match self {
            Side::Left => write!(f, "1"),
            Side::Right => write!(f, "2"),
        }
    }
}

impl fmt::Display for Written {
    ghost output = { λ written. Some (written_text written) };

    fn fmt<W: fmt::Write>(&self, f: &mut fmt::Formatter<W>) -> fmt::Result {
        match self {
            Written::Imported { length } => write!(f, "imported {length}"),
            Written::Exported { length, lines } => write!(f, "exported {length} {lines}"),
            Written::Composed { length } => write!(f, "composed {length}"),
        }
    }
}

/// What was written, or the refusal.
#[derive(Clone, Copy)]
struct Outcome(Result<Written, Refusal>);

impl fmt::Display for Outcome {
    ghost output = { λ outcome. Some (outcome_text outcome.0) };

    fn fmt<W: fmt::Write>(&self, f: &mut fmt::Formatter<W>) -> fmt::Result {
        match self.0 {
            Ok(written) => write!(f, "{written}"),
            Err(refusal) => write!(f, "{}", Refused(refusal)),
        }
    }
}

impl fmt::Display for Filled {
    ghost output = { λ filled. Some (filled_text filled) };

    fn fmt<W: fmt::Write>(&self, f: &mut fmt::Formatter<W>) -> fmt::Result {
        write!(f, "{}\nbytes ", Outcome(self.outcome))?;
        match self.buffer.as_slice() {
            [] => write!(f, "-"),
            bytes => write!(f, "{}", Hex(bytes)),
        }
    }
}

/// An entry of a formation.
#[derive(Clone, Copy)]
struct Entry<'a>(&'a Coupled);

impl fmt::Display for Entry<'_> {
    ghost output = { λ entry. Some (entry_text entry.0.now) };

    fn fmt<W: fmt::Write>(&self, f: &mut fmt::Formatter<W>) -> fmt::Result {
        let Coupled { identity, facing } = self.0;
        write!(f, "{}{facing}", Hex(&identity.bytes))
    }
}

/// The entries of a formation, a space before each.
#[derive(Clone, Copy)]
struct Formation<'a>(&'a [Coupled]);

impl fmt::Display for Formation<'_> {
    ghost output = { λ formation. Some (formation_text formation.0.now) };

    fn fmt<W: fmt::Write>(&self, f: &mut fmt::Formatter<W>) -> fmt::Result {
        for entry in self.0 {
            write!(f, " {}", Entry(entry))?;
        }
        Ok(())
    }
}

/// How two compositions compare.
#[derive(Clone, Copy)]
struct Alike(Likeness);

impl fmt::Display for Alike {
    ghost output = { λ alike. Some (likeness_text alike.0) };

    fn fmt<W: fmt::Write>(&self, f: &mut fmt::Formatter<W>) -> fmt::Result {
        let same = if self.0.same { "same" } else { "different" };
        let ends = match self.0.ends {
            LeadingEnds::Same => "same",
            LeadingEnds::Different => "different",
            LeadingEnds::Unled => "none",
        };
        write!(f, "composition {same}\nleading end {ends}")
    }
}

/// The answers of both sides and, where both composed, how they compare.
#[derive(Clone, Copy)]
struct Compared<'a>(&'a Comparison);

impl fmt::Display for Compared<'_> {
    ghost output = { λ compared. Some (comparison_text compared.0.now) };

    fn fmt<W: fmt::Write>(&self, f: &mut fmt::Formatter<W>) -> fmt::Result {
        let left = self.0.left.map(|length| Written::Composed { length });
        let right = self.0.right.map(|length| Written::Composed { length });
        write!(f, "left {}\nright {}", Outcome(left), Outcome(right))?;
        match self.0.likeness {
            Some(likeness) => write!(f, "\n{}", Alike(likeness)),
            None => Ok(()),
        }
    }
}

impl fmt::Display for Answer<'_> {
    ghost output = { λ answer. Some (answer_text answer) };

    fn fmt<W: fmt::Write>(&self, f: &mut fmt::Formatter<W>) -> fmt::Result {
        match self {
            Answer::Done(word) => write!(f, "{word}"),
            Answer::Turned(formation) => write!(f, "turned{}", Formation(formation)),
            Answer::Checksum(sum) => write!(f, "sc32 {sum:08x}"),
            Answer::Consist(Found { counter, count }) => write!(f, "consist {counter} {count}"),
            Answer::Vehicle(Vehicle { name, facing }) => {
                write!(f, "vehicle x{}{facing}", Hex(&name.bytes))
            }
            Answer::Name(NamePart { offset, bytes }) => write!(f, "name {offset} x{}", Hex(bytes)),
            Answer::Absent => write!(f, "absent"),
            Answer::Filled(filled) => write!(f, "{filled}"),
            Answer::Desk(side) => write!(f, "desk {side}"),
            Answer::Compared(comparison) => write!(f, "{}", Compared(comparison)),
        }
    }
}
