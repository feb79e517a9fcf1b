// How facings, parts and places are printed.
ghost use Rattle.std.specs.Prelude.{Some};
ghost use Rattle.std.specs.Fmt.{padded};
ghost use Rattle.train.specs.Words.{facing_text, part_text, place_text};

use crate::facing::Facing;
use crate::refusal::{Part, Place};
use std::fmt;

impl fmt::Display for Facing {
    ghost output = { λ facing. Some (facing_text facing) };

    ghost styled_output = { λ facing spec. Some (padded spec (facing_text facing)) };

    fn fmt<W: fmt::Write>(&self, f: &mut fmt::Formatter<W>) -> fmt::Result {
        f.pad(match self {
            Facing::NotKnown => "?",
            Facing::Direct => "+",
            Facing::Inverse => "-",
        })
    }
}

impl fmt::Display for Part {
    ghost output = { λ part. Some (part_text part) };

    ghost styled_output = { λ part spec. Some (padded spec (part_text part)) };

    fn fmt<W: fmt::Write>(&self, f: &mut fmt::Formatter<W>) -> fmt::Result {
        f.pad(match self {
            Part::Text => "text",
            Part::Book => "book",
            Part::Roster => "roster",
            Part::Bench => "bench",
            Part::Composing => "composing",
        })
    }
}

impl fmt::Display for Place {
    ghost output = { λ place. Some (place_text place) };

    fn fmt<W: fmt::Write>(&self, f: &mut fmt::Formatter<W>) -> fmt::Result {
        match self {
            Place::At(place) => write!(f, "place {place}"),
            Place::InLine { line, byte } => write!(f, "line {line} byte {byte}"),
        }
    }
}
