// Why a call is refused, and where.
ghost use Rattle.std.specs.Prelude.{◌≡◌, ◌==◌};
ghost use Rattle.train.specs.Refusals.{number as numbered, refused_at};
ghost use Rattle.std.specs.Cmp.Rules.{comparing};
ghost use Rattle.std.proofs.Common.{rules};
ghost use Rattle.std.specs.Cmp as Keys;

/// The part whose call it is.
#[derive(Clone, Copy, PartialEq, Eq, Debug)]
pub enum Part {
    Text,
    Book,
    Roster,
    Bench,
    Composing,
}

/// Each reason has a number; the cases stand in the order of their numbers.
#[derive(Clone, Copy, PartialEq, Eq, Debug)]
pub enum Reason {
    /// 1: a line of a fleet list breaks the form.
    LineForm,
    /// 2: fewer than four bytes, or not version 1 release 0.
    BookHead,
    /// 3: more than 200 consists, or a book ends before its vehicle count does.
    ConsistCount,
    /// 4: more than 2000 vehicles, or a book's length is wrong.
    VehicleCount,
    /// 5: an identity is zero or, in a book or fleet list, not above the one before.
    IdentityOrder,
    /// 6: a counter is 0.
    ZeroCounter,
    /// 7: a consist's vehicles, a formation or a confirmed list are none or too many.
    EntryCount,
    /// 8: the vehicle counts of a book do not add up to its total.
    VehicleSum,
    /// 9: a name is malformed.
    NameForm,
    /// 10: a facing is neither direct nor inverse.
    UnknownFacing,
    /// 11: a name stands twice in a consist or confirmed list, or an identity in a formation.
    Repeated,
    /// 12: the bench has no formation.
    NoFormation,
    /// 13: the identity is not in the formation or, for forget, not in the roster.
    NotPresent,
    /// 14: a claim's vehicle number or direction is out of range.
    ClaimRange,
    /// 15: there is no claim to yield, or no list to withdraw.
    NothingStands,
    /// 16: the roster holds 63 other consists.
    RosterFull,
    /// 17: the fleet lacks a consist.
    ConsistAbsent,
    /// 18: the formation has more than 63 vehicles.
    TrainLength,
    /// 19: a name stands in two consists.
    SharedName,
    /// 20: more than one claim stands.
    SeveralClaims,
    /// 21: the claimed vehicle number exceeds the consist.
    ClaimBeyond,
    /// 22: the confirmed list, inserted names struck out, is not the train's names in order.
    ListOrder,
    /// 23: an inserted vehicle stands between two of one consist.
    InsertedInside,
    /// 24: the buffer is too short.
    BufferShort,
}

impl Reason {
    pub fn number(self) -> u8
        ensures { result ≡ numbered self }
    {
        self as u8 + 1
    }
}

/// Where: a place counted from 1, or 0 where none is named; in a text a line and a byte of it.
#[derive(Clone, Copy, PartialEq, Eq, Debug)]
pub enum Place {
    At(usize),
    InLine { line: usize, byte: usize },
}

#[derive(Clone, Copy, PartialEq, Eq, Debug)]
pub struct Refusal {
    pub part: Part,
    pub reason: Reason,
    pub place: Place,
}

impl Refusal {
    /// A refusal at a place that is counted, or 0 where none is named.
    pub fn at(part: Part, reason: Reason, place: usize) -> Refusal
        ensures { result ≡ refused_at part reason place }
    {
        Refusal {
            part,
            reason,
            place: Place::At(place),
        }
    }
}
