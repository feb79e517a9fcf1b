// What an exported call gives back.
ghost use Rattle.std.specs.Prelude.{◌≡◌};
ghost use Rattle.train.specs.Refusals.{refusal_of};
ghost use Rattle.linkage.specs.Told.{status_of, answer_of, refused_in, place_in, unlined, bare, freed};

use train::refusal::{Place, Reason, Refusal};

/// What a call gives back beside its status.
#[repr(C)]
#[derive(Clone, Copy)]
pub struct Answer {
    pub line: u64,
    pub place: u64,
    pub length: u64,
    pub lines: u64,
}

/// The number of a place: of a text, the byte in its line.
fn number_of(place: Place) -> usize
    ensures { result ≡ place_in place }
{
    match place {
        Place::At(place) => place,
        Place::InLine { line: _, byte } => byte,
    }
}

/// The answer of a refusal: its line, if it names one, and its place.
fn answer_of(place: Place) -> Answer
    ensures { result ≡ refused_in place }
{
    let line = match place {
        Place::At(_) => 0,
        Place::InLine { line, byte: _ } => line,
    };
    Answer {
        line: line as u64,
        place: number_of(place) as u64,
        length: 0,
        lines: 0,
    }
}

/// Tells what a call came to: how many bytes and lines, or the refusal.
pub(crate) fn tell(done: Result<(usize, usize), Refusal>, answer: &mut Answer) -> u32
    ensures told { result ≡ status_of (refusal_of done) }
    ensures answer { answer.new ≡ answer_of done }
{
    match done {
        Ok((length, lines)) => {
            *answer = Answer {
                line: 0,
                place: 0,
                length: length as u64,
                lines: lines as u64,
            };
            0
        }
        Err(refusal) => {
            *answer = answer_of(refusal.place);
            refusal.reason.number() as u32
        }
    }
}

/// Tells what a call came to that answers a length alone.
pub(crate) fn tell_length(done: Result<usize, Refusal>, answer: &mut Answer) -> u32
    ensures told { result ≡ status_of (refusal_of done) }
    ensures answer { answer.new ≡ answer_of (unlined done) }
{
    tell(done.map(|length| (length, 0)), answer)
}

/// The length alone.
pub(crate) fn length_of(done: Result<(usize, usize), Refusal>) -> Result<usize, Refusal>
    ensures { result ≡ bare done }
{
    done.map(|counted| counted.0)
}

/// What a call with no room answers, were there room enough: a length in place of the refusal that
/// names the length needed.
pub(crate) fn with_room(done: Result<usize, Refusal>) -> Result<usize, Refusal>
    ensures { result ≡ freed done }
{
    match done {
        Err(refusal) if refusal.reason == Reason::BufferShort => Ok(number_of(refusal.place)),
        done => done,
    }
}
