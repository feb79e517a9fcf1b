// Two runs of calls, each played on a new bench and composed over its own fleet.
ghost use Rattle.std.specs.Prelude.{◌≡◌, ◌≤◌, ◌&&◌, length, take, IfOk, Decides};
ghost use Rattle.std.specs.Str.{bytes_eq};
ghost use Rattle.directory.specs.Compared.{side, seen, Answered, Likened, ends_of};
ghost use Rattle.directory.specs.Law.{Side, Led, Joint};
ghost use Rattle.directory.specs.Part.{leading_part, Sections};

use crate::checks::claims_standing;
use crate::composing::compose;
use crate::leading_end::same_leading_part;
use bench::calls::{Call, play};
use bench::state::Bench;
use fleet::questions::Fleet;
use train::octets;
use train::refusal::Refusal;

/// How the leading ends of two compositions compare. They are compared where both trains have a
/// leading vehicle.
#[derive(Clone, Copy, PartialEq, Eq, Debug)]
pub enum LeadingEnds {
    Same,
    Different,
    Unled,
}

/// How two compositions compare: whether all their bytes are the same, and their leading ends.
#[derive(Clone, Copy)]
pub struct Likeness {
    pub same: bool,
    pub ends: LeadingEnds,
}

/// The length written on each side, or the refusal met; where both composed, how they compare.
#[derive(Clone, Copy)]
pub struct Comparison {
    pub left: Result<usize, Refusal>,
    pub right: Result<usize, Refusal>,
    pub likeness: Option<Likeness>,
}

/// What came of a run: the length written or the refusal met, and whether a claim stands.
#[derive(Clone, Copy)]
struct Composed {
    answer: Result<usize, Refusal>,
    led: bool,
}

/// Plays a run on a new bench and composes what then stands.
fn compose_run<F: Fleet>(calls: &[Call<'_>], fleet: &F, out: &mut [u8]) -> Composed
    ensures answered { Answered (side calls.now (F.Meant.meaning fleet.now) out.old) result.answer out.old out.new }
    ensures led { Decides result.led (Led (side calls.now (F.Meant.meaning fleet.now) out.old)) }
{
    let mut bench = Bench::new();
    play(&mut bench, calls);
    Composed {
        led: claims_standing(&bench) >= 1,
        answer: compose(&bench, fleet, out),
    }
}

/// How two compositions compare; `led` and `beside` say which of them have a leading vehicle.
fn liken(left: &[u8], right: &[u8], led: bool, beside: bool) -> Likeness
    requires left { Sections left.now }
    requires right { Sections right.now }
    ensures same { result.same ≡ bytes_eq left.now right.now }
    ensures ends { result.ends ≡ ends_of (led && beside) (bytes_eq (leading_part left.now) (leading_part right.now)) }
{
    let ends = if !(led && beside) {
        LeadingEnds::Unled
    } else if same_leading_part(left, right) {
        LeadingEnds::Same
    } else {
        LeadingEnds::Different
    };
    Likeness {
        same: octets::same(left, right),
        ends,
    }
}

/// How two answers compare, where both composed, by the bytes that each wrote.
fn liken_answers(left: Composed, right: Composed, out: &[u8], other: &[u8]) -> Option<Likeness>
    requires left { IfOk left.answer (λ n. (n ≤ length out.now) × Sections (take n out.now)) }
    requires right { IfOk right.answer (λ n. (n ≤ length other.now) × Sections (take n other.now)) }
    ensures { (l s : Side) → Decides left.led (Led l) → Decides right.led (Led s) → Likened l s (seen left.answer out.now) (seen right.answer other.now) result }
{
    let Ok(n) = left.answer else {
        return None;
    };
    let Ok(m) = right.answer else {
        return None;
    };
    Some(liken(&out[0..n], &other[0..m], left.led, right.led))
}

/// Plays each run on a new bench and composes it: the left one over the first fleet into `out`, the
/// right one over the second into `other`. The law of two runs is said of what the buffers then hold.
pub fn compare<F: Fleet, G: Fleet>(
    left: &[Call<'_>],
    right: &[Call<'_>],
    first: &F,
    second: &G,
    out: &mut [u8],
    other: &mut [u8],
) -> Comparison
    ensures left { Answered (side left.now (F.Meant.meaning first.now) out.old) result.left out.old out.new }
    ensures right { Answered (side right.now (G.Meant.meaning second.now) other.old) result.right other.old other.new }
    ensures likeness { Likened (side left.now (F.Meant.meaning first.now) out.old) (side right.now (G.Meant.meaning second.now) other.old) (seen result.left out.new) (seen result.right other.new) result.likeness }
    ensures law { Joint (side left.now (F.Meant.meaning first.now) out.old) (side right.now (G.Meant.meaning second.now) other.old) (seen result.left out.new) (seen result.right other.new) }
{
    let composed = compose_run(left, first, out);
    let beside = compose_run(right, second, other);
    Comparison {
        left: composed.answer,
        right: beside.answer,
        likeness: liken_answers(composed, beside, out, other),
    }
}
