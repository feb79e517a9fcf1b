// How the pages of a fleet list are printed, but for the names of vehicles.
ghost use Rattle.std.specs.Prelude.{◌∷◌, ◌++◌, [], ◌<◌, Some, codes, decimal};
ghost use Rattle.coach_order.specs.Pages.{line_start, refusal_text};

use std::fmt;
use train::facing::Facing;
use train::refusal::Refusal;

/// How a page of so many vehicles begins.
#[derive(Clone, Copy)]
pub(crate) struct PageStart(pub(crate) usize);

impl fmt::Display for PageStart {
    ghost output = { λ start. Some (codes "vehicles " ++ (decimal start.0 ++ 10 ∷ [])) };

    fn fmt<W: fmt::Write>(&self, f: &mut fmt::Formatter<W>) -> fmt::Result {
        writeln!(f, "vehicles {}", self.0)
    }
}

/// How a vehicle's line begins: its number in two digits and its facing.
#[derive(Clone, Copy)]
pub(crate) struct LineStart {
    pub(crate) number: usize,
    pub(crate) facing: Facing,
    ghost short: { number < 100 },
}

impl fmt::Display for LineStart {
    ghost output = { λ start. Some (line_start start.number start.facing) };

    #[tactic(auto, using(crate::proofs::Digits::two_digits_of))]
    fn fmt<W: fmt::Write>(&self, f: &mut fmt::Formatter<W>) -> fmt::Result {
        let LineStart { number, facing } = *self;
        write!(f, "{number:02} {facing} ")
    }
}

/// The page of a refusal: its number and its place.
#[derive(Clone, Copy)]
pub(crate) struct RefusalPage(pub(crate) Refusal);

impl fmt::Display for RefusalPage {
    ghost output = { λ page. Some (refusal_text page.0) };

    fn fmt<W: fmt::Write>(&self, f: &mut fmt::Formatter<W>) -> fmt::Result {
        let Refusal { reason, place, .. } = self.0;
        writeln!(f, "refused {} {place}", reason.number())
    }
}
