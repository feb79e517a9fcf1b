// The questions of a bench.
ghost use Rattle.std.specs.Prelude.{◌≡◌, ◌≤◌, false, length, MatchOption};
ghost use Rattle.bench.specs.Facts.{nothing, coupled_in, some, Place};
ghost use Rattle.bench.specs.Shown.{shown};

use super::*;
use crate::claims::Claim;
use train::identity::Identity;

/// The place of a consist in a formation.
pub(crate) fn place_of(formation: &[Coupled], identity: &Identity) -> Option<usize>
    ensures { MatchOption result (coupled_in identity.now formation.now ≡ false) (λ i. Place identity.now formation.now i) }
{
    formation
        .iter()
        .position(|entry| *identity == entry.identity)
}

impl Bench {
    /// Nothing stands on a new bench.
    pub fn new() -> Bench
        ensures { shown result ≡ nothing }
    {
        Bench {
            etb: 0,
            formation: ArrayVec::new(),
            claims: [None; MOST],
            confirmed: ArrayVec::new(),
        }
    }

    /// The entries of the formation, in train direction; none where no formation stands.
    pub fn formation(&self) -> &[Coupled]
        ensures value { result.now ≡ (shown self.now).formation }
        ensures few { length result.now ≤ 63 }
    {
        self.formation.as_slice()
    }

    /// The names of the confirmed list; none where no list stands.
    pub fn confirmed(&self) -> &[Name]
        ensures value { result.now ≡ (shown self.now).confirmed }
        ensures few { length result.now ≤ 63 }
    {
        self.confirmed.as_slice()
    }

    /// The ETB counter; 0 where no formation stands.
    pub fn etb_counter(&self) -> u32
        ensures { result ≡ (shown self.now).etb }
    {
        self.etb
    }

    pub(crate) fn is_formed(&self) -> bool
        ensures { result ≡ some (shown self.now).formation }
    {
        !self.formation.is_empty()
    }

    /// The claim of a consist, if one stands.
    pub fn claim_of(&self, identity: &Identity) -> Option<Claim>
        ensures { result ≡ (shown self.now).claims identity.now }
    {
        let place = place_of(self.formation(), identity)?;
        self.claims[place]
    }
}
