// A consist's identity: its UUID of sixteen bytes.
ghost use Rattle.std.specs.Prelude.{◌≡◌, Some, refl};
ghost use Rattle.std.specs.Str.{bytes_eq};
ghost use Rattle.train.specs.Identities.{is_identity};
ghost use Rattle.train.specs.Octets.{ranked, zeros};
ghost use Rattle.train.specs.Ranks.{ranked_total, ranked_ties};
ghost use Rattle.std.specs.Cmp.Rules.{comparing};
ghost use Rattle.std.proofs.Common.{rules};
ghost use Rattle.std.specs.Cmp as Keys;
ghost use Rattle.std.specs.Cmp.{partial_order_from_agreeing_total, on_total};

use crate::octets;
use std::cmp::Ordering;

/// Any sixteen bytes; all zero is no consist's identity.
#[derive(Clone, Copy, Default, Debug)]
pub struct Identity {
    pub bytes: [u8; 16],
}

/// Whether these bytes are a consist's identity: sixteen, and not all zero.
pub fn well_formed(bytes: &[u8]) -> bool
    ensures { result ≡ is_identity bytes.now }
{
    bytes.len() == 16 && !octets::is_zero(bytes)
}

impl Identity {
    /// Whether all its bytes are zero.
    pub fn is_zero(&self) -> bool
        ensures { result ≡ bytes_eq self.now.bytes zeros }
    {
        octets::is_zero(&self.bytes)
    }

    /// Whether a consist may have it.
    pub fn is_well_formed(&self) -> bool
        ensures { result ≡ is_identity self.now.bytes }
    {
        well_formed(&self.bytes)
    }
}

impl PartialEq for Identity {
    ghost eq = { λ a b. bytes_eq a.bytes b.bytes };

    ghost laws = { Keys.partial_equiv_from_equiv (Prim.search (comparing, rules)) };

    fn eq(&self, other: &Identity) -> bool {
        octets::same(&self.bytes, &other.bytes)
    }
}

impl Eq for Identity {
    ghost laws = { Prim.search (comparing, rules) };
}

impl PartialOrd for Identity {
    ghost partial_cmp = { λ a b. Some (ranked a.bytes b.bytes) };

    ghost laws = { partial_order_from_agreeing_total (λ a b. ranked a.bytes b.bytes) (on_total (λ x. x.bytes) ranked_total) (λ _ _. refl) (λ x y. ranked_ties x.bytes y.bytes) };

    fn partial_cmp(&self, other: &Identity) -> Option<Ordering> {
        Some(octets::rank(&self.bytes, &other.bytes))
    }
}
