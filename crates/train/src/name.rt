// A vehicle's name: a text of printable bytes, filled up with zero bytes to sixteen.
ghost use Rattle.std.specs.Prelude.{◌≡◌, ◌≤◌, length, take, Some, Decides, refl};
ghost use Rattle.std.specs.Str.{bytes_eq};
ghost use Rattle.train.specs.Octets.{ranked};
ghost use Rattle.train.specs.Ranks.{ranked_total, ranked_ties};
ghost use Rattle.train.specs.Names.{every, printable, text_of, well_formed, IsName};
ghost use Rattle.std.specs.Cmp.Rules.{comparing};
ghost use Rattle.std.proofs.Common.{rules};
ghost use Rattle.std.specs.Cmp as Keys;
ghost use Rattle.std.specs.Cmp.{partial_order_from_agreeing_total, on_total};

use crate::octets;
use std::cmp::Ordering;

/// Any sixteen bytes; `is_well_formed` tells whether they are a name.
#[derive(Clone, Copy, Default, Debug)]
pub struct Name {
    pub bytes: [u8; 16],
}

const LONGEST: usize = 15;

/// How many bytes stand in front of the first zero byte.
pub fn text_len(bytes: &[u8]) -> usize
    ensures value { result ≡ length (text_of bytes.now) }
    ensures front { take result bytes.now ≡ text_of bytes.now }
    ensures bound { result ≤ length bytes.now }
{
    bytes.iter().position(|b| *b == 0).unwrap_or(bytes.len())
}

fn all_printable(bytes: &[u8]) -> bool
    ensures { result ≡ every printable bytes.now }
{
    bytes.iter().all(|b| matches!(*b, b' '..=b'~'))
}

/// Whether these bytes are a name.
pub fn well_formed(bytes: &[u8]) -> bool
    ensures value { result ≡ well_formed bytes.now }
    ensures rule { Decides result (IsName bytes.now) }
{
    let n = text_len(bytes);
    if n == 0 || n > LONGEST {
        return false;
    }
    let (text, rest) = bytes.split_at(n);
    all_printable(text) && octets::same(rest, &[0; 16][n..])
}

impl Name {
    /// Whether the bytes are a name.
    pub fn is_well_formed(&self) -> bool
        ensures value { result ≡ well_formed self.now.bytes }
        ensures rule { Decides result (IsName self.now.bytes) }
    {
        well_formed(&self.bytes)
    }
}

impl PartialEq for Name {
    ghost eq = { λ a b. bytes_eq a.bytes b.bytes };

    ghost laws = { Keys.partial_equiv_from_equiv (Prim.search (comparing, rules)) };

    fn eq(&self, other: &Name) -> bool {
        octets::same(&self.bytes, &other.bytes)
    }
}

impl Eq for Name {
    ghost laws = { Prim.search (comparing, rules) };
}

impl PartialOrd for Name {
    ghost partial_cmp = { λ a b. Some (ranked a.bytes b.bytes) };

    ghost laws = { partial_order_from_agreeing_total (λ a b. ranked a.bytes b.bytes) (on_total (λ x. x.bytes) ranked_total) (λ _ _. refl) (λ x y. ranked_ties x.bytes y.bytes) };

    fn partial_cmp(&self, other: &Name) -> Option<Ordering> {
        Some(octets::rank(&self.bytes, &other.bytes))
    }
}
