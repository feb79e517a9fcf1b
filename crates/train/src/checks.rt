// Checks over the entries of a lent slice that several calls make: each runs over all entries, in
// order, and refuses at the first that breaks its rule.
ghost use Rattle.std.specs.Prelude.{◌≡◌, ℕ, Bool, List};
ghost use Rattle.train.specs.Facings.{known};
ghost use Rattle.train.specs.Identities.{is_identity, rises, ascending};
ghost use Rattle.train.specs.Names.{well_formed};
ghost use Rattle.train.specs.Refusals.{refusal_of, breach, must, each, alone, among, fresh, by};
ghost use Rattle.train.specs.declared.facing.Facing.{Facing};
ghost use Rattle.train.specs.declared.refusal.Reason.TheVariants.{IdentityOrder, NameForm, UnknownFacing, Repeated};
ghost use Rattle.train.specs.Closures.{Gives};
ghost use Rattle.std.specs.Str.{bytes_eq};

use crate::entries::{Coupled, Vehicle};
use crate::facing::Facing as Way;
use crate::name::Name;
use crate::refusal::{Part, Reason, Refusal};
use crate::{identity, name, octets};

/// An entry that is known by its label: a consist's identity, or a vehicle's name.
pub trait Labelled {
    ghost labels: { Self → List ℕ };

    fn label(&self) -> &[u8]
        ensures { result.now ≡ labels self.now };
}

impl Labelled for Name {
    ghost labels = { λ n. n.bytes };

    fn label(&self) -> &[u8] {
        &self.bytes
    }
}

impl Labelled for Vehicle {
    ghost labels = { λ v. v.name.bytes };

    fn label(&self) -> &[u8] {
        &self.name.bytes
    }
}

impl Labelled for Coupled {
    ghost labels = { λ e. e.identity.bytes };

    fn label(&self) -> &[u8] {
        &self.identity.bytes
    }
}

/// An entry that faces some way.
pub trait Faced {
    ghost faces: { Self → Facing };

    fn way(&self) -> Way
        ensures { result ≡ faces self.now };
}

impl Faced for Vehicle {
    ghost faces = { λ v. v.facing };

    fn way(&self) -> Way {
        self.facing
    }
}

impl Faced for Coupled {
    ghost faces = { λ e. e.facing };

    fn way(&self) -> Way {
        self.facing
    }
}

/// A check that names no place.
pub fn require(part: Part, ok: bool, reason: Reason) -> Result<(), Refusal>
    ensures { refusal_of result ≡ breach part (must ok reason) }
{
    if ok {
        Ok(())
    } else {
        Err(Refusal::at(part, reason, 0))
    }
}

/// Every entry passes a test; the first that fails it is refused.
pub fn each_passes<T, F: Fn(&T) -> bool>(
    part: Part,
    reason: Reason,
    entries: &[T],
    passes: F,
) -> Result<(), Refusal>
    requires { F.IsAlwaysCallable passes }
    ensures { (test : T → Bool) → Gives F.Fn passes test → refusal_of result ≡ breach part (each (alone test) reason entries.now) }
{
    for (i, x) in entries.iter().enumerate() {
        if !passes(x) {
            return Err(Refusal::at(part, reason, i + 1));
        }
    }
    Ok(())
}

/// Every entry faces direct or inverse.
pub fn facings_known<T: Faced>(part: Part, entries: &[T]) -> Result<(), Refusal>
    ensures { refusal_of result ≡ breach part (each (alone (λ x. known (T.Faced.faces x))) UnknownFacing entries.now) }
{
    each_passes(part, Reason::UnknownFacing, entries, |x| x.way().is_known())
}

/// Every label is an identity that a consist may have.
pub fn identities_well_formed<T: Labelled>(part: Part, entries: &[T]) -> Result<(), Refusal>
    ensures { refusal_of result ≡ breach part (each (alone (λ x. is_identity (T.Labelled.labels x))) IdentityOrder entries.now) }
{
    each_passes(part, Reason::IdentityOrder, entries, |x| {
        identity::well_formed(x.label())
    })
}

/// Every label is a well-formed name.
pub fn names_well_formed<T: Labelled>(part: Part, entries: &[T]) -> Result<(), Refusal>
    ensures { refusal_of result ≡ breach part (each (alone (λ x. well_formed (T.Labelled.labels x))) NameForm entries.now) }
{
    each_passes(
        part,
        Reason::NameForm,
        entries,
        |x| name::well_formed(x.label()),
    )
}

/// Whether two entries have the same label.
fn are_alike<T: Labelled>(x: &T, y: &T) -> bool
    ensures { result ≡ by bytes_eq T.Labelled.labels x.now y.now }
{
    octets::same(x.label(), y.label())
}

/// Whether an entry with the label of `x` is among these.
pub fn stands_among<T: Labelled>(x: &T, entries: &[T]) -> bool
    ensures { result ≡ among (by bytes_eq T.Labelled.labels) x.now entries.now }
{
    entries.iter().any(|y| are_alike(x, y))
}

/// No label stands twice; the place is the second's.
pub fn labels_apart<T: Labelled>(part: Part, entries: &[T]) -> Result<(), Refusal>
    ensures { refusal_of result ≡ breach part (each (fresh (by bytes_eq T.Labelled.labels)) Repeated entries.now) }
{
    for (i, x) in entries.iter().enumerate() {
        if stands_among(x, &entries[0..i]) {
            return Err(Refusal::at(part, Reason::Repeated, i + 1));
        }
    }
    Ok(())
}

/// Whether an identity is not zero, and above the one before.
fn is_rise(prior: &[u8], identity: &[u8]) -> bool
    ensures { result ≡ rises prior.now identity.now }
{
    !octets::is_zero(identity) && octets::is_below(prior, identity)
}

/// Every label is not zero, and above the one before.
pub fn identities_rise<T: Labelled>(part: Part, entries: &[T]) -> Result<(), Refusal>
    ensures { refusal_of result ≡ breach part (each (ascending T.Labelled.labels) IdentityOrder entries.now) }
{
    let mut prior: &[u8] = &[];
    for (i, x) in entries.iter().enumerate() {
        if !is_rise(prior, x.label()) {
            return Err(Refusal::at(part, Reason::IdentityOrder, i + 1));
        }
        prior = x.label();
    }
    Ok(())
}
