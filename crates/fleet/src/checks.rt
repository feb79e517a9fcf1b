// The checks over the entries of a book.
ghost use Rattle.std.specs.Prelude.{◌≡◌, ◌+◌, ◌≤◌, length};
ghost use Rattle.std.specs.Str.{bytes_eq};
ghost use Rattle.train.specs.Refusals.{refusal_of, breach, refusal, each, alone, fresh, by};
ghost use Rattle.train.specs.declared.refusal.Part.TheVariants.{Book};
ghost use Rattle.train.specs.declared.refusal.Reason.TheVariants.{IdentityOrder, ZeroCounter, EntryCount, NameForm, UnknownFacing, Repeated};
ghost use Rattle.fleet.specs.Rows.{name_of, ascending, counted, sized, sizes, named, faced, behind, apart_checks};

use crate::rows::{is_counted, is_sized, size_of};
use train::checks::{each_passes, facings_known, identities_rise, labels_apart, names_well_formed};
use train::refusal::{Part, Place, Reason, Refusal};
use train::rows::{ConsistRow, FacedRow};

/// The identities rise.
pub fn rising(consists: &[ConsistRow]) -> Result<(), Refusal>
    ensures { refusal_of result ≡ breach Book (each ascending IdentityOrder consists.now) }
{
    identities_rise(Part::Book, consists)
}

/// No counter is zero.
pub fn all_counted(consists: &[ConsistRow]) -> Result<(), Refusal>
    ensures { refusal_of result ≡ breach Book (each (alone counted) ZeroCounter consists.now) }
{
    each_passes(Part::Book, Reason::ZeroCounter, consists, is_counted)
}

/// Each consist has 1 to 32 vehicles.
pub fn all_sized(consists: &[ConsistRow]) -> Result<(), Refusal>
    ensures { refusal_of result ≡ breach Book (each (alone sized) EntryCount consists.now) }
{
    each_passes(Part::Book, Reason::EntryCount, consists, is_sized)
}

/// The names are well formed.
pub fn all_named(vehicles: &[FacedRow]) -> Result<(), Refusal>
    ensures { refusal_of result ≡ breach Book (each (alone named) NameForm vehicles.now) }
{
    names_well_formed(Part::Book, vehicles)
}

/// The facings are known.
pub fn all_faced(vehicles: &[FacedRow]) -> Result<(), Refusal>
    ensures { refusal_of result ≡ breach Book (each (alone faced) UnknownFacing vehicles.now) }
{
    facings_known(Part::Book, vehicles)
}

/// No name stands twice in the consist whose vehicles these are, behind `from` others.
fn apart_in(vehicles: &[FacedRow], from: usize) -> Result<(), Refusal>
    requires { from + length vehicles.now ≤ 2000 }
    ensures { refusal_of result ≡ breach Book (behind from (each (fresh (by bytes_eq name_of)) Repeated vehicles.now)) }
{
    match labels_apart(Part::Book, vehicles) {
        Err(
            Refusal {
                place: Place::At(place),
                ..
            },
        ) => { Err(Refusal::at(Part::Book, Reason::Repeated, from + place)) }
        other => other,
    }
}

/// No name stands twice in a consist.
pub fn all_apart(consists: &[ConsistRow], vehicles: &[FacedRow]) -> Result<(), Refusal>
    requires whole { sizes consists.now ≡ length vehicles.now }
    requires few { length vehicles.now ≤ 2000 }
    ensures { refusal_of result ≡ refusal Book (apart_checks 0 consists.now vehicles.now) }
{
    let mut from = 0;
    let mut rest = vehicles;
    for row in consists {
        let (own, others) = rest.split_at(usize::from(size_of(row)));
        apart_in(own, from)?;
        from += own.len();
        rest = others;
    }
    Ok(())
}
