// The checks over the lines of a list, one loop each.
ghost use Rattle.std.specs.Prelude.{◌≡◌, map};
ghost use Rattle.train.specs.Refusals.{refusal_of, breach, each, alone};
ghost use Rattle.train.specs.declared.refusal.Part.TheVariants.{Text};
ghost use Rattle.train.specs.declared.refusal.Reason.TheVariants.{IdentityOrder, Repeated};
ghost use Rattle.fleet_list.specs.Entries.{head_identity};
ghost use Rattle.fleet_list.specs.Imports.{rising, names_apart, vehicles_of};
ghost use Rattle.fleet_list.specs.Consists.{items_in};

use crate::consists::Consists;
use crate::tables::Head;
use train::checks::{self, labels_apart};
use train::entries::Vehicle;
use train::refusal::{Part, Reason, Refusal};

// The identities rise.
pub fn identities_rise(heads: &[Head]) -> Result<(), Refusal>
    ensures { refusal_of result ≡ breach Text (each rising IdentityOrder (map head_identity heads.now)) }
{
    checks::identities_rise(Part::Text, heads)
}

fn are_apart(vehicles: &[Vehicle]) -> bool
    ensures { result ≡ names_apart vehicles.now }
{
    labels_apart(Part::Text, vehicles).is_ok()
}

// No name stands twice in a line.
pub fn names_apart(consists: Consists) -> Result<(), Refusal>
    ensures { refusal_of result ≡ breach Text (each (alone names_apart) Repeated (map vehicles_of (items_in consists.entry))) }
{
    for (i, consist) in consists.enumerate() {
        if !are_apart(consist.vehicles) {
            return Err(Refusal::at(Part::Text, Reason::Repeated, i + 1));
        }
    }
    Ok(())
}
