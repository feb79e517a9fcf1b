// Names and numbers along the train, and the order that a confirmed list makes.
ghost use Rattle.std.specs.Prelude.{◌≡◌, ◌+◌, ◌-◌, ◌<◌, ◌≤◌, ◌&&◌, [], length, IfSome, nat_lt, slice_index_or};
ghost use Rattle.train.specs.Identities.{same_identity, same_name};
ghost use Rattle.train.specs.Refusals.{Check, refusal_of, breach, among, keeps, first_breach};
ghost use Rattle.train.specs.declared.refusal.Part.TheVariants.{Composing};
ghost use Rattle.train.specs.declared.refusal.Place.TheVariants.{At};
ghost use Rattle.train.specs.declared.refusal.Reason.TheVariants.{SharedName};
ghost use Rattle.directory.specs.Cars.{no_car};
ghost use Rattle.directory.specs.Composing.{in_order, fresh_name, consist_at, names_apart};
ghost use Rattle.directory.specs.Operation.{names as names_of, pick as pick_of, ordered, strange};
ghost use Rattle.directory.specs.Sections.{place};
ghost use Rattle.directory.specs.Steps.{next_place};

use crate::cars::{Car, Cars};
use train::checks::{Labelled, stands_among};
use train::entries::Coupled;
use train::facing::Facing;
use train::identity::Identity;
use train::name::Name;
use train::refusal::{Part, Reason, Refusal};

impl Labelled for Car {
    ghost labels = { λ c. c.name.bytes };

    fn label(&self) -> &[u8] {
        &self.name.bytes
    }
}

/// The train number of a consist; 0 where it is none of the formation.
pub(crate) fn consist_number(identity: &Identity, formation: &[Coupled]) -> usize
    ensures value { result ≡ place (λ e. same_identity identity.now e.identity) 1 formation.now }
    ensures few { result ≤ length formation.now }
{
    match formation
        .iter()
        .position(|entry| *identity == entry.identity)
    {
        Some(at) => at + 1,
        None => 0,
    }
}

/// The train number of a vehicle; 0 where no vehicle has the name.
pub(crate) fn vehicle_number(name: &Name, train: &[Car]) -> usize
    ensures value { result ≡ place (λ d. same_name name.now d.name) 1 train.now }
    ensures few { result ≤ length train.now }
{
    match train.iter().position(|car| *name == car.name) {
        Some(at) => at + 1,
        None => 0,
    }
}

/// No vehicle has the name of one before it; the place is the second's consist.
pub(crate) fn names_apart(formation: &[Coupled], train: &[Car]) -> Result<(), Refusal>
    ensures { refusal_of result ≡ breach Composing (names_apart formation.now train.now) }
{
    for (i, car) in train.iter().enumerate() {
        if stands_among(car, &train[0..i]) {
            let number = consist_number(&car.consist, formation);
            return Err(Refusal::at(Part::Composing, Reason::SharedName, number));
        }
    }
    Ok(())
}

/// Whether a vehicle of the train has this name.
fn has_name(name: &Name, train: &[Car]) -> bool
    ensures { result ≡ among same_name name.now (names_of train.now) }
{
    train.iter().any(|car| *name == car.name)
}

/// Whether this is the name of the vehicle at a place.
fn is_name_at(name: &Name, train: &[Car], at: usize) -> bool
    ensures { result ≡ (nat_lt at (length train.now) && same_name name.now (slice_index_or train.now at no_car).name) }
{
    at < train.len() && *name == train[at].name
}

/// The place behind this name, where the train's names have been met up to `at`; nothing where the
/// name is the train's and not the next.
fn next_place(name: &Name, train: &[Car], at: usize) -> Option<usize>
    requires { at ≤ length train.now }
    ensures value { result ≡ next_place name.now (names_of train.now) at }
    ensures within { IfSome result (λ k. k ≤ length train.now) }
{
    if !has_name(name, train) {
        return Some(at);
    }
    if is_name_at(name, train, at) {
        Some(at + 1)
    } else {
        None
    }
}

/// Whether a confirmed list, if there is one, has the train's names in order.
pub(crate) fn in_order(confirmed: &[Name], head: &[Car]) -> bool
    ensures { result ≡ in_order confirmed.now (names_of head.now) }
{
    if confirmed.is_empty() {
        return true;
    }
    let mut at = 0;
    for name in confirmed {
        match next_place(name, head, at) {
            Some(next) => at = next,
            None => return false,
        }
    }
    at == head.len()
}

/// The vehicle of this name or, if none has it, an inserted one.
pub(crate) fn pick(train: &[Car], name: &Name) -> Car
    ensures { result ≡ pick_of train.now name.now }
{
    match train.iter().find(|car| *name == car.name) {
        Some(car) => *car,
        None => Car::inserted(*name),
    }
}

/// Lays out the same vehicles once more. They fit, so that the answer of the copy says nothing.
pub(crate) fn copy_to(train: &[Car], cars: &mut Cars)
    requires empty { cars.old.items ≡ [] }
    requires few { length train.now ≤ 63 }
    ensures { cars.new.items ≡ train.now }
{
    let _ = cars.try_extend_from_slice(train);
}

/// Lays out the operational order: the confirmed list's, if there is one.
pub(crate) fn order_by(confirmed: &[Name], head: &[Car], cars: &mut Cars)
    requires empty { cars.old.items ≡ [] }
    requires listed { length confirmed.now ≤ 63 }
    requires headed { length head.now ≤ 63 }
    ensures { cars.new.items ≡ ordered confirmed.now head.now }
{
    if confirmed.is_empty() {
        copy_to(head, cars);
        return;
    }
    for name in confirmed {
        cars.push(pick(head, name));
    }
}
