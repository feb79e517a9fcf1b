// A claim on the leading end.
use train::facing::Facing;

/// The cab that leads: a vehicle's number in its consist, and which end of the consist it points to.
#[derive(Clone, Copy)]
pub struct Claim {
    pub vehicle: u8,
    pub direction: Facing,
}
