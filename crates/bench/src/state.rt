// The state of a bench.
use crate::claims::Claim;
use arrayvec::ArrayVec;
use train::entries::Coupled;
use train::name::Name;

mod ops;
mod questions;

/// The most entries of a formation, and names of a confirmed list.
pub const MOST: usize = 63;

/// What one train's inauguration, claims and confirmed list are. The claims stand at the places of their consists in
/// the formation.
#[derive(Drop)]
pub struct Bench {
    pub(crate) etb: u32,
    pub(crate) formation: ArrayVec<Coupled, MOST>,
    pub(crate) claims: [Option<Claim>; MOST],
    pub(crate) confirmed: ArrayVec<Name, MOST>,
}
