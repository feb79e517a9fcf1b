// The words of the subject: identities, names, facings, entries along a train, refusals, and turning.
#![tactic(auto)]

pub mod checks;
mod display;
pub mod entries;
pub mod facing;
pub mod identity;
pub mod name;
pub mod octets;
pub mod refusal;
pub mod rows;
pub mod turning;
