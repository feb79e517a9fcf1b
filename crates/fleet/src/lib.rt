// Fleets: what every source of consists answers, the book over lent bytes, and the roster.
#![tactic(auto)]

pub mod book;
mod checks;
mod parts;
pub mod questions;
pub mod roster;
pub mod rows;
mod seek;
