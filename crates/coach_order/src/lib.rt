// The coach order of a fleet list: all its consists coupled as they stand there, composed, and read from the head.
#![tactic(auto)]

mod coupling;
pub mod order;
pub mod page;
mod section;
mod show;
