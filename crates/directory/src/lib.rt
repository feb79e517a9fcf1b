// The train directory and the operational train directory of a coupled train.
#![tactic(auto)]

pub mod cars;
mod checks;
pub mod comparing;
pub mod composing;
mod leading_end;
mod loading;
mod orders;
mod rows;
mod tables;
mod writing;
