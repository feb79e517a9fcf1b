// The calls by which a program in C or Rust links the core: numbers and lent bytes alone.
#![tactic(auto)]

pub mod answer;
mod entries;
pub mod lists;
pub mod plan;
