// Compositions of small trains, their rows written out by hand from the rules.
#![tactic(auto)]

#[cfg(test)]
mod edges;
#[cfg(test)]
mod orders;
#[cfg(test)]
mod rows;
