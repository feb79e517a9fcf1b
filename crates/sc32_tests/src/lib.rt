// Tests of sc32: published values, and a second implementation, bit by bit.
#![tactic(auto)]

#[cfg(test)]
mod generated;
#[cfg(test)]
mod published;
