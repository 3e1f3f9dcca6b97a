//! Tests of what is called from outside, of the crates of tables, listings and registered labels: examples of each call
//! that no run makes, how much a search looks at, texts of faults. Each file is named for what it shows.
#![tactic(auto)]

#[cfg(test)]
mod candidates;
#[cfg(test)]
mod collisions;
#[cfg(test)]
mod faults;
#[cfg(test)]
mod nets;
#[cfg(test)]
mod tables;
#[cfg(test)]
mod variants;
