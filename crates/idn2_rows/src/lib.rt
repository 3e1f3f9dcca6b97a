//! Tests of what is called from outside, of the crates of a run: its options and messages, and writers that fail. Runs of
//! the whole program are tested as rows of conformance/. Each file is named for what it shows.
#![tactic(auto)]

#[cfg(test)]
mod messages;
#[cfg(test)]
mod options;
#[cfg(test)]
mod writing;
