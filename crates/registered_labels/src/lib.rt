//! The registered labels of a registry, and those of them that a variant graph spells.
#![tactic(auto)]

mod collisions;
mod labels;
pub mod laws;
mod order;

pub use collisions::Collisions;
pub use labels::{RegisteredFileFault, RegisteredLabels};
