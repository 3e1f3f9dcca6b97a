//! One run: its lines, and how it ends; and a file of registered labels that isn't read.

pub(crate) mod lines;
pub(crate) mod report;
pub(crate) mod run;
pub(crate) mod table;
