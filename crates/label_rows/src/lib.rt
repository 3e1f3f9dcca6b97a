//! Tests of what is called from outside, of the crates of text, code points, labels and names: examples of each call
//! that no run makes, readers that fail. Each file is named for what it shows.
#![tactic(auto)]

#[cfg(test)]
mod code_points;
#[cfg(test)]
mod hopeless;
#[cfg(test)]
mod labels;
#[cfg(test)]
mod punycode;
#[cfg(test)]
mod reading;
#[cfg(test)]
mod utf8;
