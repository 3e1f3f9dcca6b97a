//! Refusals: why a line, a table or a file of registered labels is refused, and how that is told.
#![tactic(auto)]

mod cause;
mod cause_words;
mod closing;
mod digits;
mod fault_cause;
mod message;
mod refusing;
mod registered;
mod registered_cause;
mod request;
mod rules;
mod table;
mod told_cause;

pub use cause::{Explaining, LineCause};
pub use closing::report;
pub use refusing::refuse;
pub use registered::refuse_registered;
pub use request::{label_of_request, parts_of};
pub use table::{refuse_table, refuse_table_line};
