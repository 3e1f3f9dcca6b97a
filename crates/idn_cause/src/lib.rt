//! Why a label is refused: what breaks the rule of its first fault, and where. It is looked for only once a label is
//! refused, so that no test of a label takes longer for it.
#![tactic(auto)]

mod a_label;
mod cause;
mod coded;
mod label;
mod laws;
mod lengths;
mod name;
mod normalization;
mod places;
mod query;

pub use a_label::{ALabelCause, a_label_cause};
pub use cause::Cause;
pub use coded::{LabelUtf8, coded_label};
pub use label::cause_of;
pub use laws::{
    a_label_causes_are_told, causes_are_told, coded_labels_are_told, name_causes_are_told,
    query_causes_are_told,
};
pub use name::{NameCause, name_cause};
pub use query::{LengthCause, query_cause};
