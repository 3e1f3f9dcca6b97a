//! Which code points a label may hold, and where: the class of a code point (RFC 5892), the rules for
//! those that need a context (RFC 5892, appendix A), the Bidi rule (RFC 5893, section 2), whether a
//! label begins with a combining mark (RFC 5891, section 4.2.3.2), and, by one look-up for each code
//! point, which of these tests a label needs.
#![tactic(auto)]

mod barring;
mod beginning;
mod bidi;
mod bidi_class;
mod broken;
mod cached_label;
mod cached_prefixes;
mod category;
mod class;
mod class_table;
mod contextj;
mod contexto;
mod direction;
mod facts;
mod joining_type;
mod known;
mod laws;
mod mark;
mod neighbor;
mod properties;
mod shared;
mod stability;

pub use barring::{BarringLine, barring_line};
pub use beginning::{hopeless, hopeless_by, shortest_hopeless};
pub use bidi::{bidi_ok, bidi_ok_by};
pub use bidi_class::BidiClass;
pub use broken::{BidiCondition, Broken, broken_condition, broken_in_name};
pub use cached_label::{CachedLabel, MAX_LABEL_LEN};
pub use cached_prefixes::CachedPrefixes;
pub use class::{Class, class_of, class_of_by};
pub use contextj::{contextj_ok, contextj_ok_by, misplaced_joiner};
pub use contexto::{contexto_ok, misplaced_other};
pub use facts::{Fact, Facts};
pub use joining_type::JoiningType;
pub use laws::{
    barring_lines_are_told, bidi_part_is_exact, bidi_rows, class_rows, first_faults_are_told,
    hopeless_for_good, hopeless_rows, joiner_rows, lists_of_the_profile, mark_rows,
    only_rtl_labels_pass, other_rows, profile_is_stricter, standard_rows, tests_are_rules,
};
pub use mark::leading_mark;
pub use properties::Properties;
pub use shared::shared_len;
