//! Answers as objects of JSON (RFC 8259), one on each line. Each is written into a buffer of a fixed size, and no
//! memory is taken.
#![tactic(auto)]

mod answered;
mod block;
mod checked;
mod collision;
mod details;
mod ends;
mod escaping;
mod hexadecimal;
mod input;
mod laws;
mod member;
mod refusal_members;
mod refused;
mod room;

pub use answered::{
    write_decoded, write_least, write_looked_up, write_no_least, write_old_label, write_registered,
};
pub use block::{Disposition, write_trailer, write_variant};
pub use checked::{PairFinding, write_checked, write_idle, write_pair};
pub use collision::{Regard, Regards, write_collision};
pub use input::Input;
pub use laws::{objects_are_lines, objects_are_read_back, objects_are_unicode, objects_have_texts};
pub use refusal_members::RefusalMembers;
pub use refused::{write_refused, write_registered_fault, write_table_fault};
pub use room::{MAX_OBJECT_LEN, ObjectRoom};
