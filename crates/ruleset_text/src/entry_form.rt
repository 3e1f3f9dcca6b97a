//! What a line of an entry or of a range says.
use crate::named_condition::NamedCondition;
use crate::names::Name;

/// A source or a variant, as a line writes it: with `!` or without, with the name of its type, and its condition. `!`
/// before a source says `as invalid`, and before a variant `as blocked`.
#[derive(Drop)]
pub struct Mapped {
    pub marked: bool,
    pub points: Vec<u32>,
    pub type_name: Option<Name>,
    pub condition: Option<NamedCondition>,
}

/// An entry: its source, then its variants. Or a range: a source of one code point, and the last code point.
#[derive(Drop)]
pub struct EntryForm {
    pub mapped: Vec<Mapped>,
    pub last: Option<u32>,
}
