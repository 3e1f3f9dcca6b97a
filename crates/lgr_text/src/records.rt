//! What a ruleset says (RFC 7940), in the order of its file. Names stand for what they name elsewhere.
use crate::joins::SetOperation;
use label_patterns::{ConditionKind, Span};
use ruleset_text::{Name, TriggerKind};

/// A name, and the line of the element that has it.
#[derive(Drop)]
pub struct Reference {
    pub name: Name,
    pub line: usize,
}

/// A set of code points (section 6.2). More than two sets nest to the right.
#[derive(Drop)]
pub enum ClassTree {
    /// Those of the spans, as they are written: none is empty, and they may overlap.
    Listed(Vec<Span>),
    /// Those of the entries with this tag.
    OfTag(Reference),
    /// Those with this property and value, as `gc:Mn`.
    OfProperty(Reference),
    /// Those of the class of this name.
    OfClass(Reference),
    /// What an operation makes of two sets.
    Joined(SetOperation, Box<ClassTree>, Box<ClassTree>),
    Complement(Box<ClassTree>),
}

/// How often a part of a rule stands in a row (section 6.3.3): at least one time, if not any number of times.
#[derive(Clone, Copy, PartialEq, Eq)]
pub struct Count {
    pub least: u32,
    /// `None` if there may be any number more.
    pub most: Option<u32>,
}

/// A rule or a part of one (sections 6.3 and 6.4). More than two parts, and more than two choices, nest to the right. A
/// look-behind and a look-ahead are what stands before and after the anchor.
#[derive(Drop)]
pub enum PartTree {
    /// These code points, one after the other.
    Literal(Vec<u32>),
    Any,
    Of(ClassTree),
    Start,
    End,
    Anchor,
    /// What the rule of this name matches.
    OfRule(Reference),
    Then(Box<PartTree>, Box<PartTree>),
    Choice(Box<PartTree>, Box<PartTree>),
    Times(Count, Box<PartTree>),
}

/// Where an entry or a variant exists (section 5.2), or which labels an action is about (section 7.1).
#[derive(Drop)]
pub struct Condition {
    pub kind: ConditionKind,
    pub rule: Reference,
}

/// A variant of an entry (section 5.3). It may be empty.
#[derive(Drop)]
pub struct Variant {
    pub points: Vec<u32>,
    pub type_name: Option<Name>,
    pub condition: Option<Condition>,
    pub line: usize,
}

/// The code points of a `char`, or those of a `range` (section 5.1).
#[derive(Drop)]
pub enum Source {
    /// At least one.
    Sequence(Vec<u32>),
    /// Each scalar value of the span by itself.
    Range(Span),
}

/// An element of the repertoire (section 5).
#[derive(Drop)]
pub struct Entry {
    pub source: Source,
    pub condition: Option<Condition>,
    pub tags: Vec<Name>,
    pub variants: Vec<Variant>,
    pub line: usize,
}

/// The types that an action asks for (section 7.2).
#[derive(Drop)]
pub struct Trigger {
    pub kind: TriggerKind,
    /// At least one.
    pub types: Vec<Name>,
}

/// What becomes of a label that triggers it (section 7).
#[derive(Drop)]
pub struct Action {
    /// As it is written.
    pub disposition: Name,
    pub condition: Option<Condition>,
    pub trigger: Option<Trigger>,
    pub line: usize,
}

/// What a name stands for: classes and rules have their names in common.
#[derive(Drop)]
pub enum Meaning {
    Class(ClassTree),
    Rule(PartTree),
}

/// A class or a rule with its name.
#[derive(Drop)]
pub struct Definition {
    pub name: Name,
    pub meaning: Meaning,
    pub line: usize,
}

/// What a file says.
#[derive(Drop)]
pub struct Ruleset {
    pub entries: Vec<Entry>,
    pub definitions: Vec<Definition>,
    pub actions: Vec<Action>,
}
