//! Where a rule has to hold.

/// What is asked of a rule: RFC 7940, section 5.2, calls them "when" and "not-when".
#[derive(Clone, Copy, PartialEq, Eq)]
pub enum ConditionKind {
    /// The rule has to hold.
    When,
    /// The rule must not hold.
    Unless,
}

/// Where a source or a variant may be used, by the number of a rule.
#[derive(Clone, Copy, PartialEq, Eq)]
pub struct Condition {
    pub kind: ConditionKind,
    pub rule: u8,
}
