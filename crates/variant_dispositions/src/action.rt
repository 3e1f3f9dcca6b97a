//! The actions of a ruleset.
ghost use Rattle.std.specs.Prelude.{◌≡◌, Some};
ghost use Rattle.variant_dispositions.specs.Kinds.{kinds_in};
ghost use Rattle.variant_dispositions.specs.Actions.{has_types, meets, is_triggered};

use crate::disposition::Disposition;
use crate::kinds::{TYPES, UNMAPPED};
use crate::label_rules::LabelRules;
use label_patterns::{Condition, ConditionKind};

/// Which types have to be recorded (RFC 7940, section 7.2). A set of types is a word with the bits of their kinds.
#[derive(Clone, Copy, PartialEq, Eq)]
pub enum TypeTrigger {
    /// One of these.
    Any(u64),
    /// One or more of these, and nothing else but sources that stay without a reflexive type.
    All(u64),
    /// These alone.
    Only(u64),
}

/// What becomes of a label that triggers it (RFC 7940, section 7.1).
#[derive(Clone, Copy, PartialEq, Eq)]
pub struct Action {
    pub disposition: Disposition,
    /// Whether the label has to match a rule, or must not. `None` asks for no rule.
    pub condition: Option<Condition>,
    /// `None` asks for no types.
    pub types: Option<TypeTrigger>,
}

impl TypeTrigger {
    /// Whether what is recorded has the types.
    fn is_met(self, kinds: u64) -> bool
        ensures { result ≡ has_types (Some self) (kinds_in kinds) }
    {
        match self {
            TypeTrigger::Any(types) => kinds & (types & TYPES) != 0,
            TypeTrigger::All(types) => {
                let mapped = kinds & !UNMAPPED;
                mapped != 0 && mapped & !(types & TYPES) == 0
            }
            TypeTrigger::Only(types) => kinds & !(types & TYPES) == 0,
        }
    }
}

impl Action {
    /// Whether a label of which a reading records these kinds triggers the action. The rule is asked last.
    pub fn is_triggered<R: LabelRules>(&self, kinds: u64, rules: &R) -> bool
        ensures { result ≡ is_triggered (R.matched rules.now) (kinds_in kinds) self.now }
    {
        if let Some(types) = self.types
            && !types.is_met(kinds)
        {
            return false;
        }
        match self.condition {
            Some(condition) => meets_condition(condition, rules),
            None => true,
        }
    }
}

/// Whether a label meets a condition.
fn meets_condition<R: LabelRules>(condition: Condition, rules: &R) -> bool
    ensures { result ≡ meets (R.matched rules.now) (Some condition) }
{
    let matches = rules.matches(condition.rule);
    match condition.kind {
        ConditionKind::When => matches,
        ConditionKind::Unless => !matches,
    }
}
