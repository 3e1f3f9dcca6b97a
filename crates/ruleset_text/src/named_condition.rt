//! Conditions by the names of their rules.
ghost use Rattle.std.specs.Prelude.{◌≡◌, ◌++◌, OnOk};
ghost use Rattle.ruleset_text.specs.NamedConditions as text;

use crate::canonical::push_bytes;
use crate::names::Name;
use label_patterns::ConditionKind;
use std::alloc::AllocError;

/// Where a source or a variant may be used, or which labels an action is about, by the name of a rule.
#[derive(Drop)]
pub struct NamedCondition {
    pub kind: ConditionKind,
    pub rule: Name,
}

/// Appends a blank, `when` or `unless` and the name, or nothing.
pub fn push_condition(
    out: &mut Vec<u8>,
    condition: &Option<NamedCondition>,
) -> Result<(), AllocError>
    ensures { OnOk result (out.new.items ≡ out.old.items ++ text.condition_text condition.now) }
{
    let Some(condition) = condition else {
        return Ok(());
    };
    push_bytes(out, condition_word(condition.kind))?;
    push_bytes(out, condition.rule.as_slice())
}

fn condition_word(kind: ConditionKind) -> &'static [u8]
    ensures { result.now ≡ text.condition_word kind }
{
    match kind {
        ConditionKind::When => b" when ",
        ConditionKind::Unless => b" unless ",
    }
}
