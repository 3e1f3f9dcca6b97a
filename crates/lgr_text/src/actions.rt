//! Actions of a file as a ruleset has them (RFC 7940, section 7).
ghost use Rattle.std.specs.Prelude.{◌≡◌, IfOk, OnOk, map};
ghost use Rattle.std.specs.Option.{option_map};
ghost use Rattle.ruleset_text.specs.ActionForms as forms;
ghost use Rattle.lgr_text.specs.ActionNames.{called as called_name, condition_called, trigger_called, SaysAction};
ghost use Rattle.lgr_text.specs.ActionNames.{action_fault, condition_fault, name_fault, trigger_fault, with_name};
ghost use Rattle.lgr_text.specs.inner.Faults.{IsFaultOf};
ghost use Rattle.lgr_text.specs.Records.{action as action_of, condition as condition_of, trigger as trigger_of};

use crate::records::{Action, Condition, Trigger};
use crate::rule_error::{RuleError, RuleFault};
use ruleset_text::{
    Name, NamedAction, NamedCondition, NamedTrigger, disposition_of, is_one_of, number_of,
};
use std::alloc::{AllocError, Global};

/// Names of a file, and what each is called in a ruleset.
#[derive(Clone, Copy)]
pub struct Renamed<'a> {
    pub names: &'a [Name],
    pub written: &'a [Name],
}

/// An action as a ruleset has it, with its names for rules and types.
pub fn named_action(
    alloc: Global,
    rules: Renamed<'_>,
    types: Renamed<'_>,
    action: &Action,
) -> Result<NamedAction, RuleError>
    ensures says { IfOk result (λ named.
        SaysAction rules.entry types.entry (action_of action.now) (forms.action named)) }
    ensures fault { IsFaultOf (action_fault rules.entry types.entry (action_of action.now)) result }
{
    let Some(disposition) = disposition_of(action.disposition.as_slice()) else {
        return Err(RuleError::Fault(RuleFault::NotSupported));
    };
    Ok(NamedAction {
        disposition,
        condition: named_condition(alloc, rules, &action.condition)?,
        trigger: named_trigger(alloc, types, &action.trigger)?,
    })
}

fn named_condition(
    alloc: Global,
    rules: Renamed<'_>,
    condition: &Option<Condition>,
) -> Result<Option<NamedCondition>, RuleError>
    ensures says { IfOk result (λ named. named ≡
        option_map (condition_called rules.entry) (option_map condition_of condition.now)) }
    ensures fault { IsFaultOf (condition_fault rules.entry (option_map condition_of condition.now)) result }
{
    let Some(condition) = condition else {
        return Ok(None);
    };
    Ok(Some(NamedCondition {
        kind: condition.kind,
        rule: called(alloc, rules, condition.rule.name.as_slice())?,
    }))
}

fn named_trigger(
    alloc: Global,
    types: Renamed<'_>,
    trigger: &Option<Trigger>,
) -> Result<Option<NamedTrigger>, RuleError>
    ensures says { IfOk result (λ named. option_map forms.trigger named ≡
        option_map (trigger_called types.entry) (option_map trigger_of trigger.now)) }
    ensures fault { IsFaultOf (trigger_fault types.entry (option_map trigger_of trigger.now)) result }
{
    let Some(trigger) = trigger else {
        return Ok(None);
    };
    let mut names = Vec::new(alloc);
    for name in &trigger.types {
        push_once(&mut names, called(alloc, types, name.as_slice())?)?;
    }
    Ok(Some(NamedTrigger {
        kind: trigger.kind,
        types: names,
    }))
}

/// Appends a name, if it isn't one of the names.
fn push_once(names: &mut Vec<Name>, name: Name) -> Result<(), AllocError>
    ensures { OnOk result (names.new.items ≡ with_name names.old.items name) }
{
    if !is_one_of(names, name.as_slice()) {
        names.push(name)?;
    }
    Ok(())
}

/// What a name of the file is called in the ruleset.
fn called(alloc: Global, names: Renamed<'_>, name: &[u8]) -> Result<Name, RuleError>
    ensures is { IfOk result (λ written. written ≡ called_name names.entry name.now) }
    ensures fault { IsFaultOf (name_fault names.entry name.now) result }
{
    let number = number_of(names.names, name);
    if number < names.written.len() {
        Ok(Name::copied(alloc, names.written[number].as_slice())?)
    } else {
        Err(RuleError::Fault(RuleFault::Undefined))
    }
}
