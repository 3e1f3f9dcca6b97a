//! Actions as their lines write them.
ghost use Rattle.std.specs.Prelude.{◌≡◌, ◌++◌, OnOk};
ghost use Rattle.std.specs.Option.{option_map};
ghost use Rattle.ruleset_text.specs.ActionForms as forms;
ghost use Rattle.ruleset_text.specs.Actions as text;

use crate::canonical::{push_byte, push_bytes};
use crate::named_condition::{NamedCondition, push_condition};
use crate::names::Name;
use std::alloc::AllocError;
use variant_dispositions::Disposition;

/// Which of the types that a reading records an action asks for: RFC 7940, section 7.2, calls them "any-variant",
/// "all-variants" and "only-variants".
#[derive(Clone, Copy, PartialEq, Eq)]
pub enum TriggerKind {
    Any,
    All,
    Only,
}

/// The types that an action asks for, in the order of its line.
#[derive(Drop)]
pub struct NamedTrigger {
    pub kind: TriggerKind,
    /// At least one, and none of them twice.
    pub types: Vec<Name>,
}

/// What becomes of a label that triggers it (RFC 7940, section 7). Its rule and its types go by their names.
#[derive(Drop)]
pub struct NamedAction {
    pub disposition: Disposition,
    /// The whole-label rule that a label has to match, or must not.
    pub condition: Option<NamedCondition>,
    pub trigger: Option<NamedTrigger>,
}

/// Appends the canonical text of an action, without its keyword.
pub fn push_action_text(out: &mut Vec<u8>, action: &NamedAction) -> Result<(), AllocError>
    ensures { OnOk result (out.new.items ≡ out.old.items ++ text.action_text (forms.action action.now)) }
{
    push_bytes(out, disposition_word(action.disposition))?;
    push_condition(out, &action.condition)?;
    push_trigger(out, &action.trigger)
}

/// Appends how types are asked for and these, or nothing.
fn push_trigger(out: &mut Vec<u8>, trigger: &Option<NamedTrigger>) -> Result<(), AllocError>
    ensures { OnOk result (out.new.items ≡
        out.old.items ++ text.trigger_text (option_map forms.trigger trigger.now)) }
{
    let Some(trigger) = trigger else {
        return Ok(());
    };
    push_byte(out, b' ')?;
    push_bytes(out, trigger_word(trigger.kind))?;
    push_byte(out, b' ')?;
    push_names(out, &trigger.types)
}

/// Appends names, with `,` between them.
fn push_names(out: &mut Vec<u8>, names: &[Name]) -> Result<(), AllocError>
    ensures { OnOk result (out.new.items ≡ out.old.items ++ text.names_text names.now) }
{
    match names {
        [] => Ok(()),
        [name] => push_bytes(out, name.as_slice()),
        [name, others @ ..] => {
            push_bytes(out, name.as_slice())?;
            push_byte(out, b',')?;
            push_names(out, others)
        }
    }
}

/// The word of a disposition, which is also the name of the predefined type that goes with it.
pub fn disposition_word(disposition: Disposition) -> &'static [u8]
    ensures { result.now ≡ text.disposition_word disposition }
{
    match disposition {
        Disposition::Invalid => b"invalid",
        Disposition::Blocked => b"blocked",
        Disposition::Allocatable => b"allocatable",
        Disposition::Activated => b"activated",
        Disposition::Valid => b"valid",
    }
}

fn trigger_word(kind: TriggerKind) -> &'static [u8]
    ensures { result.now ≡ text.trigger_word kind }
{
    match kind {
        TriggerKind::Any => b"any",
        TriggerKind::All => b"all",
        TriggerKind::Only => b"only",
    }
}
