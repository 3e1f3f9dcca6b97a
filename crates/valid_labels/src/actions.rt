//! The actions of a ruleset, with numbers in place of names.
ghost use Rattle.std.specs.Prelude.{◌≡◌, ◌^◌, true, [], IfOk, IsOk, Some};
ghost use Rattle.std.specs.List.{list_all};
ghost use Rattle.ruleset_text.specs.ActionForms as held;
ghost use Rattle.ruleset_text.specs.Actions.{knows_action};
ghost use Rattle.ruleset_text.specs.Definitions.{type_names, type_number, whole_rules};
ghost use Rattle.ruleset_text.specs.Names.{is_one_of};
ghost use Rattle.variant_dispositions.specs.Kinds as kinds;
ghost use Rattle.variant_dispositions.specs.Kinds.{bit_of};
ghost use Rattle.valid_labels.specs.Actions as numbers;

use ruleset_text::{Definitions, Name, NamedAction, NamedTrigger, TriggerKind};
use std::alloc::{AllocError, Global};
use variant_dispositions::{Action, TypeTrigger, kind_of_variant};
use variant_table::look_up_condition;

/// The actions of a ruleset, in the order of its lines. It is an `Err` only where memory was refused, which is taken
/// for actions alone.
pub fn actions_of(alloc: Global, definitions: &Definitions) -> Result<Vec<Action>, AllocError>
    ensures actions { IfOk result (λ actions. actions.items ≡ numbers.actions_of definitions.now) }
    ensures no_memory { definitions.now.actions ≡ [] → IsOk result }
{
    let named_actions = definitions.actions();
    let mut actions = Vec::new(alloc);
    for named in named_actions {
        actions.push(action_of(definitions, named))?;
    }
    Ok(actions)
}

/// An action whose rule and types are defined.
fn action_of(definitions: &Definitions, named: &NamedAction) -> Action
    requires { knows_action (type_names definitions.now) (whole_rules definitions.now) (held.action named.now) ≡ true }
    ensures { result ≡ numbers.action_of definitions.now (held.action named.now) }
{
    let types = match &named.trigger {
        Some(trigger) => Some(trigger_of(definitions, trigger)),
        None => None,
    };
    Action {
        disposition: named.disposition,
        condition: look_up_condition(definitions, &named.condition),
        types,
    }
}

/// The types that an action asks for, which are defined.
fn trigger_of(definitions: &Definitions, trigger: &NamedTrigger) -> TypeTrigger
    requires { list_all (is_one_of (type_names definitions.now)) (held.trigger trigger.now).types ≡ true }
    ensures { result ≡ numbers.trigger_of definitions.now (held.trigger trigger.now) }
{
    let types = word_of(definitions, &trigger.types);
    match trigger.kind {
        TriggerKind::Any => TypeTrigger::Any(types),
        TriggerKind::All => TypeTrigger::All(types),
        TriggerKind::Only => TypeTrigger::Only(types),
    }
}

/// The word with the bits of these types, which are defined.
fn word_of(definitions: &Definitions, names: &[Name]) -> u64
    requires { list_all (is_one_of (type_names definitions.now)) names.now ≡ true }
    ensures { result ≡ numbers.with_types definitions.now 0 names.now }
{
    let mut word = 0;
    for name in names {
        word |= kind_of_name(definitions, name);
    }
    word
}

/// The word with the bit of a type by its name, which is defined.
fn kind_of_name(definitions: &Definitions, name: &Name) -> u64
    requires { is_one_of (type_names definitions.now) name.now ≡ true }
    ensures { result ≡ 2 ^ bit_of (kinds.kind_of_variant (Some (type_number definitions.now name.now))) }
{
    // Only for the proof: the contract of `types` says how many types there are at most.
    let _types = definitions.types();
    kind_of_variant(Some(definitions.type_number(name.as_slice()) as u8))
}
