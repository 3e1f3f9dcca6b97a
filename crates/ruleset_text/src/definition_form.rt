//! Whether a definition in memory is one that a line may spell.
ghost use Rattle.std.specs.Prelude.{◌≡◌};
ghost use Rattle.std.specs.Option.{option_map};
ghost use Rattle.ruleset_text.specs.ActionForms as forms;
ghost use Rattle.ruleset_text.specs.DefinitionTrees as trees;
ghost use Rattle.ruleset_text.specs.inner.FormTests as tests;

use crate::action::{NamedAction, NamedTrigger};
use crate::definition::Definition;
use crate::named_condition::NamedCondition;
use crate::names::{Name, is_name, is_one_of};
use crate::pattern_form::{PatternSign, PatternSort, has_sign, is_of_sort, is_rule_or_whole};
use label_patterns::Span;

/// Whether it is such a one.
pub fn has_form(definition: &Definition) -> bool
    ensures { result ≡ tests.has_form (trees.definition definition.now) }
{
    match definition {
        Definition::VariantType(name) => is_name(name.as_slice()),
        Definition::Set(name, set) => is_name(name.as_slice()) && are_spans(set.spans()),
        Definition::Rule(name, tree) => {
            is_name(name.as_slice())
                && is_of_sort(PatternSort::Whole, tree)
                && is_rule_or_whole(tree)
        }
        Definition::Demand(_, tree) => {
            is_of_sort(PatternSort::Whole, tree) && !has_sign(PatternSign::Anchor, tree)
        }
        Definition::Action(action) => has_action_form(action),
    }
}

/// Whether there is a span, and spans rise.
fn are_spans(spans: &[Span]) -> bool
    ensures { result ≡ tests.are_spans spans.now }
{
    0 < spans.len() && rise(spans)
}

/// Whether no span is empty, and each begins above the end of the one before.
fn rise(spans: &[Span]) -> bool
    ensures { result ≡ tests.rise 0 spans.now }
{
    let mut least = 0;
    for span in spans {
        if !is_span_from(least, *span) {
            return false;
        }
        least = span.last as u64 + 1;
    }
    true
}

fn is_span_from(least: u64, span: Span) -> bool
    ensures { result ≡ tests.is_span_from least span }
{
    least <= span.first as u64 && span.first <= span.last
}

fn has_action_form(action: &NamedAction) -> bool
    ensures { result ≡ tests.has_action_form (forms.action action.now) }
{
    has_rule(&action.condition) && has_types(&action.trigger)
}

/// Whether a condition, if there is one, names its rule by a name.
pub fn has_rule(condition: &Option<NamedCondition>) -> bool
    ensures { result ≡ tests.has_rule condition.now }
{
    match condition {
        None => true,
        Some(condition) => is_name(condition.rule.as_slice()),
    }
}

/// Whether types, if some are asked for, are names, none of them twice.
fn has_types(trigger: &Option<NamedTrigger>) -> bool
    ensures { result ≡ tests.has_types (option_map forms.trigger trigger.now) }
{
    match trigger {
        None => true,
        Some(trigger) => 0 < trigger.types.len() && are_names(&trigger.types),
    }
}

fn are_names(names: &[Name]) -> bool
    ensures { result ≡ tests.are_names names.now }
{
    match names {
        [] => true,
        [name, others @ ..] => {
            is_name(name.as_slice()) && !is_one_of(others, name.as_slice()) && are_names(others)
        }
    }
}
