//! What is wrong with a definition in memory that its form doesn't show.
ghost use Rattle.std.specs.Prelude.{◌≡◌, ◌-◌, ◌++◌, map, IfOk};
ghost use Rattle.std.specs.List.{list_all};
ghost use Rattle.std.specs.Option.{option_map};
ghost use Rattle.label_patterns.specs.Trees.{pattern};
ghost use Rattle.ruleset_text.specs.ActionForms as forms;
ghost use Rattle.ruleset_text.specs.Actions as actions;
ghost use Rattle.ruleset_text.specs.Definitions.{definition_atoms, whole_names};
ghost use Rattle.ruleset_text.specs.DefinitionTrees as trees;
ghost use Rattle.ruleset_text.specs.Names.{is_one_of, predefined_types};
ghost use Rattle.ruleset_text.specs.inner.DefinitionSteps as steps;
ghost use Rattle.ruleset_text.specs.inner.DefinitionSteps.{found_of, found_of_pattern};

use crate::action::{NamedAction, NamedTrigger};
use crate::action_reading::is_whole_rule;
use crate::classes::{has_bad_end, has_bad_point};
use crate::definition::Definition;
use crate::fault::FoundFaults;
use crate::limits::{atoms_after, has_its_sets, is_over_limit};
use crate::named_condition::NamedCondition;
use crate::names::{Name, is_type};
use crate::reading::Earlier;
use label_patterns::PatternTree;
use std::alloc::{AllocError, Global};

/// The faults of a definition, by what is known before it.
pub fn faults_of(
    alloc: Global,
    earlier: Earlier<'_>,
    definition: &Definition,
) -> Result<FoundFaults, AllocError>
    ensures { IfOk result (λ found. found ≡
        found_of (steps.known earlier.entry) (trees.definition definition.now)) }
{
    let mut found = FoundFaults::none();
    match definition {
        Definition::VariantType(_) => Ok(found),
        Definition::Set(_, set) => {
            found.class = has_bad_end(alloc, earlier.properties, set.spans())?;
            Ok(found)
        }
        Definition::Rule(_, tree) => pattern_faults(alloc, earlier, tree),
        Definition::Demand(_, tree) => pattern_faults(alloc, earlier, tree),
        Definition::Action(action) => {
            found.name = !knows_action(earlier, action);
            Ok(found)
        }
    }
}

/// The faults of a pattern.
fn pattern_faults(
    alloc: Global,
    earlier: Earlier<'_>,
    tree: &PatternTree,
) -> Result<FoundFaults, AllocError>
    ensures { IfOk result (λ found. found ≡
        found_of_pattern (steps.known earlier.entry) (pattern tree.now)) }
{
    Ok(FoundFaults {
        limit: is_over_limit(tree, earlier.atoms_left),
        name: !has_its_sets(earlier.sets.len(), tree),
        class: has_bad_point(alloc, earlier.properties, tree)?,
    })
}

/// How many of so many atoms are left after a definition.
pub fn atoms_left_after(definition: &Definition, left: usize) -> usize
    ensures { result ≡ left - definition_atoms (trees.definition definition.now) }
{
    match definition {
        Definition::Rule(_, tree) => atoms_after(tree, left).unwrap_or(0),
        Definition::Demand(_, tree) => atoms_after(tree, left).unwrap_or(0),
        _ => left,
    }
}

/// Whether the rule and the types of an action are defined.
fn knows_action(earlier: Earlier<'_>, action: &NamedAction) -> bool
    ensures { result ≡ actions.knows_action (steps.known earlier.entry).types (steps.known earlier.entry).whole_rules
        (forms.action action.now) }
{
    knows_rule(earlier, &action.condition) && knows_types(earlier.types, &action.trigger)
}

/// Whether a condition, if there is one, names a whole-label rule.
fn knows_rule(earlier: Earlier<'_>, condition: &Option<NamedCondition>) -> bool
    ensures { result ≡ actions.knows_rule
        (whole_names earlier.entry.rule_names.now (map pattern earlier.entry.rules.now)) condition.now }
{
    match condition {
        None => true,
        Some(condition) => is_whole_rule(earlier, condition.rule.as_slice()),
    }
}

/// Whether the types, if some are asked for, are predefined or among these.
fn knows_types(types: &[Name], trigger: &Option<NamedTrigger>) -> bool
    ensures { result ≡ actions.knows_types (predefined_types ++ types.now) (option_map forms.trigger trigger.now) }
{
    match trigger {
        None => true,
        Some(trigger) => are_types(types, &trigger.types),
    }
}

fn are_types(types: &[Name], names: &[Name]) -> bool
    ensures { result ≡ list_all (is_one_of (predefined_types ++ types.now)) names.now }
{
    names.iter().all(|name| is_type(types, name.as_slice()))
}
