//! What a line defines.
ghost use Rattle.std.specs.Prelude.{◌≡◌, ◌++◌, [], length, IfOk, OnOk};
ghost use Rattle.label_patterns.specs.Trees.{pattern};
ghost use Rattle.ruleset_text.specs.ActionForms.{action as action_of};
ghost use Rattle.ruleset_text.specs.Canonical as text;
ghost use Rattle.ruleset_text.specs.Canonical.{definition_text};
ghost use Rattle.ruleset_text.specs.Definition as words;
ghost use Rattle.ruleset_text.specs.DefinitionTrees as trees;

use crate::action::{NamedAction, push_action_text};
use crate::canonical::{push_byte, push_bytes, push_pattern, push_spans};
use crate::names::Name;
use label_patterns::{PatternTree, PointSet, is_context_rule};
use std::alloc::{AllocError, Global};

/// What a demand asks of each label.
#[derive(Clone, Copy, PartialEq, Eq)]
pub enum DemandKind {
    /// No part of a label matches the pattern.
    Never,
    /// Some part of each label matches the pattern.
    Always,
}

/// What a line defines. The sets of a pattern go by their number.
#[derive(Drop)]
pub enum Definition {
    VariantType(Name),
    Set(Name, PointSet),
    /// A context rule by its contexts, or a whole-label rule by its pattern, which has no `_`.
    Rule(Name, PatternTree),
    Demand(DemandKind, PatternTree),
    Action(NamedAction),
}

/// Appends the canonical line of a definition, without its line feed. The sets of a pattern have these names.
pub fn push_definition(
    out: &mut Vec<u8>,
    sets: &[Name],
    definition: &Definition,
) -> Result<(), AllocError>
    ensures { OnOk result (out.new.items ≡
        out.old.items ++ definition_text sets.now (trees.definition definition.now)) }
{
    match definition {
        Definition::VariantType(name) => push_type(out, name),
        Definition::Set(name, set) => push_set(out, name, set),
        Definition::Rule(name, pattern) => push_rule(out, sets, name, pattern),
        Definition::Demand(kind, pattern) => push_demand(out, sets, *kind, pattern),
        Definition::Action(action) => push_action(out, action),
    }
}

/// Appends the canonical line of a variant type, without its line feed. It names no set.
pub fn push_type(out: &mut Vec<u8>, name: &Name) -> Result<(), AllocError>
    ensures { OnOk result (out.new.items ≡ out.old.items ++ definition_text [] (words.VariantType name.now)) }
{
    push_bytes(out, b"%type ")?;
    push_bytes(out, name.as_slice())
}

/// Appends the canonical line of a set, without its line feed. It names no other set.
pub fn push_set(out: &mut Vec<u8>, name: &Name, set: &PointSet) -> Result<(), AllocError>
    ensures { OnOk result (out.new.items ≡ out.old.items ++ definition_text [] (words.Set name.now set.now)) }
{
    push_bytes(out, b"%set ")?;
    push_bytes(out, name.as_slice())?;
    push_spans(out, set)
}

/// Appends the canonical line of a rule, without its line feed. The sets of its pattern have these names.
pub fn push_rule(
    out: &mut Vec<u8>,
    sets: &[Name],
    name: &Name,
    tree: &PatternTree,
) -> Result<(), AllocError>
    ensures { OnOk result (out.new.items ≡
        out.old.items ++ definition_text sets.now (words.Rule name.now (pattern tree.now))) }
{
    push_bytes(out, rule_word(is_context_rule(tree)))?;
    push_bytes(out, name.as_slice())?;
    push_byte(out, b' ')?;
    push_pattern(out, sets, tree)
}

/// The keyword of a rule and the blank after it.
fn rule_word(is_context_rule: bool) -> &'static [u8]
    ensures { result.now ≡ text.rule_word is_context_rule }
{
    if is_context_rule {
        b"%rule "
    } else {
        b"%whole "
    }
}

/// Appends the canonical line of a demand, without its line feed. The sets of its pattern have these names.
pub fn push_demand(
    out: &mut Vec<u8>,
    sets: &[Name],
    kind: DemandKind,
    tree: &PatternTree,
) -> Result<(), AllocError>
    ensures { OnOk result (out.new.items ≡
        out.old.items ++ definition_text sets.now (words.Demand kind (pattern tree.now))) }
{
    push_bytes(out, demand_word(kind))?;
    push_byte(out, b' ')?;
    push_pattern(out, sets, tree)
}

/// Appends the canonical line of an action, without its line feed. It names no set.
pub fn push_action(out: &mut Vec<u8>, action: &NamedAction) -> Result<(), AllocError>
    ensures { OnOk result (out.new.items ≡
        out.old.items ++ definition_text [] (words.Action (action_of action.now))) }
{
    push_bytes(out, b"%action ")?;
    push_action_text(out, action)
}

/// The keyword of a demand.
fn demand_word(kind: DemandKind) -> &'static [u8]
    ensures { result.now ≡ words.demand_word kind }
{
    match kind {
        DemandKind::Never => b"%never",
        DemandKind::Always => b"%always",
    }
}

/// How many bytes the canonical line of a definition has, without its line feed. The sets of its pattern have these
/// names.
pub fn canonical_len(
    alloc: Global,
    sets: &[Name],
    definition: &Definition,
) -> Result<usize, AllocError>
    ensures { IfOk result (λ len. len ≡ length (definition_text sets.now (trees.definition definition.now))) }
{
    let mut line = Vec::new(alloc);
    push_definition(&mut line, sets, definition)?;
    Ok(line.len())
}
