//! The action that makes a label invalid.
ghost use Rattle.std.specs.Prelude.{◌≡◌, ◌↔◌, ◌≤◌, length, Contains, IfOk};
ghost use Rattle.std.specs.List.{AllByRecursion};
ghost use Rattle.std.specs.Option.{option_map};
ghost use Rattle.variant_dispositions.specs.Actions.{is_triggered};
ghost use Rattle.variant_dispositions.specs.Kinds.{kinds_in, Kind, IsTypeNumber};
ghost use Rattle.variant_table.specs.Segmentations.{seen_under};
ghost use Rattle.valid_labels.specs.Actions.{actions_of, matches, rules_of};
ghost use Rattle.valid_labels.specs.declared.cause.ValidityCause.TheVariants.{DefaultAction};
ghost use Rattle.valid_labels.specs.Causes as causes;
ghost use Rattle.valid_labels.specs.Causes.{action_cause as cause_of_action, source_cause as cause_of_source};
ghost use Rattle.valid_labels.specs.Causes.{cut_kinds, first_typed as first_typed_of, is_typed as has_type};
ghost use Rattle.valid_labels.specs.Causes.{invalid_by as invalid_cause_by, longest_cut as cut_of};

use crate::cause::{ActionCause, ValidityCause};
use crate::label_rules::RulesOfLabel;
use crate::longest::longest_at;
use label_patterns::SeenLabel;
use std::alloc::{AllocError, Global};
use variant_dispositions::{Action, INVALID, TypeTrigger, kind_of_source};
use variant_table::Table;

/// A source of the longest-first cut of a label.
#[derive(Clone, Copy, PartialEq, Eq)]
pub(crate) struct CutSource {
    /// Where it stands, from 0.
    pub place: usize,
    /// The number of its type, if it has one.
    pub reflexive_type: Option<u8>,
}

/// The first action that an eligible, clear label triggers, if that makes it invalid; else the first default action.
pub(crate) fn invalid_by(
    alloc: Global,
    table: &Table,
    rules: &RulesOfLabel<'_>,
    label: &[u32],
    actions: &[Action],
) -> Result<Option<ValidityCause>, AllocError>
    requires short { length label.now ≤ 63 }
    requires rules { rules.now ≡ rules_of table.now label.now }
    requires actions { actions.now ≡ actions_of table.now.definitions }
    ensures { IfOk result (λ cause. cause ≡ invalid_cause_by table.now label.now (cut_of table.now label.now)) }
{
    let sources = longest_cut(alloc, table, rules.seen(), label)?;
    let kinds = kinds_of(&sources);
    Ok(invalid_from(actions, kinds, rules, &sources))
}

/// The first of these actions that a label of these kinds triggers, by the sources of its longest-first cut; else the
/// first default action.
fn invalid_from(
    actions: &[Action],
    kinds: u64,
    rules: &RulesOfLabel<'_>,
    sources: &[CutSource],
) -> Option<ValidityCause>
    ensures { result ≡
        causes.invalid_from (is_triggered (matches rules.now) (kinds_in kinds)) sources.now 0 actions.now }
{
    for number in 0..actions.len() {
        let action = &actions[number];
        if action.is_triggered(kinds, rules) {
            let cause = action_cause(sources, action);
            return Some(ValidityCause::Action(number, cause));
        }
    }
    default_cause(sources)
}

/// The sources of the longest-first cut of a label, in order.
fn longest_cut(
    alloc: Global,
    table: &Table,
    seen: &SeenLabel<'_>,
    label: &[u32],
) -> Result<Vec<CutSource>, AllocError>
    requires short { length label.now ≤ 63 }
    requires seen { seen.now ≡ seen_under table.now label.now }
    ensures is { IfOk result (λ sources. sources.items ≡ cut_of table.now label.now) }
    ensures types { IfOk result (λ sources. AllByRecursion (λ s. IsTypeNumber s.reflexive_type) sources.items) }
{
    // Only for the proof: the contract of `len` says that a table is well-formed.
    let _entries = table.len();
    let mut sources = Vec::new(alloc);
    let mut place = 0;
    for _ in 0..label.len() {
        let Some(entry) = longest_at(table, seen, label, place) else {
            return Ok(sources);
        };
        let reflexive_type = entry.variant_type(0);
        sources.push(CutSource {
            place,
            reflexive_type,
        })?;
        place += entry.source().len();
    }
    Ok(sources)
}

/// What these sources record, as the bits of a word.
fn kinds_of(sources: &[CutSource]) -> u64
    requires { AllByRecursion (λ s. IsTypeNumber s.reflexive_type) sources.now }
    ensures { (kind : Kind) → Contains (kinds_in result) kind ↔ Contains (cut_kinds sources.now) kind }
{
    let mut kinds = 0;
    for source in sources {
        kinds |= kind_of_source(source.reflexive_type);
    }
    kinds
}

/// What of an action that is triggered makes a label invalid, by the sources of its longest-first cut.
fn action_cause(sources: &[CutSource], action: &Action) -> ActionCause
    ensures { result ≡ cause_of_action sources.now action.now.types action.now.condition }
{
    if let Some(condition) = action.condition {
        return ActionCause::Rule(condition);
    }
    match action.types {
        Some(TypeTrigger::Any(types)) => source_cause(first_typed(sources, types)),
        _ => ActionCause::Other,
    }
}

/// The same of an action that asks for any of some types, by the first source that has one.
fn source_cause(source: Option<CutSource>) -> ActionCause
    ensures { result ≡ cause_of_source source }
{
    match source {
        Some(
            CutSource {
                place,
                reflexive_type: Some(number),
            },
        ) => ActionCause::Source(place, number),
        _ => ActionCause::Other,
    }
}

/// The first source that has the type invalid, by which the first default action is triggered.
fn default_cause(sources: &[CutSource]) -> Option<ValidityCause>
    ensures { result ≡ option_map (λ s. DefaultAction s.place) (first_typed_of 4 sources.now) }
{
    match first_typed(sources, INVALID) {
        Some(source) => Some(ValidityCause::DefaultAction(source.place)),
        None => None,
    }
}

/// The first of these sources that has one of these types.
fn first_typed(sources: &[CutSource], types: u64) -> Option<CutSource>
    ensures { result ≡ first_typed_of types sources.now }
{
    for source in sources {
        if is_typed(source.reflexive_type, types) {
            return Some(*source);
        }
    }
    None
}

/// Whether a type is one of these, which are the bits of a word.
fn is_typed(reflexive_type: Option<u8>, types: u64) -> bool
    ensures { result ≡ has_type types reflexive_type }
{
    match reflexive_type {
        Some(number) => number < 62 && types & (1 << (number + 2)) != 0,
        None => false,
    }
}
