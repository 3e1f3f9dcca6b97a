//! The actions of a table (RFC 7940, section 7).
ghost use Rattle.std.specs.Prelude.{◌≡◌, ◌≤◌, ◌++◌, ◌∷◌, [], ℕ, Bool, true, List, All, Contains, IfErr, IfOk, IfSome};
ghost use Rattle.std.specs.Prelude.{OnOk, drop, filter, is_some, length, map, not, take};
ghost use Rattle.std.specs.List.{filter_map};
ghost use Rattle.std.specs.Option.{option_map};
ghost use Rattle.lgr_text.specs.Records as records;
ghost use Rattle.lgr_text.specs.Records.{action as action_of, condition as condition_of, file};
ghost use Rattle.lgr_text.specs.declared.records.Action as held_action;
ghost use Rattle.lgr_text.specs.declared.records.Condition as held_condition;
ghost use Rattle.lgr_text.specs.declared.records.Ruleset as held;
ghost use Rattle.lgr_table.specs.Faults.{IsFaultOfTable, given};
ghost use Rattle.lgr_text.specs.Demands.{following, leading, makes_invalid, rule_alone};
ghost use Rattle.lgr_table.specs.Tables.{demand_kind};
ghost use Rattle.lgr_table.specs.inner.FaultSteps.{HasRulesOf, IsAnchored, KnowsRules, TellsAnchored};
ghost use Rattle.lgr_table.specs.inner.Steps.{AddsAction, AddsActions, AddsDemand, AddsDemands, HaveDefined};
ghost use Rattle.lgr_table.specs.inner.TypeNames.{AreNamesOf};
ghost use Rattle.variant_table.specs.Entries.{TableValue};

use crate::entries::check_rule;
use crate::fault::{TableError, TableFault};
use crate::numbers::Numbers;
use label_patterns::{ConditionKind, is_context_rule};
use lgr_text::{Action, Condition, Renamed, Ruleset, copied_pattern, named_action};
use ruleset_text::{
    Definition, DefinitionFault, Definitions, DemandKind, Name, PREDEFINED_TYPES, predefined_type,
};
use std::alloc::{AllocError, Global};
use variant_table::TableBuilder;

/// Types that have a name in the file.
#[derive(Drop)]
struct TypeNames {
    /// That name.
    names: Vec<Name>,
    /// The name in the table.
    written: Vec<Name>,
}

/// Defines the actions of the file, and as demands those that make labels invalid by a rule alone, before the first
/// that doesn't make them invalid: which of these is triggered makes no difference.
pub(crate) fn define_actions(
    alloc: Global,
    builder: &mut TableBuilder,
    numbers: &Numbers,
    ruleset: &Ruleset,
) -> Result<(), TableError>
    requires no_demands { builder.old.definitions.demands ≡ [] }
    requires none { builder.old.definitions.actions ≡ [] }
    requires rules { length builder.old.definitions.rule_names ≡ length numbers.now.rules }
    ensures added { OnOk result (AddsActions (file ruleset.now) numbers.now builder.old builder.new) }
    ensures fault { (may : ℕ → Bool) → HasRulesOf ruleset.now numbers.now.rules →
        KnowsRules may ruleset.now numbers.now.rules builder.old.definitions.rules →
        IfErr result (IsFaultOfTable may ruleset.now) }
{
    let actions: &[Action] = &ruleset.actions;
    let (leading, following) = actions.split_at(leading_len(actions));
    define_demands(alloc, builder, numbers, leading)?;
    let types = type_names(alloc, builder.definitions(), numbers)?;
    define_others(alloc, builder, numbers, &types, leading)?;
    define_each(alloc, builder, numbers, &types, following)
}

/// How many actions stand before the first that doesn't make labels invalid.
fn leading_len(actions: &[Action]) -> usize
    ensures within { result ≤ length actions.now }
    ensures leading { map action_of (take result actions.now) ≡ leading (map action_of actions.now) }
    ensures following { map action_of (drop result actions.now) ≡ following (map action_of actions.now) }
{
    for number in 0..actions.len() {
        if !makes_invalid(&actions[number]) {
            return number;
        }
    }
    actions.len()
}

/// Whether an action makes labels invalid.
fn makes_invalid(action: &Action) -> bool
    ensures { result ≡ makes_invalid (action_of action.now) }
{
    action.disposition.as_slice() == b"invalid".as_slice()
}

/// The condition of an action that no type triggers.
fn rule_alone(action: &Action) -> Option<&Condition>
    ensures is { option_map (λ c. condition_of c.now) result ≡ rule_alone (action_of action.now) }
    ensures given { IfSome result (λ c. Contains (given action.now.condition) c.now) }
{
    match &action.trigger {
        Some(_) => None,
        None => action.condition.as_ref(),
    }
}

/// Defines those actions as demands that are about a rule alone.
fn define_demands(
    alloc: Global,
    builder: &mut TableBuilder,
    numbers: &Numbers,
    actions: &[Action],
) -> Result<(), TableError>
    requires { builder.old.definitions.demands ≡ [] }
    ensures added { OnOk result (AddsDemands numbers.now (filter_map rule_alone (map action_of actions.now))
        builder.old builder.new) }
    ensures fault { (may : ℕ → Bool) (r : held.Ruleset) → All (Contains r.actions.items) actions.now →
        HasRulesOf r numbers.now.rules → KnowsRules may r numbers.now.rules builder.old.definitions.rules →
        IfErr result (IsFaultOfTable may r) }
{
    for action in actions {
        if let Some(condition) = rule_alone(action) {
            define_demand(alloc, builder, numbers, condition)?;
        }
    }
    Ok(())
}

/// Defines a demand: that no label matches the rule of a condition, or that each one does.
fn define_demand(
    alloc: Global,
    builder: &mut TableBuilder,
    numbers: &Numbers,
    condition: &Condition,
) -> Result<(), TableError>
    ensures added { OnOk result (AddsDemand numbers.now (condition_of condition.now) builder.old builder.new) }
    ensures fault { (may : ℕ → Bool) (r : held.Ruleset) (a : held_action.Action) → Contains r.actions.items a →
        Contains (given a.condition) condition.now → HasRulesOf r numbers.now.rules →
        KnowsRules may r numbers.now.rules builder.old.definitions.rules → IfErr result (IsFaultOfTable may r) }
{
    let line = condition.rule.line;
    let number = numbers.rule_number(condition.rule.name.as_slice());
    let rules = builder.definitions().rules();
    if number >= numbers.rules().len() {
        return Err(TableFault::NoSuchName.on(line));
    }
    if number >= rules.len() {
        // Never: the table has a pattern for each of these.
        return Err(TableError::Memory);
    }
    let anchored = has_anchor(builder.definitions(), numbers, condition);
    let pattern = copied_pattern(alloc, &rules[number])?;
    match builder.define(Definition::Demand(demand_kind(condition.kind), pattern)) {
        Ok(()) => Ok(()),
        Err(fault) => Err(not_defined(fault, anchored, line)),
    }
}

/// Whether the anchor stands in the rule of a condition.
fn has_anchor(definitions: &Definitions, numbers: &Numbers, condition: &Condition) -> bool
    ensures { result ≡ true → IsAnchored numbers.now.rules definitions.now.rules condition.now.rule.name }
{
    let number = numbers.rule_number(condition.rule.name.as_slice());
    let rules = definitions.rules();
    if number < rules.len() {
        is_context_rule(&rules[number])
    } else {
        false
    }
}

/// The same of a condition, if there is one.
fn asks_for_anchor(
    definitions: &Definitions,
    numbers: &Numbers,
    condition: &Option<Condition>,
) -> bool
    ensures { result ≡ true → (c : held_condition.Condition) × Contains (given condition.now) c ×
        IsAnchored numbers.now.rules definitions.now.rules c.rule.name }
{
    match condition {
        Some(condition) => has_anchor(definitions, numbers, condition),
        None => false,
    }
}

/// Why the table doesn't take a demand or an action of this line: the anchor stands in its rule, or there is no room.
fn not_defined(fault: DefinitionFault, anchored: bool, line: usize) -> TableError
    ensures { TellsAnchored anchored line result }
{
    match fault {
        DefinitionFault::Limit | DefinitionFault::Memory => TableError::of_definition(fault, line),
        _ if anchored => TableFault::NotSupported.on(line),
        _ => TableError::of_definition(fault, line),
    }
}

/// Whether no label may match a rule, or each one has to, if a label is invalid where its condition holds.
fn demand_kind(kind: ConditionKind) -> DemandKind
    ensures { result ≡ demand_kind kind }
{
    match kind {
        ConditionKind::When => DemandKind::Never,
        ConditionKind::Unless => DemandKind::Always,
    }
}

/// Defines those actions that aren't about a rule alone.
fn define_others(
    alloc: Global,
    builder: &mut TableBuilder,
    numbers: &Numbers,
    types: &TypeNames,
    actions: &[Action],
) -> Result<(), TableError>
    requires none { builder.old.definitions.actions ≡ [] }
    requires rules { length builder.old.definitions.rule_names ≡ length numbers.now.rules }
    requires types { AreNamesOf numbers.now builder.old.definitions types.now }
    ensures defined { OnOk result (HaveDefined numbers.now builder.old builder.new
        (filter (λ a. not (is_some (rule_alone a))) (map action_of actions.now))) }
    ensures fault { (may : ℕ → Bool) (r : held.Ruleset) → All (Contains r.actions.items) actions.now →
        HasRulesOf r numbers.now.rules → KnowsRules may r numbers.now.rules builder.old.definitions.rules →
        IfErr result (IsFaultOfTable may r) }
{
    for action in actions {
        if rule_alone(action).is_none() {
            define_action(alloc, builder, numbers, types, action)?;
        }
    }
    Ok(())
}

/// Defines actions.
fn define_each(
    alloc: Global,
    builder: &mut TableBuilder,
    numbers: &Numbers,
    types: &TypeNames,
    actions: &[Action],
) -> Result<(), TableError>
    requires rules { length builder.old.definitions.rule_names ≡ length numbers.now.rules }
    requires types { AreNamesOf numbers.now builder.old.definitions types.now }
    ensures defined { (t : TableValue) (before : List records.Action) → HaveDefined numbers.now t builder.old before →
        OnOk result (HaveDefined numbers.now t builder.new (before ++ map action_of actions.now)) }
    ensures fault { (may : ℕ → Bool) (r : held.Ruleset) → All (Contains r.actions.items) actions.now →
        HasRulesOf r numbers.now.rules → KnowsRules may r numbers.now.rules builder.old.definitions.rules →
        IfErr result (IsFaultOfTable may r) }
{
    for action in actions {
        define_action(alloc, builder, numbers, types, action)?;
    }
    Ok(())
}

/// Defines an action.
fn define_action(
    alloc: Global,
    builder: &mut TableBuilder,
    numbers: &Numbers,
    types: &TypeNames,
    action: &Action,
) -> Result<(), TableError>
    requires rules { length builder.old.definitions.rule_names ≡ length numbers.now.rules }
    requires types { AreNamesOf numbers.now builder.old.definitions types.now }
    ensures added { OnOk result (AddsAction numbers.now (action_of action.now) builder.old builder.new) }
    ensures fault { (may : ℕ → Bool) (r : held.Ruleset) → Contains r.actions.items action.now →
        HasRulesOf r numbers.now.rules → KnowsRules may r numbers.now.rules builder.old.definitions.rules →
        IfErr result (IsFaultOfTable may r) }
{
    check_rule(numbers, &action.condition)?;
    let rules = Renamed {
        names: numbers.rules(),
        written: builder.definitions().rule_names(),
    };
    let types = Renamed {
        names: &types.names,
        written: &types.written,
    };
    let line = action.line;
    let anchored = asks_for_anchor(builder.definitions(), numbers, &action.condition);
    match named_action(alloc, rules, types, action) {
        Ok(named) => match builder.define(Definition::Action(named)) {
            Ok(()) => Ok(()),
            Err(fault) => Err(not_defined(fault, anchored, line)),
        },
        Err(error) => Err(TableError::of_action(error, line)),
    }
}

/// What the types that have a name in the file are called.
fn type_names(
    alloc: Global,
    definitions: &Definitions,
    numbers: &Numbers,
) -> Result<TypeNames, AllocError>
    ensures { IfOk result (AreNamesOf numbers.now definitions.now) }
{
    let mut types = TypeNames {
        names: Vec::new(alloc),
        written: Vec::new(alloc),
    };
    for number in 0..PREDEFINED_TYPES {
        types.push(
            alloc,
            predefined_type(number),
            definitions.type_name(number),
        )?;
    }
    for (place, type_name) in numbers.types().iter().enumerate() {
        if let Some(name) = type_name {
            let written = definitions.type_name(PREDEFINED_TYPES + place);
            types.push(alloc, name.as_slice(), written)?;
        }
    }
    Ok(types)
}

impl TypeNames {
    fn push(&mut self, alloc: Global, name: &[u8], written: &[u8]) -> Result<(), AllocError>
        ensures names { OnOk result (self.new.names.items ≡ self.old.names.items ++ name.now ∷ []) }
        ensures written_names { OnOk result (self.new.written.items ≡ self.old.written.items ++ written.now ∷ []) }
    {
        self.names.push(Name::copied(alloc, name)?)?;
        self.written.push(Name::copied(alloc, written)?)?;
        Ok(())
    }
}
