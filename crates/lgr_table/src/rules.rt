//! The rules of a table, and the sets that they name.
ghost use Rattle.std.specs.Prelude.{◌≡◌, ◌++◌, ◌∷◌, [], ℕ, Bool, List, Contains, IfErr, IfOk, OnOk, map};
ghost use Rattle.label_patterns.specs.Trees.{pattern};
ghost use Rattle.lgr_text.specs.Known.{HaveSpans};
ghost use Rattle.lgr_text.specs.PartMatches.{BeginsWith};
ghost use Rattle.lgr_text.specs.Records.{entry as entry_of, file, meaning as meaning_of};
ghost use Rattle.lgr_text.specs.inner.Branches.{HaveBranches};
ghost use Rattle.lgr_text.specs.WellFormed.{IsWellFormedMeaning, IsWellFormedRuleset};
ghost use Rattle.lgr_text.specs.declared.records.Ruleset as held;
ghost use Rattle.lgr_table.specs.Faults.{AreFaultless, ComesNext, IsFaultOfTable};
ghost use Rattle.lgr_table.specs.Tables.{may_stand};
ghost use Rattle.lgr_table.specs.inner.FaultSteps.{HasRulesOf, IsLimitOn, KnowsRules};
ghost use Rattle.lgr_table.specs.inner.RuleSteps.{AddsMeaning, HasNoRules, HasOtherRules, known_by};
ghost use Rattle.lgr_table.specs.inner.Steps.{AddsRules};
ghost use Rattle.lgr_table.specs.inner.TableNames.{AreRuleNames, names_by};

use crate::fault::TableError;
use crate::names::{FileNames, Named};
use crate::points::points_of;
use crate::taken::{Repertoire, Taken};
use label_patterns::{PatternTree, PointSet};
use lgr_text::{Definition, Made, Meaning, PartTree, Ruleset, definition_order, pattern_of_rule};
use ruleset_text::{Definition as TableDefinition, Name};
use std::alloc::Global;
use variant_table::TableBuilder;

/// Defines the rules of the file, which has these types, each after those that it names, and tells which numbers they
/// have.
pub(crate) fn define_rules(
    alloc: Global,
    builder: &mut TableBuilder,
    types: &[Option<Name>],
    ruleset: &Ruleset,
) -> Result<Vec<Name>, TableError>
    requires none { HasNoRules builder.old.definitions }
    requires well_formed { IsWellFormedRuleset (file ruleset.now) }
    ensures added { IfOk result (λ rules.
        AddsRules (may_stand builder.old.definitions.properties) (file ruleset.now) types.now rules.items
        builder.old builder.new) }
    ensures all { IfOk result (λ rules. HasRulesOf ruleset.now rules.items) }
    ensures known { IfOk result (λ rules. KnowsRules (may_stand builder.old.definitions.properties) ruleset.now
        rules.items builder.new.definitions.rules) }
    ensures faultless { OnOk result (AreFaultless (may_stand builder.old.definitions.properties) ruleset.now) }
    ensures fault { IfErr result (IsFaultOfTable (may_stand builder.old.definitions.properties) ruleset.now) }
{
    let properties = builder.definitions().properties();
    let points = points_of(alloc, properties, &ruleset.entries)?;
    let repertoire = Repertoire {
        entries: &ruleset.entries,
        points: &points,
    };
    let order = match definition_order(alloc, &ruleset.definitions) {
        Ok(order) => order,
        Err(error) => return Err(TableError::of_order(error)),
    };
    let names = FileNames {
        types,
        definitions: &ruleset.definitions,
    };
    let mut taken = Taken::new(alloc);
    let mut made = Made {
        sets: Vec::new(alloc),
        atoms_left: builder.definitions().atoms_left(),
    };
    for number in &order {
        let definition = &ruleset.definitions[*number];
        take(
            alloc, builder, names, repertoire, &mut taken, &mut made, definition,
        )?;
    }
    Ok(taken.rule_names)
}

/// Takes a definition.
fn take(
    alloc: Global,
    builder: &mut TableBuilder,
    names: FileNames<'_>,
    repertoire: Repertoire<'_>,
    taken: &mut Taken,
    made: &mut Made,
    definition: &Definition,
) -> Result<(), TableError>
    requires entries { HaveSpans (map entry_of repertoire.entries.now) }
    requires meaning { IsWellFormedMeaning (meaning_of definition.now.meaning) }
    requires sets { made.old.sets.items ≡ builder.old.definitions.sets }
    requires branches { HaveBranches builder.old.definitions.rules }
    ensures added { let entries = map entry_of repertoire.entry.entries.now in
        let points = repertoire.entry.points.now in
        OnOk result (AddsMeaning (known_by entries points taken.old builder.old.definitions.rules)
        builder.old.definitions.sets definition.now.name (meaning_of definition.now.meaning)
        (known_by entries points taken.new builder.new.definitions.rules) builder.new.definitions.sets) }
    ensures sets { OnOk result (made.new.sets.items ≡ builder.new.definitions.sets) }
    ensures branches { OnOk result (HaveBranches builder.new.definitions.rules) }
    ensures others { OnOk result (HasOtherRules builder.old builder.new) }
    ensures called { AreRuleNames (names_by names.entry) taken.old.rule_names.items builder.old.definitions →
        OnOk result (AreRuleNames (names_by names.entry) taken.new.rule_names.items builder.new.definitions) }
    ensures fault { let entries = map entry_of repertoire.entry.entries.now in
        let points = repertoire.entry.points.now in
        let known = known_by entries points taken.old builder.old.definitions.rules in
        (may : ℕ → Bool) (r : held.Ruleset) → Contains r.definitions.items definition.now →
        ComesNext may r definition.now known → IfErr result (IsFaultOfTable may r) }
{
    let name = definition.name.as_slice();
    match &definition.meaning {
        Meaning::Class(class) => {
            let rules = builder.definitions().rules();
            match taken.add_class(alloc, repertoire, rules, name, class) {
                Ok(()) => Ok(()),
                Err(error) => Err(TableError::of_rule(error, definition.line)),
            }
        }
        Meaning::Rule(rule) => {
            let known = taken.known(repertoire, builder.definitions().rules());
            match pattern_of_rule(alloc, known, made, rule) {
                Ok(tree) => {
                    define_sets(alloc, builder, names, &made.sets, definition.line)?;
                    define_rule(alloc, builder, names, name, tree, definition.line)?;
                    taken.rule_names.push(Name::copied(alloc, name)?)?;
                    Ok(())
                }
                Err(error) => Err(TableError::of_rule(error, definition.line)),
            }
        }
    }
}

/// Defines the sets that follow those that are defined.
fn define_sets(
    alloc: Global,
    builder: &mut TableBuilder,
    names: FileNames<'_>,
    sets: &[PointSet],
    line: usize,
) -> Result<(), TableError>
    requires { BeginsWith sets.now builder.old.definitions.sets }
    ensures sets { OnOk result (builder.new.definitions.sets ≡ sets.now) }
    ensures rules { OnOk result (builder.new.definitions.rules ≡ builder.old.definitions.rules) }
    ensures others { OnOk result (HasOtherRules builder.old builder.new) }
    ensures called { (rules : List (List ℕ)) → AreRuleNames (names_by names.entry) rules builder.old.definitions →
        OnOk result (AreRuleNames (names_by names.entry) rules builder.new.definitions) }
    ensures fault { IfErr result (IsLimitOn line) }
{
    for number in builder.definitions().sets().len()..sets.len() {
        define_set(alloc, builder, names, &sets[number], line)?;
    }
    Ok(())
}

/// Defines a set.
fn define_set(
    alloc: Global,
    builder: &mut TableBuilder,
    names: FileNames<'_>,
    set: &PointSet,
    line: usize,
) -> Result<(), TableError>
    ensures sets { OnOk result (builder.new.definitions.sets ≡ builder.old.definitions.sets ++ set.now ∷ []) }
    ensures rules { OnOk result (builder.new.definitions.rules ≡ builder.old.definitions.rules) }
    ensures others { OnOk result (HasOtherRules builder.old builder.new) }
    ensures called { (rules : List (List ℕ)) → AreRuleNames (names_by names.entry) rules builder.old.definitions →
        OnOk result (AreRuleNames (names_by names.entry) rules builder.new.definitions) }
    ensures fault { IfErr result (IsLimitOn line) }
{
    let name = Named::Set.given_name(alloc, names, builder.definitions(), b"")?;
    let copy = set.copied(alloc)?;
    match builder.define(TableDefinition::Set(name, copy)) {
        Ok(()) => Ok(()),
        Err(fault) => Err(TableError::of_definition(fault, line)),
    }
}

/// Defines a rule.
fn define_rule(
    alloc: Global,
    builder: &mut TableBuilder,
    names: FileNames<'_>,
    name: &[u8],
    tree: PatternTree,
    line: usize,
) -> Result<(), TableError>
    ensures sets { OnOk result (builder.new.definitions.sets ≡ builder.old.definitions.sets) }
    ensures rules { OnOk result (builder.new.definitions.rules ≡ builder.old.definitions.rules ++ pattern tree ∷ []) }
    ensures others { OnOk result (HasOtherRules builder.old builder.new) }
    ensures called { (rules : List (List ℕ)) → AreRuleNames (names_by names.entry) rules builder.old.definitions →
        OnOk result (AreRuleNames (names_by names.entry) (rules ++ name.now ∷ []) builder.new.definitions) }
    ensures fault { IfErr result (IsLimitOn line) }
{
    let name = Named::Rule.given_name(alloc, names, builder.definitions(), name)?;
    match builder.define(TableDefinition::Rule(name, tree)) {
        Ok(()) => Ok(()),
        Err(fault) => Err(TableError::of_definition(fault, line)),
    }
}
