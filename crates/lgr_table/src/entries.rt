//! The entries of a table.
ghost use Rattle.std.specs.Prelude.{◌≡◌, ◌<◌, ◌∷◌, ◌++◌, [], ℕ, Bool, true, Contains, IfErr, List, OnOk, length, map};
ghost use Rattle.std.specs.List.{flat_map};
ghost use Rattle.std.specs.Option.{option_map};
ghost use Rattle.lgr_text.specs.Records as records;
ghost use Rattle.lgr_text.specs.Records.{file};
ghost use Rattle.lgr_text.specs.Known.{HaveSpans};
ghost use Rattle.lgr_text.specs.declared.records.Entry as held_entry;
ghost use Rattle.lgr_text.specs.declared.records.Ruleset as held;
ghost use Rattle.lgr_text.specs.Repertoire.{sources};
ghost use Rattle.lgr_table.specs.Faults.{IsFaultOfTable, IsSameVariant, StandsEarlier, conditions, given};
ghost use Rattle.lgr_text.specs.Names.{asked, asked_by};
ghost use Rattle.lgr_table.specs.Tables.{may_stand};
ghost use Rattle.lgr_table.specs.inner.EntrySteps.{AddsEntry, AddsSources};
ghost use Rattle.lgr_table.specs.inner.FaultSteps.{AreAllIn, HasDefinitionsOf, HasEntriesOf, HasRulesOf};
ghost use Rattle.lgr_table.specs.inner.FaultSteps.{TellsEntry, TellsRepeated, TellsSources, point_count};
ghost use Rattle.lgr_table.specs.inner.Steps.{AddsEntries, AreAmong};
ghost use Rattle.variant_table.specs.Entries.{TableValue};

use crate::fault::{TableError, TableFault};
use crate::kept::may_be;
use crate::mapped::mapped_of;
use crate::numbers::Numbers;
use label_patterns::Span;
use lgr_text::{Condition, Entry, Ruleset, Source, Variant};
use std::alloc::Global;
use variant_table::{EntryFault, TableBuilder};

/// How many code points there are.
const CODE_POINTS: u64 = 0x11_0000;

/// Adds the entries of the file, without those that no label can have.
pub(crate) fn add_entries(
    alloc: Global,
    builder: &mut TableBuilder,
    numbers: &Numbers,
    ruleset: &Ruleset,
) -> Result<(), TableError>
    requires none { builder.old.entries ≡ [] }
    requires types { length builder.old.definitions.types ≡ length numbers.now.types }
    requires rules { length builder.old.definitions.rule_names ≡ length numbers.now.rules }
    ensures added { OnOk result (AddsEntries (may_stand builder.old.definitions.properties) (file «ruleset».now)
        numbers.now builder.old builder.new) }
    ensures fault { let may = may_stand builder.old.definitions.properties in
        HaveSpans (file «ruleset».now).entries → HasDefinitionsOf may «ruleset».now numbers.now builder.old →
        IfErr result (IsFaultOfTable may «ruleset».now) }
{
    check_ranges(&ruleset.entries)?;
    for entry in &ruleset.entries {
        add_entry(alloc, builder, numbers, entry)?;
    }
    Ok(())
}

/// Refuses ranges that have more code points together than there are: one stands in two of them. So none takes long,
/// however many code points it has that no label has.
fn check_ranges(entries: &[Entry]) -> Result<(), TableError>
    ensures { (may : ℕ → Bool) (r : held.Ruleset) → r.entries.items ≡ entries.now → HaveSpans (file r).entries →
        IfErr result (IsFaultOfTable may r) }
{
    let mut left = CODE_POINTS;
    for entry in entries {
        let more = points_of_range(&entry.source);
        if more > left {
            return Err(TableFault::SameSource.on(entry.line));
        }
        left -= more;
    }
    Ok(())
}

/// How many code points a range has.
fn points_of_range(source: &Source) -> u64
    ensures { result ≡ point_count (records.source source.now) }
{
    match source {
        Source::Sequence(_) => 0,
        Source::Range(span) => u64::from(span.last.saturating_sub(span.first)) + 1,
    }
}

/// Adds the entries that an element is: one for each of its sources that the table keeps.
fn add_entry(
    alloc: Global,
    builder: &mut TableBuilder,
    numbers: &Numbers,
    entry: &Entry,
) -> Result<(), TableError>
    requires types { length builder.old.definitions.types ≡ length numbers.now.types }
    requires rules { length builder.old.definitions.rule_names ≡ length numbers.now.rules }
    ensures added { OnOk result (AddsEntry (may_stand builder.old.definitions.properties) numbers.now
        (records.entry entry.now) builder.old builder.new) }
    ensures fault { let may = may_stand builder.old.definitions.properties in
        (r : held.Ruleset) (before after : List held_entry.Entry) (t : TableValue) →
        r.entries.items ≡ before ++ entry.now ∷ after → HasEntriesOf may numbers.now before t builder.old →
        HasDefinitionsOf may r numbers.now t → IfErr result (IsFaultOfTable may r) }
{
    check_rules(numbers, entry)?;
    add_sources(alloc, builder, numbers, entry)?;
    Ok(())
}

fn add_sources(
    alloc: Global,
    builder: &mut TableBuilder,
    numbers: &Numbers,
    entry: &Entry,
) -> Result<(), TableError>
    requires types { length builder.old.definitions.types ≡ length numbers.now.types }
    requires rules { length builder.old.definitions.rule_names ≡ length numbers.now.rules }
    ensures added { let e = records.entry entry.now in
        OnOk result (AddsSources (may_stand builder.old.definitions.properties) numbers.now
        e (sources e.source) builder.old builder.new) }
    ensures fault { let e = records.entry entry.now in
        IfErr result (TellsSources (may_stand builder.old.definitions.properties) numbers.now
        entry.now (sources e.source) builder.old) }
{
    match &entry.source {
        Source::Sequence(points) => add_source(alloc, builder, numbers, entry, points),
        Source::Range(span) => add_range(alloc, builder, numbers, entry, *span),
    }
}

/// Adds the entry of each code point of a range that the table keeps.
fn add_range(
    alloc: Global,
    builder: &mut TableBuilder,
    numbers: &Numbers,
    entry: &Entry,
    span: Span,
) -> Result<(), TableError>
    requires types { length builder.old.definitions.types ≡ length numbers.now.types }
    requires rules { length builder.old.definitions.rule_names ≡ length numbers.now.rules }
    ensures added { OnOk result (AddsSources (may_stand builder.old.definitions.properties) numbers.now
        (records.entry entry.now) (sources (records.Range span)) builder.old builder.new) }
    ensures fault { IfErr result (TellsSources (may_stand builder.old.definitions.properties) numbers.now
        entry.now (sources (records.Range span)) builder.old) }
{
    if span.last < span.first {
        return Ok(());
    }
    let count = (span.last - span.first) as usize + 1;
    for offset in 0..count {
        let point = span.first + offset as u32;
        add_source(alloc, builder, numbers, entry, &[point])?;
    }
    Ok(())
}

/// Adds the entry of one of its sources, if the table keeps it.
fn add_source(
    alloc: Global,
    builder: &mut TableBuilder,
    numbers: &Numbers,
    entry: &Entry,
    source: &[u32],
) -> Result<(), TableError>
    requires types { length builder.old.definitions.types ≡ length numbers.now.types }
    requires rules { length builder.old.definitions.rule_names ≡ length numbers.now.rules }
    ensures added { OnOk result (AddsSources (may_stand builder.old.definitions.properties) numbers.now
        (records.entry entry.now) (source.now ∷ []) builder.old builder.new) }
    ensures fault { IfErr result (TellsSources (may_stand builder.old.definitions.properties) numbers.now
        entry.now (source.now ∷ []) builder.old) }
{
    let kept = may_be(alloc, builder.definitions().properties(), source)?;
    if !kept {
        return Ok(());
    }
    let mapped = mapped_of(alloc, builder.definitions(), numbers, entry, source)?;
    match builder.add_entry(&mapped) {
        Ok(()) => Ok(()),
        Err(fault) => Err(not_added(fault, entry)),
    }
}

/// Why an entry isn't added.
fn not_added(fault: EntryFault, entry: &Entry) -> TableError
    ensures { TellsEntry entry.now fault result }
{
    match fault {
        EntryFault::Limit => TableFault::Limit.on(entry.line),
        EntryFault::SameVariant(_) => of_repeated(&entry.variants),
        EntryFault::SameSource => TableFault::SameSource.on(entry.line),
        // Never but for lack of memory: each variant has a code point, all of them may stand in a table, and that has
        // the names of types and rules.
        _ => TableError::Memory,
    }
}

/// What is told of variants that an entry has twice: the line of the first that stands before it.
fn of_repeated(variants: &[Variant]) -> TableError
    ensures { TellsRepeated variants.now result }
{
    for number in 0..variants.len() {
        if is_repeated(variants, number) {
            return TableFault::SameVariant.on(variants[number].line);
        }
    }
    // Never: there is one.
    TableError::Memory
}

/// Whether an earlier variant has the same code points, unless each has a condition and the two differ.
fn is_repeated(variants: &[Variant], number: usize) -> bool
    requires { number < length variants.now }
    ensures { result ≡ true → StandsEarlier variants.now number }
{
    let variant = &variants[number];
    for earlier in 0..number {
        if is_same(&variants[earlier], variant) {
            return true;
        }
    }
    false
}

fn is_same(earlier: &Variant, variant: &Variant) -> bool
    ensures { result ≡ true → IsSameVariant earlier.now variant.now }
{
    if earlier.points.as_slice() != variant.points.as_slice() {
        return false;
    }
    match (&earlier.condition, &variant.condition) {
        (Some(one), Some(other)) => {
            one.kind == other.kind && one.rule.name.as_slice() == other.rule.name.as_slice()
        }
        _ => true,
    }
}

/// Refuses an entry of which a condition, or that of a variant, asks for a rule that isn't one of these.
fn check_rules(numbers: &Numbers, entry: &Entry) -> Result<(), TableError>
    ensures among { OnOk result (AreAmong numbers.now.rules (asked_by (records.entry entry.now))) }
    ensures fault { (may : ℕ → Bool) (r : held.Ruleset) → Contains r.entries.items entry.now →
        HasRulesOf r numbers.now.rules → IfErr result (IsFaultOfTable may r) }
{
    check_rule(numbers, &entry.condition)?;
    check_rules_of_variants(numbers, &entry.variants)?;
    Ok(())
}

fn check_rules_of_variants(numbers: &Numbers, variants: &[Variant]) -> Result<(), TableError>
    ensures among { OnOk result (AreAmong numbers.now.rules
        (flat_map (λ v. asked v.condition) (map records.variant variants.now))) }
    ensures fault { (may : ℕ → Bool) (r : held.Ruleset) →
        AreAllIn (conditions r) (flat_map (λ v. given v.condition) variants.now) →
        HasRulesOf r numbers.now.rules → IfErr result (IsFaultOfTable may r) }
{
    for variant in variants {
        check_rule(numbers, &variant.condition)?;
    }
    Ok(())
}

/// Refuses a condition that asks for a rule that isn't one of these.
pub(crate) fn check_rule(numbers: &Numbers, condition: &Option<Condition>) -> Result<(), TableError>
    ensures among { OnOk result (AreAmong numbers.now.rules (asked (option_map records.condition condition.now))) }
    ensures fault { (may : ℕ → Bool) (r : held.Ruleset) → AreAllIn (conditions r) (given condition.now) →
        HasRulesOf r numbers.now.rules → IfErr result (IsFaultOfTable may r) }
{
    let Some(condition) = condition else {
        return Ok(());
    };
    if numbers.rule_number(condition.rule.name.as_slice()) < numbers.rules().len() {
        Ok(())
    } else {
        Err(TableFault::NoSuchName.on(condition.rule.line))
    }
}
