//! An entry of a file with the names that the table has for its types and rules.
ghost use Rattle.std.specs.Prelude.{◌≡◌, ◌<◌, ◌||◌, ◌∷◌, [], ℕ, List, false, true, IfErr, IfOk, None, OnOk, length, map};
ghost use Rattle.std.specs.Option.{ForSome, option_map};
ghost use Rattle.lgr_text.specs.Records as records;
ghost use Rattle.lgr_table.specs.Entries as words;
ghost use Rattle.lgr_text.specs.Repertoire.{is_reflexive};
ghost use Rattle.lgr_table.specs.Numbers.{numbered_condition};
ghost use Rattle.lgr_table.specs.Tables.{may_stand};
ghost use Rattle.lgr_table.specs.inner.EntrySteps.{PushesVariants};
ghost use Rattle.lgr_table.specs.inner.FaultSteps.{TellsReflexive, TellsVariants};
ghost use Rattle.ruleset_text.specs.Definitions.{type_names, type_number as number_of_type};
ghost use Rattle.ruleset_text.specs.EntryForms.{mapped as form_of};
ghost use Rattle.variant_table.specs.Forms.{entry_of, numbered, variant_by, variant_mark};

use crate::fault::{TableError, TableFault};
use crate::kept::{is_reflexive, may_be};
use crate::numbers::Numbers;
use lgr_text::{Condition, Entry, Variant};
use ruleset_text::{Definitions, Mapped, Name, NamedCondition};
use std::alloc::{AllocError, Global};

/// The entry of one of its sources: the source, then the variants that the table keeps. A variant that is the source
/// gives it its type.
pub(crate) fn mapped_of(
    alloc: Global,
    definitions: &Definitions,
    numbers: &Numbers,
    entry: &Entry,
    source: &[u32],
) -> Result<Vec<Mapped>, TableError>
    requires types { length definitions.now.types ≡ length numbers.now.types }
    requires rules { length definitions.now.rule_names ≡ length numbers.now.rules }
    ensures is { IfOk result (λ mapped. entry_of definitions.now (map form_of mapped.items) ≡
        words.entry_with (may_stand definitions.now.properties) numbers.now (records.entry entry.now) source.now) }
    ensures of_one_type { OnOk result (words.HasOneType (records.entry entry.now) source.now) }
    ensures fault { IfErr result (TellsVariants entry.now source.now) }
{
    check_reflexive(source, entry)?;
    check_points(entry)?;
    let points = Vec::from_slice(alloc, source)?;
    let number = reflexive_type(numbers, source, &entry.variants);
    let type_name = type_called(alloc, definitions, number)?;
    let condition = condition_called(alloc, definitions, numbers, &entry.condition)?;
    let mut mapped = Vec::new(alloc);
    mapped.push(Mapped {
        marked: false,
        points,
        type_name,
        condition,
    })?;
    push_variants(
        alloc,
        definitions,
        numbers,
        source,
        &entry.variants,
        &mut mapped,
    )?;
    Ok(mapped)
}

/// Refuses a second variant that is the source, and one that has a condition.
fn check_reflexive(source: &[u32], entry: &Entry) -> Result<(), TableError>
    ensures of_one_type { OnOk result (words.HasOneType (records.entry entry.now) source.now) }
    ensures fault { IfErr result (TellsVariants entry.now source.now) }
{
    let mut found = false;
    for variant in &entry.variants {
        let now = check_variant(source, variant, found)?;
        found = now;
    }
    Ok(())
}

/// Refuses a variant of no code points.
fn check_points(entry: &Entry) -> Result<(), TableError>
    ensures { (source : List ℕ) → IfErr result (TellsVariants entry.now source) }
{
    for variant in &entry.variants {
        if variant.points.is_empty() {
            return Err(TableFault::NotSupported.on(entry.line));
        }
    }
    Ok(())
}

/// Whether a variant that is the source was found, with this one, which isn't a second one and has no condition.
fn check_variant(source: &[u32], variant: &Variant, found: bool) -> Result<bool, TableError>
    ensures found { IfOk result (λ now. now ≡ (found || is_reflexive source.now (records.variant variant.now))) }
    ensures alone { OnOk result (is_reflexive source.now (records.variant variant.now) ≡ true → found ≡ false) }
    ensures bare { OnOk result (is_reflexive source.now (records.variant variant.now) ≡ true →
        (records.variant variant.now).condition ≡ None) }
    ensures fault { IfErr result (TellsReflexive source.now variant.now found) }
{
    if !is_reflexive(source, variant) {
        return Ok(found);
    }
    if found {
        return Err(TableFault::NotSupported.on(variant.line));
    }
    match &variant.condition {
        Some(_) => Err(TableFault::NotSupported.on(variant.line)),
        None => Ok(true),
    }
}

/// The number of the type of the first variant that is the source.
fn reflexive_type(numbers: &Numbers, source: &[u32], variants: &[Variant]) -> Option<usize>
    ensures { result ≡ words.reflexive_type numbers.now source.now (map records.variant variants.now) }
{
    for variant in variants {
        if is_reflexive(source, variant) {
            return numbers.type_number(&variant.type_name);
        }
    }
    None
}

/// Appends the variants that the table keeps, without those that are the source.
fn push_variants(
    alloc: Global,
    definitions: &Definitions,
    numbers: &Numbers,
    source: &[u32],
    variants: &[Variant],
    mapped: &mut Vec<Mapped>,
) -> Result<(), AllocError>
    requires types { length definitions.now.types ≡ length numbers.now.types }
    requires rules { length definitions.now.rule_names ≡ length numbers.now.rules }
    ensures { OnOk result (PushesVariants definitions.now mapped.old.items mapped.new.items
        (words.variants_of (may_stand definitions.now.properties) numbers.now source.now
        (map records.variant variants.now))) }
{
    for variant in variants {
        push_variant(alloc, definitions, numbers, source, variant, mapped)?;
    }
    Ok(())
}

/// Appends a variant, if the table keeps it, and it isn't the source.
fn push_variant(
    alloc: Global,
    definitions: &Definitions,
    numbers: &Numbers,
    source: &[u32],
    variant: &Variant,
    mapped: &mut Vec<Mapped>,
) -> Result<(), AllocError>
    requires types { length definitions.now.types ≡ length numbers.now.types }
    requires rules { length definitions.now.rule_names ≡ length numbers.now.rules }
    ensures { OnOk result (PushesVariants definitions.now mapped.old.items mapped.new.items
        (words.variants_of (may_stand definitions.now.properties) numbers.now source.now
        (records.variant variant.now ∷ []))) }
{
    if is_reflexive(source, variant) {
        return Ok(());
    }
    let kept = may_be(alloc, definitions.properties(), &variant.points)?;
    if !kept {
        return Ok(());
    }
    let called = variant_called(alloc, definitions, numbers, variant)?;
    mapped.push(called)?;
    Ok(())
}

/// A variant with the names of the table.
fn variant_called(
    alloc: Global,
    definitions: &Definitions,
    numbers: &Numbers,
    variant: &Variant,
) -> Result<Mapped, AllocError>
    requires types { length definitions.now.types ≡ length numbers.now.types }
    requires rules { length definitions.now.rule_names ≡ length numbers.now.rules }
    ensures { IfOk result (λ mapped. variant_by variant_mark definitions.now (form_of mapped) ≡
        words.variant_of numbers.now (records.variant variant.now)) }
{
    let points = Vec::from_slice(alloc, &variant.points)?;
    let number = numbers.type_number(&variant.type_name);
    let type_name = type_called(alloc, definitions, number)?;
    let condition = condition_called(alloc, definitions, numbers, &variant.condition)?;
    Ok(Mapped {
        marked: false,
        points,
        type_name,
        condition,
    })
}

/// The name that the table has for the type of this number.
fn type_called(
    alloc: Global,
    definitions: &Definitions,
    number: Option<usize>,
) -> Result<Option<Name>, AllocError>
    requires { ForSome number (λ n. n < length (type_names definitions.now)) }
    ensures { IfOk result (λ name. option_map (number_of_type definitions.now) name ≡ number) }
{
    let Some(number) = number else {
        return Ok(None);
    };
    // Only for the proof: the contract says that no name stands there twice.
    let _names = definitions.set_names();
    let name = Name::copied(alloc, definitions.type_name(number))?;
    Ok(Some(name))
}

/// A condition with the name that the table has for its rule.
fn condition_called(
    alloc: Global,
    definitions: &Definitions,
    numbers: &Numbers,
    condition: &Option<Condition>,
) -> Result<Option<NamedCondition>, AllocError>
    requires { length definitions.now.rule_names ≡ length numbers.now.rules }
    ensures { IfOk result (λ named. option_map (numbered definitions.now) named ≡
        option_map (numbered_condition numbers.now) (option_map records.condition condition.now)) }
{
    let Some(condition) = condition else {
        return Ok(None);
    };
    let wanted = condition.rule.name.as_slice();
    let number = numbers.rule_number(wanted);
    let names = definitions.rule_names();
    if number >= names.len() {
        // Never: the rules of conditions were looked up before.
        return Err(AllocError);
    }
    // Only for the proof: the contract says that no name stands there twice.
    let _names = definitions.set_names();
    let written = names[number].as_slice();
    let rule = Name::copied(alloc, written)?;
    Ok(Some(NamedCondition {
        kind: condition.kind,
        rule,
    }))
}
