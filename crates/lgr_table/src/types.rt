//! The types of a table.
ghost use Rattle.std.specs.Prelude.{◌≡◌, ◌++◌, ◌∷◌, [], false, ℕ, List, map, unwrap_or, IfErr, IfOk, OnOk};
ghost use Rattle.std.specs.List.{flat_map};
ghost use Rattle.std.specs.Option.{option_map};
ghost use Rattle.lgr_text.specs.Records as records;
ghost use Rattle.lgr_text.specs.Records.{file};
ghost use Rattle.lgr_table.specs.Entries.{needs_type};
ghost use Rattle.lgr_table.specs.Numbers.{trigger_types, types_of as types_in, variant_type};
ghost use Rattle.lgr_table.specs.Tables.{may_stand};
ghost use Rattle.lgr_table.specs.inner.Steps.{AddsTypes, AreFileTypes};
ghost use Rattle.lgr_table.specs.inner.TableNames.{DefinesType, DefinesTypes, names_by};
ghost use Rattle.lgr_table.specs.inner.TypeSteps.{AreTypes, TellsFull, TellsTypes};

use crate::fault::{TableError, TableFault};
use crate::names::{FileNames, Named};
use crate::numbers::named_in;
use crate::untyped::untyped_line;
use idn_class::Properties;
use lgr_text::{Ruleset, Trigger, Variant};
use ruleset_text::{Definition, Name};
use std::alloc::{AllocError, Global};
use variant_table::TableBuilder;

/// How many types a table may have beside those that are predefined.
const MAX_TYPES: usize = 57;

/// Defines the types of the file, and tells which numbers they have.
pub(crate) fn define_types(
    alloc: Global,
    builder: &mut TableBuilder,
    ruleset: &Ruleset,
) -> Result<Vec<Option<Name>>, TableError>
    requires { builder.old.definitions.types ≡ [] }
    ensures added { IfOk result (λ types. AddsTypes (may_stand builder.old.definitions.properties)
        (file «ruleset».now) types.items builder.old builder.new) }
    ensures fault { let may = may_stand builder.old.definitions.properties in
        IfErr result (TellsTypes (needs_type may (file «ruleset».now).entries) (types_in (file «ruleset».now))) }
{
    let types = types_of(alloc, builder.definitions().properties(), ruleset)?;
    let names = FileNames {
        types: &types,
        definitions: &ruleset.definitions,
    };
    define_each(alloc, builder, names)?;
    Ok(types)
}

/// The types of the file, each once, in the order in which they are named first. The last one is that of variants that
/// have none, if there is to be one.
fn types_of(
    alloc: Global,
    properties: Properties,
    ruleset: &Ruleset,
) -> Result<Vec<Option<Name>>, TableError>
    ensures types { IfOk result (λ types. AreFileTypes (may_stand properties) (file «ruleset».now) types.items) }
    ensures fault { let untyped = needs_type (may_stand properties) (file «ruleset».now).entries in
        IfErr result (TellsTypes untyped (types_in (file «ruleset».now))) }
{
    let mut types = Vec::new(alloc);
    for entry in &ruleset.entries {
        add_of_variants(alloc, &mut types, &entry.variants)?;
    }
    for action in &ruleset.actions {
        add_of_trigger(alloc, &mut types, &action.trigger, action.line)?;
    }
    let untyped = untyped_line(alloc, properties, &ruleset.entries)?;
    let Some(line) = untyped else {
        return Ok(types);
    };
    add_type(&mut types, None, line)?;
    Ok(types)
}

/// Adds the types of variants.
fn add_of_variants(
    alloc: Global,
    types: &mut Vec<Option<Name>>,
    variants: &[Variant],
) -> Result<(), TableError>
    ensures types { (names : List (List ℕ)) → AreTypes false names types.old.items → OnOk result
        (AreTypes false (names ++ flat_map variant_type (map records.variant variants.now)) types.new.items) }
    ensures fault { (names : List (List ℕ)) → AreTypes false names types.old.items → IfErr result
        (TellsTypes false (names ++ flat_map variant_type (map records.variant variants.now))) }
{
    for variant in variants {
        add_of_variant(alloc, types, variant)?;
    }
    Ok(())
}

/// Adds the type of a variant, if it has one.
fn add_of_variant(
    alloc: Global,
    types: &mut Vec<Option<Name>>,
    variant: &Variant,
) -> Result<(), TableError>
    ensures types { (names : List (List ℕ)) → AreTypes false names types.old.items → OnOk result
        (AreTypes false (names ++ variant_type (records.variant variant.now)) types.new.items) }
    ensures fault { (names : List (List ℕ)) → AreTypes false names types.old.items → IfErr result
        (TellsTypes false (names ++ variant_type (records.variant variant.now))) }
{
    match &variant.type_name {
        Some(name) => add_named(alloc, types, name.as_slice(), variant.line),
        None => Ok(()),
    }
}

/// Adds the types that an action on this line asks for.
fn add_of_trigger(
    alloc: Global,
    types: &mut Vec<Option<Name>>,
    trigger: &Option<Trigger>,
    line: usize,
) -> Result<(), TableError>
    ensures types { (names : List (List ℕ)) → AreTypes false names types.old.items → OnOk result
        (AreTypes false (names ++ trigger_types (option_map records.trigger trigger.now)) types.new.items) }
    ensures fault { (names : List (List ℕ)) → AreTypes false names types.old.items → IfErr result
        (TellsTypes false (names ++ trigger_types (option_map records.trigger trigger.now))) }
{
    let Some(trigger) = trigger else {
        return Ok(());
    };
    for name in &trigger.types {
        add_named(alloc, types, name.as_slice(), line)?;
    }
    Ok(())
}

/// Adds the type of this name, which stands on this line, if it isn't there.
fn add_named(
    alloc: Global,
    types: &mut Vec<Option<Name>>,
    name: &[u8],
    line: usize,
) -> Result<(), TableError>
    ensures types { (names : List (List ℕ)) → AreTypes false names types.old.items →
        OnOk result (AreTypes false (names ++ name.now ∷ []) types.new.items) }
    ensures fault { (names : List (List ℕ)) → AreTypes false names types.old.items →
        IfErr result (TellsTypes false (names ++ name.now ∷ [])) }
{
    if named_in(types, name).is_some() {
        return Ok(());
    }
    add_type(types, Some(Name::copied(alloc, name)?), line)?;
    Ok(())
}

/// Adds a type, which stands on this line.
fn add_type(
    types: &mut Vec<Option<Name>>,
    type_name: Option<Name>,
    line: usize,
) -> Result<(), TableError>
    ensures added { OnOk result (types.new.items ≡ types.old.items ++ type_name ∷ []) }
    ensures fault { IfErr result (TellsFull types.old.items) }
{
    if types.len() >= MAX_TYPES {
        return Err(TableFault::Limit.on(line));
    }
    types.push(type_name)?;
    Ok(())
}

/// Defines each type of the file.
fn define_each(
    alloc: Global,
    builder: &mut TableBuilder,
    names: FileNames<'_>,
) -> Result<(), AllocError>
    requires { builder.old.definitions.types ≡ [] }
    ensures { OnOk result (DefinesTypes (names_by names.entry) builder.old builder.new) }
{
    for type_name in names.types {
        define_type(alloc, builder, names, type_name)?;
    }
    Ok(())
}

/// Defines one more type.
fn define_type(
    alloc: Global,
    builder: &mut TableBuilder,
    names: FileNames<'_>,
    type_name: &Option<Name>,
) -> Result<(), AllocError>
    ensures { OnOk result (DefinesType (names_by names.entry) type_name.now builder.old builder.new) }
{
    let name = name_of(type_name);
    let given = Named::Type.given_name(alloc, names, builder.definitions(), name)?;
    match builder.define(Definition::VariantType(given)) {
        Ok(()) => Ok(()),
        // Never but for lack of memory: it isn't one too many, and its name is new.
        Err(_) => Err(AllocError),
    }
}

/// The name of a type; nothing, if it has none.
fn name_of(type_name: &Option<Name>) -> &[u8]
    ensures { result.now ≡ unwrap_or type_name.now [] }
{
    match type_name {
        Some(name) => name.as_slice(),
        None => {
            let nothing: &[u8] = &[];
            nothing
        }
    }
}
