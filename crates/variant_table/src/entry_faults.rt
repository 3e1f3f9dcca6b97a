//! What is wrong with an entry in memory that its form doesn't show.
ghost use Rattle.std.specs.Prelude.{◌≡◌, ◌<◌, ◌||◌, nat_lt, length, None, IfOk};
ghost use Rattle.std.specs.List.{list_all, list_any};
ghost use Rattle.ruleset_text.specs.EntryForms.{mapped as form_of};
ghost use Rattle.variant_table.specs.Conditions as conditions;
ghost use Rattle.variant_table.specs.Forms as forms;
ghost use Rattle.variant_table.specs.inner.Drafts.{AreFoundOf, form_with, is_long as is_long_form};

use idn_class::Properties;
use ruleset_text::{
    Definitions, FoundFaults, Mapped, Name, NamedCondition, SEQUENCE_LIMIT, is_bad_point, is_one_of,
};
use std::alloc::{AllocError, Global};

/// The most sequences of an entry: its source and 16 variants.
const MOST_SEQUENCES: usize = 17;

/// The faults of a source and its variants.
pub fn faults_of_entry(
    alloc: Global,
    definitions: &Definitions,
    mapped: &[Mapped],
) -> Result<FoundFaults, AllocError>
    requires { 0 < length mapped.now }
    ensures { IfOk result (AreFoundOf definitions.now (form_with mapped.now None)) }
{
    let bad = has_bad_points(alloc, definitions.properties(), mapped)?;
    Ok(FoundFaults {
        limit: is_too_large(mapped),
        name: !knows_all(definitions, mapped),
        class: bad,
    })
}

/// Whether there are too many variants, or a sequence is too long.
fn is_too_large(mapped: &[Mapped]) -> bool
    ensures { result ≡ (nat_lt 17 (length mapped.now) || list_any (λ m. is_long_form (form_of m)) mapped.now) }
{
    mapped.len() > MOST_SEQUENCES || is_one_long(mapped)
}

fn is_one_long(mapped: &[Mapped]) -> bool
    ensures { result ≡ list_any (λ m. is_long_form (form_of m)) mapped.now }
{
    mapped.iter().any(|one| is_long(one))
}

fn is_long(mapped: &Mapped) -> bool
    ensures { result ≡ is_long_form (form_of mapped.now) }
{
    mapped.points.len() > SEQUENCE_LIMIT
}

/// Whether all names of a source and its variants are defined.
fn knows_all(definitions: &Definitions, mapped: &[Mapped]) -> bool
    ensures { result ≡ list_all (λ m. forms.knows_names definitions.now (form_of m)) mapped.now }
{
    mapped.iter().all(|one| knows_names(definitions, one))
}

fn knows_names(definitions: &Definitions, mapped: &Mapped) -> bool
    ensures { result ≡ forms.knows_names definitions.now (form_of mapped.now) }
{
    knows_type(definitions, &mapped.type_name) && knows_rule(definitions, &mapped.condition)
}

fn knows_type(definitions: &Definitions, type_name: &Option<Name>) -> bool
    ensures { result ≡ forms.knows_type definitions.now type_name.now }
{
    match type_name {
        None => true,
        Some(name) => definitions.has_type(name.as_slice()),
    }
}

fn knows_rule(definitions: &Definitions, condition: &Option<NamedCondition>) -> bool
    ensures { result ≡ forms.knows_rule definitions.now condition.now }
{
    match condition {
        None => true,
        Some(condition) => is_one_of(definitions.rule_names(), condition.rule.as_slice()),
    }
}

/// Whether a code point stands in it that no table may hold.
fn has_bad_points(
    alloc: Global,
    properties: Properties,
    mapped: &[Mapped],
) -> Result<bool, AllocError>
    ensures { IfOk result (λ bad.
        bad ≡ list_any (λ m. conditions.has_bad_point properties (form_of m).points) mapped.now) }
{
    for one in mapped {
        if has_bad_point(alloc, properties, &one.points)? {
            return Ok(true);
        }
    }
    Ok(false)
}

fn has_bad_point(alloc: Global, properties: Properties, points: &[u32]) -> Result<bool, AllocError>
    ensures { IfOk result (λ bad. bad ≡ conditions.has_bad_point properties points.now) }
{
    for point in points {
        if is_bad_point(alloc, properties, *point)? {
            return Ok(true);
        }
    }
    Ok(false)
}
