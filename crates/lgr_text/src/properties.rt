//! The code points that have a property of Unicode (RFC 7940, section 6.2.3).
ghost use Rattle.std.specs.Prelude.{◌≡◌, ◌<◌, ◌≤◌, ◌==◌, ℕ, codes, length, position, Some, IfOk, IfSome};
ghost use Rattle.std.specs.Option.{option_map};
ghost use Rattle.label_patterns.specs.Sets.{is_in};
ghost use Rattle.lgr_text.specs.CodePoints.{AreSpans};
ghost use Rattle.lgr_text.specs.Properties as terms;
ghost use Rattle.lgr_text.specs.declared.property_names.Property.TheVariants as properties;
ghost use Rattle.lgr_text.specs.inner.PropertySets.{HasPassing, IsSetFor};
ghost use Rattle.ucd_sets.specs.Lookup.{by_value as by_names};
ghost use Rattle.ucd_sets.specs.Sets.{in_set};
ghost use Rattle.ucd_table.specs.Rows.{in_ranges, AreRanges};
ghost use Rattle.ucd_table.specs.Steps.{IsPartition, IsRunsOf};

use crate::code_points::CodePoints;
use crate::combining::{class_named, with_class};
use crate::property_names::{Property, bidi_named, joining_named, property_named, truth_named};
use label_patterns::Span;
use std::alloc::{AllocError, Global};
use ucd_bidi::{BidiClass, JoiningType};
use ucd_sets::{BinaryProperty, Set, by_value};

/// The code points that have a property with a value, as in `gc:Mn`. `None` if no class may name that.
pub(crate) fn property_set(alloc: Global, text: &[u8]) -> Result<Option<CodePoints>, AllocError>
    ensures { IfOk result (λ found. IsSetFor (terms.property_test text.now) found) }
{
    let Some(at) = colon_of(text) else {
        return Ok(None);
    };
    let name = loose(alloc, &text[..at])?;
    let Some(property) = property_named(&name) else {
        return Ok(None);
    };
    let value = property.compared(alloc, &text[at + 1..])?;
    property.with_value(alloc, &value)
}

impl Property {
    /// A value as it is compared: a number as it stands, and a name as names are.
    fn compared(self, alloc: Global, value: &[u8]) -> Result<Vec<u8>, AllocError>
        ensures { IfOk result (λ compared. compared.items ≡ terms.compared self value.now) }
    {
        match self {
            Property::CombiningClass => value.to_vec(alloc),
            Property::GeneralCategory | Property::Script => loose(alloc, value),
            Property::BidiClass | Property::JoiningType => loose(alloc, value),
            Property::Deprecated => loose(alloc, value),
        }
    }

    /// The code points that have the value of this name.
    fn with_value(self, alloc: Global, value: &[u8]) -> Result<Option<CodePoints>, AllocError>
        ensures { IfOk result (λ found. IsSetFor (terms.value_test self value.now) found) }
    {
        match self {
            Property::GeneralCategory => found_set(alloc, category(value)),
            Property::Script => found_set(alloc, script(value)),
            Property::CombiningClass => of_combining_class(alloc, value),
            Property::BidiClass => of_bidi_class(alloc, value),
            Property::JoiningType => of_joining_type(alloc, value),
            Property::Deprecated => of_deprecated(alloc, value),
        }
    }
}

/// The category, or the group of categories, of this name.
fn category(value: &[u8]) -> Option<Set>
    ensures { result ≡ terms.category_alone (by_names (codes "gc") value.now) }
{
    let set = by_value(b"gc", value).ok()?;
    category_alone(set)
}

/// A category or a group of categories: names of categories stand for other sets, too.
fn category_alone(set: Set) -> Option<Set>
    ensures { result ≡ terms.category_alone (Some set) }
{
    match set {
        Set::Category(category) => Some(Set::Category(category)),
        Set::CategoryGroup(group) => Some(Set::CategoryGroup(group)),
        Set::Any | Set::Ascii | Set::Assigned | Set::Binary(_) => None,
        Set::Script(_) | Set::ScriptExtension(_) | Set::Age(_) => None,
        Set::GraphemeClusterBreak(_) | Set::WordBreak(_) | Set::SentenceBreak(_) => None,
    }
}

/// The script of this name.
fn script(value: &[u8]) -> Option<Set>
    ensures { result ≡ by_names (codes "sc") value.now }
{
    by_value(b"sc", value).ok()
}

/// The code points of a set, if it was found.
fn found_set(alloc: Global, set: Option<Set>) -> Result<Option<CodePoints>, AllocError>
    ensures { IfOk result (λ found. IsSetFor (option_map in_set set) found) }
{
    match set {
        Some(set) => Ok(Some(of_set(alloc, set)?)),
        None => Ok(None),
    }
}

fn of_set(alloc: Global, set: Set) -> Result<CodePoints, AllocError>
    ensures { IfOk result (HasPassing (in_set set)) }
{
    of_ranges(alloc, &set.ranges(alloc)?)
}

fn of_combining_class(alloc: Global, value: &[u8]) -> Result<Option<CodePoints>, AllocError>
    ensures { IfOk result (λ found. IsSetFor (terms.value_test properties.CombiningClass value.now) found) }
{
    match class_named(value) {
        Some(class) => Ok(Some(with_class(alloc, class)?)),
        None => Ok(None),
    }
}

fn of_bidi_class(alloc: Global, value: &[u8]) -> Result<Option<CodePoints>, AllocError>
    ensures { IfOk result (λ found. IsSetFor (terms.value_test properties.BidiClass value.now) found) }
{
    let Some(class) = bidi_named(value) else {
        return Ok(None);
    };
    Ok(Some(with_number(alloc, BidiClass::runs(), class.number())?))
}

fn of_joining_type(alloc: Global, value: &[u8]) -> Result<Option<CodePoints>, AllocError>
    ensures { IfOk result (λ found. IsSetFor (terms.value_test properties.JoiningType value.now) found) }
{
    let Some(joining) = joining_named(value) else {
        return Ok(None);
    };
    Ok(Some(with_number(alloc, JoiningType::runs(), joining.number())?))
}

fn of_deprecated(alloc: Global, value: &[u8]) -> Result<Option<CodePoints>, AllocError>
    ensures { IfOk result (λ found. IsSetFor (terms.value_test properties.Deprecated value.now) found) }
{
    let Some(has) = truth_named(value) else {
        return Ok(None);
    };
    let set = of_set(alloc, Set::Binary(BinaryProperty::Deprecated))?;
    if has {
        Ok(Some(set))
    } else {
        Ok(Some(set.complement(alloc)?))
    }
}

/// The code points for which runs have this number.
fn with_number(alloc: Global, runs: &[u32], number: u32) -> Result<CodePoints, AllocError>
    requires { IsPartition runs.now }
    ensures { (f : ℕ → ℕ) → IsRunsOf runs.now f → IfOk result (HasPassing (λ c. f c == number)) }
{
    let ranges = ucd_table::ranges(alloc, runs, number, number)?;
    of_ranges(alloc, &ranges)
}

/// The code points of ranges.
fn of_ranges(alloc: Global, ranges: &[(u32, u32)]) -> Result<CodePoints, AllocError>
    requires { AreRanges ranges.now }
    ensures { IfOk result (λ set. (c : ℕ) → is_in set c ≡ in_ranges ranges.now c) }
{
    CodePoints::of_spans(alloc, &spans_of(alloc, ranges)?)
}

/// Ranges as spans.
fn spans_of(alloc: Global, ranges: &[(u32, u32)]) -> Result<Vec<Span>, AllocError>
    requires { AreRanges ranges.now }
    ensures spans { IfOk result (λ spans. AreSpans spans.items) }
    ensures members { IfOk result (λ spans. (c : ℕ) → is_in spans.items c ≡ in_ranges ranges.now c) }
{
    let mut spans = Vec::new(alloc);
    for (first, last) in ranges {
        spans.push(Span {
            first: *first,
            last: *last,
        })?;
    }
    Ok(spans)
}

/// Where the first colon stands.
fn colon_of(text: &[u8]) -> Option<usize>
    ensures place { result ≡ position terms.is_colon text.now }
    ensures within { IfSome result (λ at. at < length text.now) }
{
    text.iter().position(|byte| *byte == b':')
}

/// A name as names are compared.
fn loose(alloc: Global, text: &[u8]) -> Result<Vec<u8>, AllocError>
    ensures { IfOk result (λ name. name.items ≡ terms.loose text.now) }
{
    let mut name = Vec::new(alloc);
    for byte in text {
        if *byte != b'_' && *byte != b'-' {
            name.push(byte.to_ascii_lowercase())?;
        }
    }
    Ok(name)
}
