//! Classes as sets (RFC 7940, section 6.2).
ghost use Rattle.std.specs.Prelude.{◌≡◌, ◌≤◌, ◌++◌, ℕ, Bool, MatchResult, IfOk, OnOk, map, IsTrue, ◌↔◌, Some, None};
ghost use Rattle.std.specs.Prelude.{[], if◌then◌else◌};
ghost use Rattle.std.specs.List.{list_any};
ghost use Rattle.label_patterns.specs.declared.span.Span.{Span};
ghost use Rattle.label_patterns.specs.Sets.{is_in};
ghost use Rattle.ruleset_text.specs.Names.{is_one_of as is_one};
ghost use Rattle.lgr_text.specs.ClassMembers.{has, class_fault, property_fault, set_fault, tag_fault, set_named};
ghost use Rattle.lgr_text.specs.ClassMembers.{HasSpans};
ghost use Rattle.lgr_text.specs.CodePoints.{AreSpans};
ghost use Rattle.lgr_text.specs.Known.{known as known_of, tagged as tagged_spans, single_points, HaveSpans};
ghost use Rattle.lgr_text.specs.Properties.{property_has};
ghost use Rattle.lgr_text.specs.Records.{class as class_of, entry as entry_of, source};
ghost use Rattle.lgr_text.specs.inner.Faults.{IsFaultOf};

use crate::code_points::CodePoints;
use crate::known::Known;
use crate::properties::property_set;
use crate::records::{ClassTree, Entry, Source};
use crate::rule_error::{RuleError, RuleFault};
use label_patterns::Span;
use ruleset_text::{is_one_of, number_of};
use std::alloc::{AllocError, Global};

/// The code points of a class.
pub fn set_of(alloc: Global, known: Known<'_>, class: &ClassTree) -> Result<CodePoints, RuleError>
    requires spans { HasSpans (class_of class.now) }
    requires entries { HaveSpans (known_of known).entries }
    ensures members { IfOk result (λ set. (c : ℕ) → c ≤ 0x10FFFF →
        is_in set c ≡ has (known_of known.entry) (class_of class.now) c) }
    ensures fault { IsFaultOf (class_fault (known_of known.entry) (class_of class.now)) result }
{
    match class {
        ClassTree::Listed(spans) => Ok(CodePoints::of_spans(alloc, spans)?),
        ClassTree::OfTag(tag) => tagged(alloc, known.entries, tag.name.as_slice()),
        ClassTree::OfProperty(property) => having(alloc, property.name.as_slice()),
        ClassTree::OfClass(class) => named(alloc, known, class.name.as_slice()),
        ClassTree::Joined(operation, left, right) => {
            let left = set_of(alloc, known, left)?;
            let right = set_of(alloc, known, right)?;
            Ok(left.join(alloc, *operation, &right)?)
        }
        ClassTree::Complement(class) => Ok(set_of(alloc, known, class)?.complement(alloc)?),
    }
}

/// The set of the class of this name.
fn named(alloc: Global, known: Known<'_>, name: &[u8]) -> Result<CodePoints, RuleError>
    ensures members { IfOk result (λ set. set ≡ set_named (known_of known.entry) name.now) }
    ensures fault { IsFaultOf (set_fault (known_of known.entry) name.now) result }
{
    let number = number_of(known.set_names, name);
    if number < known.sets.len() {
        Ok(known.sets[number].copied(alloc)?)
    } else {
        Err(RuleError::Fault(RuleFault::Undefined))
    }
}

/// The code points that have a property.
fn having(alloc: Global, property: &[u8]) -> Result<CodePoints, RuleError>
    ensures members { IfOk result (λ set. (c : ℕ) → c ≤ 0x10FFFF → is_in set c ≡ property_has property.now c) }
    ensures fault { IsFaultOf (property_fault property.now) result }
{
    match property_set(alloc, property)? {
        Some(set) => Ok(set),
        None => Err(RuleError::Fault(RuleFault::NotSupported)),
    }
}

/// The code points of the entries that have a tag.
fn tagged(alloc: Global, entries: &[Entry], tag: &[u8]) -> Result<CodePoints, RuleError>
    requires { HaveSpans (map entry_of entries.now) }
    ensures members { IfOk result (λ set. (c : ℕ) →
        is_in set c ≡ is_in (tagged_spans (map entry_of entries.now) tag.now) c) }
    ensures fault { IsFaultOf (tag_fault (map entry_of entries.now) tag.now) result }
{
    let mut spans = Vec::new(alloc);
    let mut is_defined = false;
    for entry in entries {
        is_defined |= push_tagged(&mut spans, entry, tag)?;
    }
    if is_defined {
        Ok(CodePoints::of_spans(alloc, &spans)?)
    } else {
        Err(RuleError::Fault(RuleFault::Undefined))
    }
}

/// Appends the code points of an entry, if it has a tag, and answers whether it has it.
fn push_tagged(spans: &mut Vec<Span>, entry: &Entry, tag: &[u8]) -> Result<bool, AllocError>
    ensures spans { let e = entry_of entry.now in OnOk result (spans.new.items ≡
        spans.old.items ++ (if is_one e.tags tag.now then single_points e.source else [])) }
    ensures has { IfOk result (λ has_tag. has_tag ≡ is_one (entry_of entry.now).tags tag.now) }
{
    let has_tag = is_one_of(&entry.tags, tag);
    if has_tag {
        push_points(spans, &entry.source)?;
    }
    Ok(has_tag)
}

/// Appends the code points of an entry, if each is an entry by itself.
fn push_points(spans: &mut Vec<Span>, points: &Source) -> Result<(), AllocError>
    ensures { OnOk result (spans.new.items ≡ spans.old.items ++ single_points (source points.now)) }
{
    match points {
        Source::Range(span) => spans.push(*span)?,
        Source::Sequence(points) => {
            if let [point] = points.as_slice() {
                spans.push(Span {
                    first: *point,
                    last: *point,
                })?;
            }
        }
    }
    Ok(())
}
