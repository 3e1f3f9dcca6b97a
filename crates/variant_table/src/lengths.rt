//! How many bytes of a canonical text are left after further lines, if the version limits them.
ghost use Rattle.std.specs.Prelude.{◌≡◌, ◌+◌, ◌<◌, ◌≤◌, ◌^◌, [], ◌∷◌, ◌++◌, None, false, length, map};
ghost use Rattle.std.specs.List.{range_with_len};
ghost use Rattle.ruleset_text.specs.Canonical.{point_text};
ghost use Rattle.ruleset_text.specs.EntryForms.{mapped as form_of};
ghost use Rattle.ruleset_text.specs.EntryText.{mapped_text, mark_text, sequence_text};
ghost use Rattle.ruleset_text.specs.NamedConditions.{condition_text, condition_word};
ghost use Rattle.variant_table.specs.Canonical.{written_text};
ghost use Rattle.variant_table.specs.Conditions.{is_too_large};
ghost use Rattle.variant_table.specs.Forms.{normal_by, with_point};
ghost use Rattle.variant_table.specs.inner.Held.{counted, type_len, HasNoEmptySequence, IsLeft};

use crate::forms::{SOURCE_MARK, VARIANT_MARK};
use crate::version::Version;
use label_patterns::ConditionKind;
use ruleset_text::{Mapped, NamedCondition, predefined_type};

/// How many of `left` bytes are left after the canonical line of a source and its variants, with its line feed: none
/// if they are too few. Version 1 doesn't limit the canonical text.
pub fn left_after_entry(version: Version, entry: &[Mapped], left: usize) -> Option<usize>
    requires some { 0 < length entry.now }
    requires filled { HasNoEmptySequence (map form_of entry.now) }
    requires small { is_too_large (map form_of entry.now) ≡ false }
    ensures { IsLeft left (counted version (written_text (map form_of entry.now ∷ []))) result }
{
    match version {
        Version::One => Some(left),
        Version::Two | Version::Three => left_after_line(entry, left),
    }
}

/// How many of `left` bytes are left after the canonical line of a source and its variants, where the canonical text is
/// limited: none if they are too few.
fn left_after_line(entry: &[Mapped], left: usize) -> Option<usize>
    requires some { 0 < length entry.now }
    requires filled { HasNoEmptySequence (map form_of entry.now) }
    requires small { is_too_large (map form_of entry.now) ≡ false }
    ensures { IsLeft left (length (written_text (map form_of entry.now ∷ []))) result }
{
    let [source, variants @ ..] = entry else {
        return Some(left);
    };
    let mut rest = left_after_mapped(source, SOURCE_MARK, left)?;
    for variant in variants {
        rest = left_after_mapped(variant, VARIANT_MARK, rest)?;
    }
    Some(rest)
}

/// How many bytes are left after a source or a variant, and one byte more: that of what follows it. `!` stands for the
/// type of the number `mark`.
fn left_after_mapped(mapped: &Mapped, mark: u8, left: usize) -> Option<usize>
    requires some { 0 < length mapped.now.points.items }
    requires short { length mapped.now.points.items ≤ 8 }
    ensures { IsLeft left (length (mapped_text (normal_by mark (form_of mapped.now)) None) + 1) result }
{
    let rest = left.checked_sub(sequence_len(&mapped.points))?;
    left_after_names(mapped, mark, rest)
}

/// How many bytes are left after the type and the condition of a source or a variant.
fn left_after_names(mapped: &Mapped, mark: u8, left: usize) -> Option<usize>
    ensures { IsLeft left (type_len (normal_by mark (form_of mapped.now)) +
        length (condition_text mapped.now.condition)) result }
{
    let rest = left_after_type(mapped, mark, left)?;
    left_after_condition(&mapped.condition, rest)
}

/// How many bytes are left after a type: `!`, or ` as ` and its name.
fn left_after_type(mapped: &Mapped, mark: u8, left: usize) -> Option<usize>
    ensures { IsLeft left (type_len (normal_by mark (form_of mapped.now))) result }
{
    let Some(name) = &mapped.type_name else {
        return left.checked_sub(mark_len(mapped.marked));
    };
    if name.as_slice() == predefined_type(mark as usize) {
        return left.checked_sub(1);
    }
    let rest = left.checked_sub(mark_len(mapped.marked) + 4)?;
    rest.checked_sub(name.as_slice().len())
}

/// How many bytes are left after a condition.
fn left_after_condition(condition: &Option<NamedCondition>, left: usize) -> Option<usize>
    ensures { IsLeft left (length (condition_text condition.now)) result }
{
    match condition {
        None => Some(left),
        Some(condition) => {
            let rest = left.checked_sub(word_len(condition.kind))?;
            rest.checked_sub(condition.rule.as_slice().len())
        }
    }
}

/// How many bytes the word of a condition has, with the blanks around it.
fn word_len(kind: ConditionKind) -> usize
    ensures { result ≡ length (condition_word kind) }
{
    match kind {
        ConditionKind::When => 6,
        ConditionKind::Unless => 8,
    }
}

/// How many bytes `!` has, if it stands there.
fn mark_len(marked: bool) -> usize
    ensures is { result ≡ length (mark_text marked) }
    ensures few { result ≤ 1 }
{
    if marked { 1 } else { 0 }
}

/// How many bytes a sequence has, and one more for what follows it.
fn sequence_len(sequence: &[u32]) -> usize
    requires some { 0 < length sequence.now }
    requires short { length sequence.now ≤ 8 }
    ensures count { result ≡ length (sequence_text sequence.now) + 1 }
    ensures few { result ≤ 56 }
{
    let mut len = 0;
    for point in sequence {
        len += point_len(*point) + 1;
    }
    len
}

/// How many of `left` bytes are left after the canonical lines of a range of `count` code points from `first` on, with
/// what stands at its source: none if they are too few. Version 1 doesn't limit the canonical text.
pub fn left_after_range(
    version: Version,
    source: &Mapped,
    first: u32,
    count: usize,
    left: usize,
) -> Option<usize>
    requires last { first + count ≤ 2 ^ 32 }
    ensures { IsLeft left (counted version
        (written_text (map (λ c. with_point (form_of source.now) c ∷ []) (range_with_len first count)))) result }
{
    match version {
        Version::One => Some(left),
        Version::Two | Version::Three => left_after_points(source, first, count, left),
    }
}

/// How many of `left` bytes are left after the canonical lines of a range, where the canonical text is limited: none if
/// they are too few.
fn left_after_points(source: &Mapped, first: u32, count: usize, left: usize) -> Option<usize>
    requires last { first + count ≤ 2 ^ 32 }
    ensures { IsLeft left (length (written_text
        (map (λ c. with_point (form_of source.now) c ∷ []) (range_with_len first count)))) result }
{
    let mut rest = left;
    for offset in 0..count {
        rest = left_after_point(source, first + offset as u32, rest)?;
    }
    Some(rest)
}

/// How many bytes are left after a source with this code point, and one byte more: that of the line feed.
fn left_after_point(source: &Mapped, point: u32, left: usize) -> Option<usize>
    ensures { IsLeft left
        (length (mapped_text (normal_by 0 (with_point (form_of source.now) point)) None) + 1) result }
{
    let rest = left.checked_sub(point_len(point) + 1)?;
    left_after_names(source, SOURCE_MARK, rest)
}

/// How many bytes a code point has.
#[tactic(auto, unfolding(ruleset_text::specs::Canonical::point_text))]
fn point_len(point: u32) -> usize
    ensures count { result ≡ length (point_text point) }
    ensures few { result ≤ 6 }
{
    if point < 0x1_0000 {
        4
    } else if point < 0x10_0000 {
        5
    } else {
        6
    }
}
