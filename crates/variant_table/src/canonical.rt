//! The canonical text of sequences and tables.
ghost use Rattle.std.specs.Prelude.{◌≡◌, ◌+◌, ◌<◌, ◌≤◌, [], ◌∷◌, ◌++◌, length, slice_get, None, Some, OnOk};
ghost use Rattle.std.specs.Option.{option_map};
ghost use Rattle.arrayvec.specs.ArrayVec.{array_vec_len};
ghost use Rattle.idn_text.specs.Points.{AreScalarValues, IsScalarValue, four_digits, hex_digit};
ghost use Rattle.ruleset_text.specs.Canonical as points;
ghost use Rattle.ruleset_text.specs.EntryText as entries;
ghost use Rattle.ruleset_text.specs.NamedConditions as conditions;
ghost use Rattle.variant_table.specs.Canonical as text;
ghost use Rattle.variant_table.specs.Entries.{Variant, replacements, whole};
ghost use Rattle.variant_table.specs.Forms as forms;
ghost use Rattle.variant_table.specs.inner.Held.{named_in};
ghost use Rattle.variant_table.specs.WellFormed.{IsEntry, IsSequence};

use crate::entry::Entry;
use crate::forms::{SOURCE_MARK, VARIANT_MARK};
use crate::version::Version;
use arrayvec::ArrayVec;
use idn_text::hex_digit;
use label_patterns::{Condition, ConditionKind};
use ruleset_text::{Definitions, Name};
use std::alloc::AllocError;

/// Writes the canonical text of a sequence of 1 to 8 scalar values, in place of what was in `out`:
/// each code point in at least four upper-case hexadecimal digits, with hyphens between them. The
/// text has at most 55 bytes. No memory is taken.
pub fn write_sequence(sequence: &[u32], out: &mut ArrayVec<u8, 64>)
    requires filled { 1 ≤ length sequence.now }
    requires short { length sequence.now ≤ 8 }
    requires points { AreScalarValues sequence.now }
    ensures { out.new.items ≡ entries.sequence_text sequence.now }
{
    out.clear();
    let [first, others @ ..] = sequence else {
        return;
    };
    push_point(out, *first);
    for point in others {
        push_byte(out, b'-');
        push_point(out, *point);
    }
}

/// Appends a code point.
#[tactic(auto, unfolding(ruleset_text::specs::Canonical::point_text))]
fn push_point(out: &mut ArrayVec<u8, 64>, point: u32)
    requires point { IsScalarValue point }
    requires room { array_vec_len out.old ≤ 58 }
    ensures { out.new.items ≡ out.old.items ++ points.point_text point }
{
    if point < 0x1_0000 {
        push_four(out, point);
    } else if point < 0x10_0000 {
        push_digit(out, point / 0x1_0000 % 16);
        push_four(out, point);
    } else {
        push_digit(out, point / 0x10_0000 % 16);
        push_digit(out, point / 0x1_0000 % 16);
        push_four(out, point);
    }
}

/// Appends the last four digits of a number.
fn push_four(out: &mut ArrayVec<u8, 64>, number: u32)
    requires { array_vec_len out.old ≤ 60 }
    ensures { out.new.items ≡ out.old.items ++ four_digits number }
{
    push_digit(out, number / 0x1000 % 16);
    push_digit(out, number / 0x100 % 16);
    push_digit(out, number / 0x10 % 16);
    push_digit(out, number % 16);
}

fn push_digit(out: &mut ArrayVec<u8, 64>, value: u32)
    requires digit { value < 16 }
    requires room { array_vec_len out.old < 64 }
    ensures items { out.new.items ≡ out.old.items ++ hex_digit value ∷ [] }
    ensures len { array_vec_len out.new ≡ array_vec_len out.old + 1 }
{
    push_byte(out, hex_digit(value));
}

fn push_byte(out: &mut ArrayVec<u8, 64>, byte: u8)
    requires { array_vec_len out.old < 64 }
    ensures items { out.new.items ≡ out.old.items ++ byte ∷ [] }
    ensures len { array_vec_len out.new ≡ array_vec_len out.old + 1 }
{
    out.push(byte);
}

/// Appends what a text begins with: the version line, or in version 1 nothing.
pub fn push_head(out: &mut Vec<u8>, version: Version) -> Result<(), AllocError>
    ensures { OnOk result (out.new.items ≡ out.old.items ++ text.head_text version) }
{
    out.extend_from_slice(version.head())?;
    Ok(())
}

/// Appends the canonical line of an entry and its line feed, with the names of its types and rules.
pub fn push_entry(
    out: &mut Vec<u8>,
    definitions: &Definitions,
    entry: &Entry,
) -> Result<(), AllocError>
    requires { IsEntry entry.now }
    ensures { OnOk result (out.new.items ≡
        out.old.items ++ (text.canonical_line definitions.now entry.now ++ 10 ∷ [])) }
{
    push_replacement(out, definitions, entry, 0, SOURCE_MARK)?;
    for number in 1..entry.replacements() {
        out.push(separator_before(number - 1))?;
        push_replacement(out, definitions, entry, number, VARIANT_MARK)?;
    }
    out.push(b'\n')?;
    Ok(())
}

/// Appends the source or the variant of this number, with its type and its condition. `!` stands for the type of the
/// number `mark`.
fn push_replacement(
    out: &mut Vec<u8>,
    definitions: &Definitions,
    entry: &Entry,
    number: usize,
    mark: u8,
) -> Result<(), AllocError>
    requires entry { IsEntry entry.now }
    requires number { number < length (replacements entry.now) }
    ensures { (v : Variant) → slice_get (whole entry.now) number ≡ Some v → OnOk result (out.new.items ≡
        out.old.items ++ entries.mapped_text (forms.mapped_by mark definitions.now v) None) }
{
    let variant_type = entry.variant_type(number);
    push_mark(out, is_type(variant_type, mark))?;
    push_sequence(out, entry.replacement(number))?;
    push_type(out, definitions, variant_type, mark)?;
    push_condition(out, definitions.rule_names(), entry.condition(number))?;
    Ok(())
}

/// Whether it is the type of this number.
fn is_type(variant_type: Option<u8>, mark: u8) -> bool
    ensures { result ≡ forms.is_type mark variant_type }
{
    match variant_type {
        Some(number) => number == mark,
        None => false,
    }
}

/// Appends `!`, if it stands there.
fn push_mark(out: &mut Vec<u8>, marked: bool) -> Result<(), AllocError>
    ensures { OnOk result (out.new.items ≡ out.old.items ++ entries.mark_text marked) }
{
    if marked {
        out.push(b'!')?;
    }
    Ok(())
}

/// Appends a sequence.
fn push_sequence(out: &mut Vec<u8>, sequence: &[u32]) -> Result<(), AllocError>
    requires { IsSequence sequence.now }
    ensures { OnOk result (out.new.items ≡ out.old.items ++ entries.sequence_text sequence.now) }
{
    let mut text = ArrayVec::new();
    write_sequence(sequence, &mut text);
    out.extend_from_slice(&text)?;
    Ok(())
}

/// Appends ` as ` and the name of a type, unless `!` stands for it.
fn push_type(
    out: &mut Vec<u8>,
    definitions: &Definitions,
    variant_type: Option<u8>,
    mark: u8,
) -> Result<(), AllocError>
    ensures { OnOk result (out.new.items ≡
        out.old.items ++ entries.type_text (forms.unmarked_name mark definitions.now variant_type)) }
{
    let Some(number) = variant_type else {
        return Ok(());
    };
    if number == mark {
        return Ok(());
    }
    out.extend_from_slice(b" as ")?;
    out.extend_from_slice(definitions.type_name(number as usize))?;
    Ok(())
}

/// Appends a condition.
fn push_condition(
    out: &mut Vec<u8>,
    names: &[Name],
    condition: Option<Condition>,
) -> Result<(), AllocError>
    ensures { OnOk result (out.new.items ≡
        out.old.items ++ conditions.condition_text (option_map (named_in names.now) condition)) }
{
    let Some(condition) = condition else {
        return Ok(());
    };
    out.extend_from_slice(condition_word(condition.kind))?;
    push_name(out, names, condition.rule)
}

/// The word of a condition, with the blanks around it.
fn condition_word(kind: ConditionKind) -> &'static [u8]
    ensures { result.now ≡ conditions.condition_word kind }
{
    match kind {
        ConditionKind::When => b" when ",
        ConditionKind::Unless => b" unless ",
    }
}

/// Appends the name of this number; nothing if there is none.
fn push_name(out: &mut Vec<u8>, names: &[Name], number: u8) -> Result<(), AllocError>
    ensures { OnOk result (out.new.items ≡ out.old.items ++ forms.name_at names.now number) }
{
    if (number as usize) < names.len() {
        out.extend_from_slice(names[number as usize].as_slice())?;
    }
    Ok(())
}

/// The separator before the variant of this number, counted from 0.
fn separator_before(variant: usize) -> u8
    ensures { result ≡ text.separator variant }
{
    if variant == 0 { b'|' } else { b':' }
}
