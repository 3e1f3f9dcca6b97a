//! Which line of RFC 5892, section 3, bars a code point.
ghost use Rattle.std.specs.Prelude.{◌≡◌, IfOk, ◌∷◌};
ghost use Rattle.std.specs.List.{find};
ghost use Rattle.idn_class.specs.Barring.{applies, barring_line, barring_lines, lines_by_look_up, lines_of_properties};
ghost use Rattle.idn_class.specs.Class.{is_left_out, is_outside_profile, is_disallowed_exception};
ghost use Rattle.idn_class.specs.Class.{is_unassigned, has_ignorable_property, is_in_ignorable_block};
ghost use Rattle.idn_class.specs.Class.{is_old_hangul_jamo, is_letter_or_digit};

use crate::class::{Class, class_of_by};
use crate::properties::Properties;
use crate::stability::is_unstable;
use std::alloc::{AllocError, Global};
use unicode::properties::{
    GeneralCategory, is_default_ignorable_code_point, is_noncharacter_code_point, is_white_space,
};

/// A line of RFC 5892, section 3, or of this profile, by which a code point may not be registered. The letter in
/// parentheses is that of section 2.
#[derive(Clone, Copy, PartialEq, Eq)]
pub enum BarringLine {
    /// The number is no Unicode scalar value.
    NoScalarValue,
    /// The profile does not cover the code point.
    OutsideProfile,
    /// Exceptions (F, 2.6) that are DISALLOWED.
    Exceptions,
    /// Unassigned (J, 2.10). The others are DISALLOWED.
    Unassigned,
    /// Unstable (B, 2.2).
    Unstable,
    /// IgnorableProperties (C, 2.3).
    IgnorableProperties,
    /// IgnorableBlocks (D, 2.4).
    IgnorableBlocks,
    /// OldHangulJamo (I, 2.9).
    OldHangulJamo,
    /// The last line: the code point is not one of LetterDigits (A, 2.1).
    NoLetterDigit,
}

/// The first line by which a code point may not be registered. `None` where its class is neither DISALLOWED nor
/// UNASSIGNED. Memory is taken for most code points.
#[tactic(auto, unfolding(crate::specs::Barring::barring_line))]
pub fn barring_line(
    alloc: Global,
    c: u32,
    properties: Properties,
) -> Result<Option<BarringLine>, AllocError>
    ensures { IfOk result (λ line. line ≡ barring_line properties c) }
{
    match class_of_by(alloc, c, properties)? {
        Class::Disallowed | Class::Unassigned => Ok(first_line(alloc, c, properties)?),
        Class::Pvalid | Class::Contextj | Class::Contexto => Ok(None),
    }
}

/// The first line that applies, of all that bar.
fn first_line(
    alloc: Global,
    c: u32,
    properties: Properties,
) -> Result<Option<BarringLine>, AllocError>
    ensures { IfOk result (λ line. line ≡ find (applies properties c) barring_lines) }
{
    match char::from_u32(c) {
        Some(point) => Ok(line_of_scalar(alloc, point, properties)?),
        None => Ok(Some(BarringLine::NoScalarValue)),
    }
}

/// The first line that applies to a scalar value.
#[tactic(auto, unfolding(crate::specs::Barring::applies))]
fn line_of_scalar(
    alloc: Global,
    c: char,
    properties: Properties,
) -> Result<Option<BarringLine>, AllocError>
    ensures { IfOk result (λ line. line ≡ find (applies properties c)
        (BarringLine.OutsideProfile ∷ BarringLine.Exceptions ∷ BarringLine.Unassigned ∷ lines_of_properties)) }
{
    if is_left_out(c as u32, properties) {
        return Ok(Some(BarringLine::OutsideProfile));
    }
    if is_disallowed_exception(c as u32) {
        return Ok(Some(BarringLine::Exceptions));
    }
    if is_unassigned(c) {
        return Ok(Some(BarringLine::Unassigned));
    }
    Ok(line_of_properties(alloc, c, properties)?)
}

/// The first of the lines from Unstable on.
#[tactic(auto, unfolding(crate::specs::Barring::applies))]
fn line_of_properties(
    alloc: Global,
    c: char,
    properties: Properties,
) -> Result<Option<BarringLine>, AllocError>
    ensures { IfOk result (λ line. line ≡ find (applies properties c) lines_of_properties) }
{
    if is_unstable(alloc, c)? {
        return Ok(Some(BarringLine::Unstable));
    }
    Ok(line_by_look_up(c, properties))
}

/// The first of the lines after Unstable, which look-ups tell.
#[tactic(auto, unfolding(crate::specs::Barring::applies))]
fn line_by_look_up(c: char, properties: Properties) -> Option<BarringLine>
    ensures { result ≡ find (applies properties c) lines_by_look_up }
{
    if has_ignorable_property(c) {
        return Some(BarringLine::IgnorableProperties);
    }
    if is_in_ignorable_block(c as u32) {
        return Some(BarringLine::IgnorableBlocks);
    }
    if is_old_hangul_jamo(c as u32) {
        return Some(BarringLine::OldHangulJamo);
    }
    if is_letter_or_digit(GeneralCategory::for_char(c)) {
        return None;
    }
    Some(BarringLine::NoLetterDigit)
}

fn is_left_out(c: u32, properties: Properties) -> bool
    ensures { result ≡ is_left_out properties c }
{
    match properties {
        Properties::Profile => is_outside_profile(c),
        Properties::Unicode => false,
    }
}

#[tactic(auto, unfolding(crate::specs::Class::is_outside_profile, ucd_table::specs::Rows::in_ranges))]
fn is_outside_profile(c: u32) -> bool
    ensures { result ≡ is_outside_profile c }
{
    matches!(c, 0xFB1D..=0xFDFF | 0xFE70..=0xFEFF | 0x1_0800..=0x1_0FFF | 0x1_E800..=0x1_EFFF)
}

#[tactic(auto, unfolding(crate::specs::Class::is_disallowed_exception, ucd_table::specs::Rows::in_ranges))]
fn is_disallowed_exception(c: u32) -> bool
    ensures { result ≡ is_disallowed_exception c }
{
    matches!(c, 0x640 | 0x7FA | 0x302E..=0x302F | 0x3031..=0x3035 | 0x303B)
}

#[tactic(auto, unfolding(crate::specs::Class::is_unassigned))]
fn is_unassigned(c: char) -> bool
    ensures { result ≡ is_unassigned c }
{
    GeneralCategory::for_char(c) == GeneralCategory::Unassigned && !is_noncharacter_code_point(c)
}

#[tactic(auto, unfolding(crate::specs::Class::has_ignorable_property))]
fn has_ignorable_property(c: char) -> bool
    ensures { result ≡ has_ignorable_property c }
{
    is_default_ignorable_code_point(c) || is_white_space(c) || is_noncharacter_code_point(c)
}

#[tactic(auto, unfolding(crate::specs::Class::is_in_ignorable_block, ucd_table::specs::Rows::in_ranges))]
fn is_in_ignorable_block(c: u32) -> bool
    ensures { result ≡ is_in_ignorable_block c }
{
    matches!(c, 0x20D0..=0x20FF | 0x1_D100..=0x1_D1FF | 0x1_D200..=0x1_D24F)
}

#[tactic(auto, unfolding(crate::specs::Class::is_old_hangul_jamo, ucd_table::specs::Rows::in_ranges))]
fn is_old_hangul_jamo(c: u32) -> bool
    ensures { result ≡ is_old_hangul_jamo c }
{
    matches!(c, 0x1100..=0x11FF | 0xA960..=0xA97F | 0xD7B0..=0xD7FF)
}

#[tactic(auto, unfolding(crate::specs::Class::is_letter_or_digit))]
fn is_letter_or_digit(category: GeneralCategory) -> bool
    ensures { result ≡ is_letter_or_digit category }
{
    matches!(
        category,
        GeneralCategory::LowercaseLetter
            | GeneralCategory::UppercaseLetter
            | GeneralCategory::OtherLetter
            | GeneralCategory::DecimalNumber
            | GeneralCategory::ModifierLetter
            | GeneralCategory::NonspacingMark
            | GeneralCategory::SpacingMark
    )
}
