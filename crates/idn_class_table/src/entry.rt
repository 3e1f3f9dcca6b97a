//! The entry of a code point in the first table, that of the classes.
ghost use Rattle.std.specs.Prelude.{◌<◌};

use unicode::case::full_folding;
use unicode::properties::{
    GeneralCategory, is_default_ignorable_code_point, is_noncharacter_code_point, is_white_space,
};
use unicode_normalization::IsNormalized;
use unicode_normalization::slice::{is_nfkc_quick, is_nfkd_quick};

/// What the table holds for a code point.
#[derive(Clone, Copy, PartialEq, Eq)]
pub(crate) enum Entry {
    Disallowed,
    Pvalid,
    Contextj,
    Contexto,
    Unassigned,
    /// PVALID if the code point is stable, else DISALLOWED.
    LeftOpen,
}

impl Entry {
    /// The number that stands for it in the table.
    fn number(self) -> u32
        ensures { result < 6 }
    {
        match self {
            Entry::Disallowed => 0,
            Entry::Pvalid => 1,
            Entry::Contextj => 2,
            Entry::Contexto => 3,
            Entry::Unassigned => 4,
            Entry::LeftOpen => 5,
        }
    }
}

/// The number in the table for a code point: that of its entry by RFC 5892, and 6 more if the profile leaves it out.
pub(crate) fn number_of(c: u32) -> u32
    ensures { result < 12 }
{
    let number = standard_entry_of(c).number();
    if is_outside_profile(c) {
        6 + number
    } else {
        number
    }
}

/// The entry of a code point by the profile.
pub(crate) fn entry_of(c: u32) -> Entry {
    if is_outside_profile(c) {
        return Entry::Disallowed;
    }
    standard_entry_of(c)
}

fn is_outside_profile(c: u32) -> bool {
    matches!(
        c,
        0xFB1D..=0xFDFF | 0xFE70..=0xFEFF | 0x1_0800..=0x1_0FFF | 0x1_E800..=0x1_EFFF
    )
}

/// The entry of a code point: the lines of RFC 5892, section 3.
fn standard_entry_of(c: u32) -> Entry {
    let Some(point) = char::from_u32(c) else {
        return Entry::Disallowed;
    };
    match c {
        0xDF | 0x3C2 | 0x6FD..=0x6FE | 0xF0B | 0x3007 => Entry::Pvalid,
        0xB7 | 0x375 | 0x5F3..=0x5F4 | 0x30FB | 0x660..=0x669 | 0x6F0..=0x6F9 => Entry::Contexto,
        0x640 | 0x7FA | 0x302E..=0x302F | 0x3031..=0x3035 | 0x303B => Entry::Disallowed,
        _ if is_unassigned(point) => Entry::Unassigned,
        0x2D | 0x30..=0x39 | 0x61..=0x7A => Entry::Pvalid,
        0x200C..=0x200D => Entry::Contextj,
        // IgnorableBlocks and OldHangulJamo
        0x20D0..=0x20FF | 0x1_D100..=0x1_D1FF | 0x1_D200..=0x1_D24F => Entry::Disallowed,
        0x1100..=0x11FF | 0xA960..=0xA97F | 0xD7B0..=0xD7FF => Entry::Disallowed,
        _ if has_ignorable_property(point) => Entry::Disallowed,
        _ if is_letter_or_digit(point) => stability_of(point),
        _ => Entry::Disallowed,
    }
}

fn is_unassigned(c: char) -> bool {
    GeneralCategory::for_char(c) == GeneralCategory::Unassigned && !is_noncharacter_code_point(c)
}

fn has_ignorable_property(c: char) -> bool {
    is_default_ignorable_code_point(c) || is_white_space(c) || is_noncharacter_code_point(c)
}

fn is_letter_or_digit(c: char) -> bool {
    matches!(
        GeneralCategory::for_char(c),
        GeneralCategory::LowercaseLetter
            | GeneralCategory::UppercaseLetter
            | GeneralCategory::OtherLetter
            | GeneralCategory::DecimalNumber
            | GeneralCategory::ModifierLetter
            | GeneralCategory::NonspacingMark
            | GeneralCategory::SpacingMark
    )
}

/// The entry of a letter, mark or digit: whether NFKC changes it, and then whether case folding
/// does. What folds to one other code point is unstable, since NFKC keeps that one.
fn stability_of(c: char) -> Entry {
    let point = [c];
    let is_kept = match is_nfkc_quick(&point) {
        IsNormalized::No => return Entry::Disallowed,
        IsNormalized::Yes => true,
        IsNormalized::Maybe => is_nfkd_quick(&point) == IsNormalized::Yes,
    };
    match full_folding(c).len() {
        _ if !is_kept => Entry::LeftOpen,
        0 => Entry::Pvalid,
        1 => Entry::Disallowed,
        _ => Entry::LeftOpen,
    }
}
