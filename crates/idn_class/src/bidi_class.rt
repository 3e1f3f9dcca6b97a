//! Bidi_Class: by the list of this profile, or by Unicode.
ghost use Rattle.std.specs.Prelude.{◌≡◌};
ghost use Rattle.idn_class.specs.BidiClass.{is_boundary_neutral, is_european_separator, is_european_number};
ghost use Rattle.idn_class.specs.BidiClass.{is_arabic_number, is_nonspacing, is_right_to_left, is_arabic_letter};
ghost use Rattle.idn_class.specs.BidiClass.{profile_bidi_class, bidi_class, named_class, standard_bidi_class};

use crate::category::{bidi_class_of, category_of};
use crate::facts::{Fact, Facts};
use crate::properties::Properties;
use ucd_bidi::BidiClass as UnicodeBidiClass;
use unicode::properties::GeneralCategory;

/// Bidi_Class, with the values that the Bidi rule names. The list of the profile gives no code point ET, CS,
/// ON or `Other`.
#[derive(Clone, Copy, PartialEq, Eq)]
pub enum BidiClass {
    /// Left-to-right.
    L,
    /// Right-to-left.
    R,
    /// Right-to-left Arabic letter.
    AL,
    /// Arabic number.
    AN,
    /// European number.
    EN,
    /// European number separator.
    ES,
    /// Common number separator.
    CS,
    /// European number terminator.
    ET,
    /// Other neutral.
    ON,
    /// Boundary neutral.
    BN,
    /// Nonspacing mark.
    NSM,
    /// A class that the Bidi rule does not name, and so allows in no label.
    Other,
}

impl BidiClass {
    /// Bidi_Class of a code point, by these properties.
    pub fn of(c: u32, properties: Properties) -> BidiClass
        ensures { result ≡ bidi_class properties c }
    {
        bidi_class(c, properties)
    }
}

/// Bidi_Class of a code point.
pub(crate) fn bidi_class(c: u32, properties: Properties) -> BidiClass
    ensures { result ≡ bidi_class properties c }
{
    match properties {
        Properties::Profile => listed_class(c),
        Properties::Unicode => standard_class(c),
    }
}

/// Bidi_Class of a code point by Unicode.
#[tactic(auto, unfolding(crate::specs::BidiClass::standard_bidi_class))]
pub(crate) fn standard_class(c: u32) -> BidiClass
    ensures { result ≡ standard_bidi_class c }
{
    named_class(bidi_class_of(c))
}

/// A class as the Bidi rule names it.
fn named_class(class: UnicodeBidiClass) -> BidiClass
    ensures { result ≡ named_class class }
{
    match class {
        UnicodeBidiClass::LeftToRight => BidiClass::L,
        UnicodeBidiClass::RightToLeft => BidiClass::R,
        UnicodeBidiClass::ArabicLetter => BidiClass::AL,
        UnicodeBidiClass::ArabicNumber => BidiClass::AN,
        UnicodeBidiClass::EuropeanNumber => BidiClass::EN,
        UnicodeBidiClass::EuropeanSeparator => BidiClass::ES,
        UnicodeBidiClass::CommonSeparator => BidiClass::CS,
        UnicodeBidiClass::EuropeanTerminator => BidiClass::ET,
        UnicodeBidiClass::OtherNeutral => BidiClass::ON,
        UnicodeBidiClass::BoundaryNeutral => BidiClass::BN,
        UnicodeBidiClass::NonspacingMark => BidiClass::NSM,
        _ => BidiClass::Other,
    }
}

/// Bidi_Class of a code point by the list of this profile.
#[tactic(auto, unfolding(crate::specs::BidiClass::profile_bidi_class))]
pub(crate) fn listed_class(c: u32) -> BidiClass
    ensures { result ≡ profile_bidi_class c }
{
    if is_boundary_neutral(c) {
        BidiClass::BN
    } else if is_european_separator(c) {
        BidiClass::ES
    } else if is_european_number(c) {
        BidiClass::EN
    } else if is_arabic_number(c) {
        BidiClass::AN
    } else if is_nonspacing(c) {
        BidiClass::NSM
    } else if is_right_to_left(c) {
        BidiClass::R
    } else if is_arabic_letter(c) {
        BidiClass::AL
    } else {
        BidiClass::L
    }
}

#[tactic(auto, unfolding(crate::specs::BidiClass::is_boundary_neutral))]
fn is_boundary_neutral(c: u32) -> bool
    ensures { result ≡ is_boundary_neutral c }
{
    matches!(c, 0x200C..=0x200D)
}

#[tactic(auto, unfolding(crate::specs::BidiClass::is_european_separator))]
fn is_european_separator(c: u32) -> bool
    ensures { result ≡ is_european_separator c }
{
    matches!(c, 0x2D)
}

#[tactic(auto, unfolding(crate::specs::BidiClass::is_european_number))]
pub(crate) fn is_european_number(c: u32) -> bool
    ensures { result ≡ is_european_number c }
{
    matches!(c, 0x30..=0x39 | 0x6F0..=0x6F9)
}

#[tactic(auto, unfolding(crate::specs::BidiClass::is_arabic_number))]
pub(crate) fn is_arabic_number(c: u32) -> bool
    ensures { result ≡ is_arabic_number c }
{
    matches!(c, 0x660..=0x669)
}

#[tactic(auto, unfolding(crate::specs::BidiClass::is_nonspacing))]
pub(crate) fn is_nonspacing(c: u32) -> bool
    ensures { result ≡ is_nonspacing c }
{
    // Most code points are not marks, and one look-up says so.
    if !Facts::of(c).contains(Fact::Mark) {
        return false;
    }
    matches!(
        category_of(c),
        GeneralCategory::NonspacingMark | GeneralCategory::EnclosingMark
    )
}

#[tactic(auto, unfolding(crate::specs::BidiClass::is_right_to_left))]
fn is_right_to_left(c: u32) -> bool
    ensures { result ≡ is_right_to_left c }
{
    matches!(c, 0x590..=0x5FF | 0x7C0..=0x85F)
}

#[tactic(auto, unfolding(crate::specs::BidiClass::is_arabic_letter))]
fn is_arabic_letter(c: u32) -> bool
    ensures { result ≡ is_arabic_letter c }
{
    matches!(c, 0x600..=0x7BF | 0x860..=0x8FF)
}
