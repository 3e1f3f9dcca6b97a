//! Joining_Type and the viramas, by the lists of this profile or by Unicode. The context rules of the joiners ask for
//! them.
ghost use Rattle.std.specs.Prelude.{◌≡◌};
ghost use Rattle.idn_class.specs.JoiningType.{is_profile_virama, is_right_joining, is_dual_joining};
ghost use Rattle.idn_class.specs.JoiningType.{is_transparent, profile_joining_type, joining_type};
ghost use Rattle.idn_class.specs.JoiningType.{is_virama, is_standard_virama, named_type, standard_joining_type};

use crate::category::{category_of, combining_class_of, joining_type_of};
use crate::properties::Properties;
use ucd_bidi::JoiningType as UnicodeJoiningType;
use unicode::properties::GeneralCategory;

/// Joining_Type. By the list of this profile letters join inside the Arabic block alone.
#[derive(Clone, Copy, PartialEq, Eq)]
pub enum JoiningType {
    /// R: joins with the code point before it.
    Right,
    /// L: joins with the code point after it.
    Left,
    /// D: joins with both.
    Dual,
    /// T: is passed over.
    Transparent,
    /// U: joins with neither.
    NonJoining,
}

/// Joining_Type of a code point.
pub(crate) fn joining_type(c: u32, properties: Properties) -> JoiningType
    ensures { result ≡ joining_type properties c }
{
    match properties {
        Properties::Profile => listed_type(c),
        Properties::Unicode => standard_type(c),
    }
}

/// Joining_Type of a code point by Unicode.
#[tactic(auto, unfolding(crate::specs::JoiningType::standard_joining_type))]
fn standard_type(c: u32) -> JoiningType
    ensures { result ≡ standard_joining_type c }
{
    named_type(joining_type_of(c))
}

/// A type as the rules of the joiners name it.
fn named_type(joining: UnicodeJoiningType) -> JoiningType
    ensures { result ≡ named_type joining }
{
    match joining {
        UnicodeJoiningType::RightJoining => JoiningType::Right,
        UnicodeJoiningType::LeftJoining => JoiningType::Left,
        UnicodeJoiningType::DualJoining => JoiningType::Dual,
        UnicodeJoiningType::Transparent => JoiningType::Transparent,
        UnicodeJoiningType::JoinCausing | UnicodeJoiningType::NonJoining => JoiningType::NonJoining,
    }
}

/// Joining_Type of a code point by the list of this profile.
#[tactic(auto, unfolding(crate::specs::JoiningType::profile_joining_type))]
fn listed_type(c: u32) -> JoiningType
    ensures { result ≡ profile_joining_type c }
{
    if is_right_joining(c) {
        JoiningType::Right
    } else if is_dual_joining(c) {
        JoiningType::Dual
    } else if is_transparent(c) {
        JoiningType::Transparent
    } else {
        JoiningType::NonJoining
    }
}

/// Whether a code point is a virama.
pub(crate) fn is_virama(c: u32, properties: Properties) -> bool
    ensures { result ≡ is_virama properties c }
{
    match properties {
        Properties::Profile => is_listed_virama(c),
        Properties::Unicode => is_standard_virama(c),
    }
}

/// Whether the Canonical_Combining_Class of a code point is Virama.
#[tactic(auto, unfolding(crate::specs::JoiningType::is_standard_virama))]
fn is_standard_virama(c: u32) -> bool
    ensures { result ≡ is_standard_virama c }
{
    combining_class_of(c) == 9
}

/// Whether a code point is one of the ten Indic viramas of this profile.
#[tactic(auto, unfolding(crate::specs::JoiningType::is_profile_virama))]
fn is_listed_virama(c: u32) -> bool
    ensures { result ≡ is_profile_virama c }
{
    matches!(
        c,
        0x94D | 0x9CD | 0xA4D | 0xACD | 0xB4D | 0xBCD | 0xC4D | 0xCCD | 0xD4D | 0xDCA
    )
}

#[tactic(auto, unfolding(crate::specs::JoiningType::is_right_joining))]
fn is_right_joining(c: u32) -> bool
    ensures { result ≡ is_right_joining c }
{
    matches!(
        c,
        0x622..=0x625 | 0x627 | 0x629 | 0x62F..=0x632 | 0x648 | 0x671..=0x673 | 0x688..=0x699
            | 0x6C0 | 0x6C3..=0x6CB | 0x6CD | 0x6CF | 0x6D2..=0x6D3 | 0x6D5 | 0x6EE..=0x6EF
    )
}

#[tactic(auto, unfolding(crate::specs::JoiningType::is_dual_joining))]
fn is_dual_joining(c: u32) -> bool
    ensures { result ≡ is_dual_joining c }
{
    matches!(
        c,
        0x620 | 0x626 | 0x628 | 0x62A..=0x62E | 0x633..=0x63F | 0x641..=0x647 | 0x649..=0x64A
            | 0x66E..=0x66F | 0x679..=0x687 | 0x69A..=0x6BF | 0x6C1..=0x6C2 | 0x6CC | 0x6CE
            | 0x6D0..=0x6D1 | 0x6FA..=0x6FC | 0x6FF
    )
}

#[tactic(auto, unfolding(crate::specs::JoiningType::is_transparent))]
fn is_transparent(c: u32) -> bool
    ensures { result ≡ is_transparent c }
{
    matches!(category_of(c), GeneralCategory::NonspacingMark)
}
