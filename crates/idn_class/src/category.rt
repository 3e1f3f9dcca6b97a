//! Properties of numbers, by the kit's tables: the General_Category, the Script, and those that the rules of the
//! joiners and the Bidi rule ask for.
ghost use Rattle.std.specs.Prelude.{◌≡◌, ◌<◌};
ghost use Rattle.unicode.specs.GeneralCategory.{general_category};
ghost use Rattle.unicode.specs.Script.{script};
ghost use Rattle.ucd_bidi.specs.BidiClass.{bidi_class as unicode_bidi_class};
ghost use Rattle.ucd_bidi.specs.JoiningType.{joining_type as unicode_joining_type};
ghost use Rattle.ucd_normal.specs.CanonicalCombiningClass.{canonical_combining_class};

use crate::facts::END;
use ucd_bidi::{BidiClass, JoiningType};
use unicode::normal::canonical_combining_class;
use unicode::properties::{GeneralCategory, Script};

/// General_Category of a number, also of one that is no character.
pub(crate) fn category_of(c: u32) -> GeneralCategory
    ensures { result ≡ general_category c }
{
    match char::from_u32(c) {
        Some(c) => GeneralCategory::for_char(c),
        None if c < END => GeneralCategory::Surrogate,
        None => GeneralCategory::Unassigned,
    }
}

/// Script of a number, also of one that is no character.
pub(crate) fn script_of(c: u32) -> Script
    ensures { result ≡ script c }
{
    match char::from_u32(c) {
        Some(c) => Script::for_char(c),
        None => Script::Unknown,
    }
}

/// Bidi_Class of a number by Unicode, also of one that is no character.
pub(crate) fn bidi_class_of(c: u32) -> BidiClass
    ensures { result ≡ unicode_bidi_class c }
{
    match char::from_u32(c) {
        Some(c) => BidiClass::for_char(c),
        None => BidiClass::LeftToRight,
    }
}

/// Joining_Type of a number by Unicode, also of one that is no character.
pub(crate) fn joining_type_of(c: u32) -> JoiningType
    ensures { result ≡ unicode_joining_type c }
{
    match char::from_u32(c) {
        Some(c) => JoiningType::for_char(c),
        None => JoiningType::NonJoining,
    }
}

/// Canonical_Combining_Class of a number, also of one that is no character.
pub(crate) fn combining_class_of(c: u32) -> u8
    ensures { result ≡ canonical_combining_class c }
{
    match char::from_u32(c) {
        Some(c) => canonical_combining_class(c),
        None => 0,
    }
}
