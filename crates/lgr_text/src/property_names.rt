//! The names of properties of Unicode and of their values, in small letters and without `_`.
ghost use Rattle.std.specs.Prelude.{◌≡◌};
ghost use Rattle.lgr_text.specs.PropertyNames as names;

use ucd_bidi::{BidiClass, JoiningType};

/// The properties that a class may name (RFC 7940, section 6.2.3). The data here lack `Indic_Syllabic_Category`.
#[derive(Clone, Copy, PartialEq, Eq)]
pub enum Property {
    GeneralCategory,
    Script,
    CombiningClass,
    BidiClass,
    JoiningType,
    Deprecated,
}

/// The property of this name.
pub(crate) fn property_named(name: &[u8]) -> Option<Property>
    ensures { result ≡ names.property_named name.now }
{
    if is_either(b"gc", b"generalcategory", name) {
        return Some(Property::GeneralCategory);
    }
    if is_either(b"sc", b"script", name) {
        return Some(Property::Script);
    }
    if is_either(b"ccc", b"canonicalcombiningclass", name) {
        return Some(Property::CombiningClass);
    }
    if is_either(b"bc", b"bidiclass", name) {
        return Some(Property::BidiClass);
    }
    if is_either(b"jt", b"joiningtype", name) {
        return Some(Property::JoiningType);
    }
    if is_either(b"dep", b"deprecated", name) {
        return Some(Property::Deprecated);
    }
    None
}

/// Whether a name is the short or the long one of the same thing.
fn is_either(short: &[u8], long: &[u8], name: &[u8]) -> bool
    ensures { result ≡ names.is_either short.now long.now name.now }
{
    name == short || name == long
}

/// The class of this name, if characters of labels may have it.
pub(crate) fn bidi_named(name: &[u8]) -> Option<BidiClass>
    ensures { result ≡ names.bidi_named name.now }
{
    match name {
        b"l" => Some(BidiClass::LeftToRight),
        b"r" => Some(BidiClass::RightToLeft),
        b"al" => Some(BidiClass::ArabicLetter),
        b"en" => Some(BidiClass::EuropeanNumber),
        b"es" => Some(BidiClass::EuropeanSeparator),
        b"et" => Some(BidiClass::EuropeanTerminator),
        b"an" => Some(BidiClass::ArabicNumber),
        b"cs" => Some(BidiClass::CommonSeparator),
        b"nsm" => Some(BidiClass::NonspacingMark),
        b"bn" => Some(BidiClass::BoundaryNeutral),
        b"b" => Some(BidiClass::ParagraphSeparator),
        b"s" => Some(BidiClass::SegmentSeparator),
        b"ws" => Some(BidiClass::WhiteSpace),
        b"on" => Some(BidiClass::OtherNeutral),
        _ => None,
    }
}

/// The joining type of this name.
pub(crate) fn joining_named(name: &[u8]) -> Option<JoiningType>
    ensures { result ≡ names.joining_named name.now }
{
    if is_either(b"c", b"joincausing", name) {
        return Some(JoiningType::JoinCausing);
    }
    if is_either(b"d", b"dualjoining", name) {
        return Some(JoiningType::DualJoining);
    }
    if is_either(b"l", b"leftjoining", name) {
        return Some(JoiningType::LeftJoining);
    }
    if is_either(b"r", b"rightjoining", name) {
        return Some(JoiningType::RightJoining);
    }
    if is_either(b"t", b"transparent", name) {
        return Some(JoiningType::Transparent);
    }
    if is_either(b"u", b"nonjoining", name) {
        return Some(JoiningType::NonJoining);
    }
    None
}

/// Whether a code point has the property, where this is the name of the value.
pub(crate) fn truth_named(name: &[u8]) -> Option<bool>
    ensures { result ≡ names.truth_named name.now }
{
    if is_either(b"y", b"yes", name) || is_either(b"t", b"true", name) {
        return Some(true);
    }
    if is_either(b"n", b"no", name) || is_either(b"f", b"false", name) {
        return Some(false);
    }
    None
}
