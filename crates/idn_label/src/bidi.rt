//! The Bidi rule (RFC 5893 section 2), as UTS 46 applies it to each label of a name that has a right-to-left label.
ghost use Rattle.std.specs.Prelude.{◌≡◌, map, if◌then◌else◌};
ghost use Rattle.ucd_bidi.specs.BidiClass.{bidi_class, bidi_class_eq};
ghost use Rattle.ucd_bidi.specs.declared.BidiClass.TheVariants.{LeftToRight};
ghost use Rattle.idna.specs.BidiRule.{is_rtl, is_allowed_in_both, passes_bidi_rule};
ghost use Rattle.idn_label.specs.inner.BidiNames.{passes_by_direction};

use ucd_bidi::BidiClass;

/// Whether a label meets the rule. The empty label does.
pub(crate) fn passes_bidi_rule(label: &[char]) -> bool
    ensures { result ≡ passes_bidi_rule label.now }
{
    let [first, ..] = label else {
        return true;
    };
    // Condition 1.
    match BidiClass::for_char(*first) {
        BidiClass::LeftToRight => passes_by_direction(label, false),
        BidiClass::RightToLeft | BidiClass::ArabicLetter => passes_by_direction(label, true),
        _ => false,
    }
}

/// Conditions 2 to 4, of a label that begins right-to-left, or 5 and 6 of another.
fn passes_by_direction(label: &[char], rtl: bool) -> bool
    ensures { result ≡ passes_by_direction rtl (map bidi_class label.now) }
{
    // The class of the last code point that is no nonspacing mark.
    let mut end = BidiClass::NonspacingMark;
    let mut has_european = false;
    let mut has_arabic = false;
    for c in label {
        let class = BidiClass::for_char(*c);
        if !has_direction(class, rtl) && !is_allowed_in_both(class) {
            return false;
        }
        if !is_class(class, BidiClass::NonspacingMark) {
            end = class;
        }
        has_european |= is_class(class, BidiClass::EuropeanNumber);
        // Only a right-to-left label may have one.
        has_arabic |= is_class(class, BidiClass::ArabicNumber);
    }
    let ends = has_direction(end, rtl) | is_class(end, BidiClass::EuropeanNumber);
    ends & !(has_european & has_arabic)
}

/// Whether a class is one of right-to-left labels alone, or the one of left-to-right labels alone.
#[inline]
fn has_direction(class: BidiClass, rtl: bool) -> bool
    ensures { result ≡ (if rtl then is_rtl class else bidi_class_eq class LeftToRight) }
{
    match class {
        BidiClass::RightToLeft | BidiClass::ArabicLetter | BidiClass::ArabicNumber => rtl,
        BidiClass::LeftToRight => !rtl,
        _ => false,
    }
}

/// Whether both left-to-right and right-to-left labels may have the class.
#[inline]
fn is_allowed_in_both(class: BidiClass) -> bool
    ensures { result ≡ is_allowed_in_both class }
{
    matches!(
        class,
        BidiClass::EuropeanNumber
            | BidiClass::EuropeanSeparator
            | BidiClass::CommonSeparator
            | BidiClass::EuropeanTerminator
            | BidiClass::OtherNeutral
            | BidiClass::BoundaryNeutral
            | BidiClass::NonspacingMark
    )
}

#[inline]
fn is_class(class: BidiClass, other: BidiClass) -> bool
    ensures { result ≡ bidi_class_eq class other }
{
    class.number() == other.number()
}
