//! The code points of a canonical combining class.
ghost use Rattle.std.specs.Prelude.{◌≡◌, ◌≤◌, ◌==◌, IfOk};
ghost use Rattle.lgr_text.specs.Properties as terms;
ghost use Rattle.lgr_text.specs.inner.PropertySets.{HasPassing};
ghost use Rattle.ucd_normal.specs.CanonicalCombiningClass.{canonical_combining_class as combining_class};

use crate::code_points::{CodePoints, LAST, append};
use crate::values::number_of;
use label_patterns::Span;
use std::alloc::{AllocError, Global};
use ucd_normal::canonical_combining_class;

/// The greatest combining class that the Unicode Standard allows (section 3.11).
const LAST_CLASS: u32 = 254;

/// The class that one to three digits write, at most 254.
pub(crate) fn class_named(value: &[u8]) -> Option<u32>
    ensures { result ≡ terms.class_named value.now }
{
    if value.len() > 3 {
        return None;
    }
    match number_of(value) {
        Some(class) if class <= LAST_CLASS => Some(class),
        _ => None,
    }
}

/// The code points of a class.
pub(crate) fn with_class(alloc: Global, class: u32) -> Result<CodePoints, AllocError>
    ensures { IfOk result (HasPassing (λ c. combining_class c == class)) }
{
    let mut spans = Vec::new(alloc);
    for point in 0..LAST + 1 {
        if has_class(point, class) {
            append(
                &mut spans,
                Span {
                    first: point,
                    last: point,
                },
            )?;
        }
    }
    CodePoints::of_spans(alloc, &spans)
}

/// Whether a code point is of a class: those that are no characters are of the class 0.
fn has_class(point: u32, class: u32) -> bool
    requires { point ≤ 0x10FFFF }
    ensures { result ≡ (combining_class point == class) }
{
    match char::from_u32(point) {
        Some(c) => u32::from(canonical_combining_class(c)) == class,
        None => 0 == class,
    }
}
