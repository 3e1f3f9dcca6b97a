//! Whether a label is in Normalization Form C (RFC 5891 section 4.2.1).
ghost use Rattle.std.specs.Prelude.{◌≡◌, ◌≢◌, ◌≤◌, length, IfOk, IsOk};
ghost use Rattle.ucd_normal.specs.declared.forms.Form.TheVariants.{Nfc};
ghost use Rattle.ucd_normal.specs.declared.forms.QuickCheck.TheVariants.{Maybe};
ghost use Rattle.unicode_normalization.specs.Forms.{is_nfc};
ghost use Rattle.unicode_normalization.specs.QuickCheck.{quick_check_text};
ghost use Rattle.idn_text.specs.Points.{AreScalarValues};
ghost use Rattle.idn_class.specs.Facts.{AreFactsOf};
ghost use Rattle.idn_label.specs.Memory.{NeedsNoMemory};

use crate::code_points::{chars_of, short_chars};
use idn_class::{Fact, Facts, MAX_LABEL_LEN};
use std::alloc::{AllocError, Global};
use unicode_normalization::IsNormalized;
use unicode_normalization::slice::{extend_nfc, is_nfc_quick};

/// Whether a label is in Normalization Form C. Where a code point may compose, it takes memory for a label of more than
/// 63 code points, and where the quick check cannot decide.
#[inline(always)]
#[tactic(auto, using(crate::proofs::FactTests::fact_tests))]
pub(crate) fn is_nfc(alloc: Global, label: &[u32], facts: Facts) -> Result<bool, AllocError>
    requires scalars { AreScalarValues label.now }
    requires facts { AreFactsOf facts label.now }
    ensures answer { IfOk result (λ answer. answer ≡ is_nfc label.now) }
    ensures no_memory { NeedsNoMemory label.now → IsOk result }
{
    if !facts.contains(Fact::MayCompose) {
        return Ok(true);
    }
    if label.len() <= MAX_LABEL_LEN {
        is_nfc_short(alloc, label)
    } else {
        is_nfc_text(alloc, &chars_of(alloc, label)?)
    }
}

/// Whether a label of at most 63 code points is in Normalization Form C. Not inlined, so that labels which need no such
/// test need no stack space for its characters.
#[inline(never)]
fn is_nfc_short(alloc: Global, label: &[u32]) -> Result<bool, AllocError>
    requires short { length label.now ≤ MAX_LABEL_LEN }
    requires scalars { AreScalarValues label.now }
    ensures answer { IfOk result (λ answer. answer ≡ is_nfc label.now) }
    ensures told { quick_check_text Nfc label.now ≢ Maybe → IsOk result }
{
    is_nfc_text(alloc, &short_chars(label))
}

/// Whether a text is in Normalization Form C.
fn is_nfc_text(alloc: Global, text: &[char]) -> Result<bool, AllocError>
    ensures answer { IfOk result (λ answer. answer ≡ is_nfc text.now) }
    ensures told { quick_check_text Nfc text.now ≢ Maybe → IsOk result }
{
    match is_nfc_quick(text) {
        IsNormalized::Yes => Ok(true),
        IsNormalized::No => Ok(false),
        IsNormalized::Maybe => {
            let mut composed = Vec::new(alloc);
            extend_nfc(&mut composed, text)?;
            Ok(composed.as_slice() == text)
        }
    }
}
