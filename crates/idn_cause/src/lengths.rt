//! How long a label is that is too long.
ghost use Rattle.std.specs.Prelude.{◌≡◌, ◌≤◌, length, IfOk};
ghost use Rattle.idn_text.specs.Points.{AreScalarValues};
ghost use Rattle.idn_label.specs.ALabel.{a_label_of};
ghost use Rattle.idn_cause.specs.Causes.{length_at};

use crate::cause::Cause;
use idn_class::MAX_LABEL_LEN;
use idn_label::{is_all_ascii, short_chars};
use idn_punycode::ACE_PREFIX;
use idna::Errors;
use idna::punycode::encode;
use std::alloc::{AllocError, Global};

/// How long a label is that is too long: its code points, else the octets of its A-label.
pub(crate) fn length_at(alloc: Global, label: &[u32]) -> Result<Option<Cause>, AllocError>
    requires { AreScalarValues label.now }
    ensures { IfOk result (λ cause. cause ≡ length_at label.now) }
{
    if label.len() > MAX_LABEL_LEN {
        return Ok(Some(Cause::Points(label.len())));
    }
    let octets = a_label_len(alloc, label)?;
    if octets > MAX_LABEL_LEN {
        return Ok(Some(Cause::Octets(octets)));
    }
    Ok(None)
}

/// How many octets the A-label of a label of at most 63 code points has.
#[tactic(auto, unfolding(idn_label::specs::ALabel::a_label_of))]
fn a_label_len(alloc: Global, label: &[u32]) -> Result<usize, AllocError>
    requires short { length label.now ≤ 63 }
    requires scalar_values { AreScalarValues label.now }
    ensures { IfOk result (λ octets. octets ≡ length (a_label_of label.now)) }
{
    if is_all_ascii(label) {
        return Ok(label.len());
    }
    match encode(alloc, &short_chars(label)) {
        Ok(code) => Ok(ACE_PREFIX.len() + code.len()),
        Err(Errors::Invalid) => unreachable!(),
        Err(Errors::OutOfMemory) => Err(AllocError),
    }
}
