//! What begins with `xn--` where a U-label is wanted.
ghost use Rattle.std.specs.Prelude.{◌≡◌, ◌≤◌, length, IfOk};
ghost use Rattle.std.specs.Option.{option_map};
ghost use Rattle.idn_text.specs.Points.{AreScalarValues, utf8_of};
ghost use Rattle.idn_label.specs.Register.{confirmed};
ghost use Rattle.idn_cause.specs.CodedLabels.{answered_utf8, coded_label};

use crate::a_label::{code_of, is_confirmed};
use arrayvec::ArrayVec;
use idn_class::Properties;
use idn_label::decoded_code;
use idn_text::{MAX_LINE_LEN, put_points};
use std::alloc::{AllocError, Global};

/// The UTF-8 of a label that may be registered: at most 63 code points.
pub type LabelUtf8 = ArrayVec<u8, 252>;

/// The UTF-8 of what an A-label stands for, and `None` of what is no A-label. It takes memory.
#[cold]
#[tactic(auto, using(crate::proofs::CodedSteps::coded))]
pub fn coded_label(
    alloc: Global,
    given: &[u32],
    properties: Properties,
) -> Result<Option<LabelUtf8>, AllocError>
    requires { length given.now ≤ MAX_LINE_LEN }
    ensures { IfOk result (λ label. option_map (λ utf8. utf8.items) label ≡ coded_label properties given.now) }
{
    match decoded_code(alloc, code_of(given))? {
        Some(label) => confirmed_label(alloc, given, &label, properties),
        None => Ok(None),
    }
}

/// The UTF-8 of a label that may be registered, if its A-label is the one given.
#[tactic(auto, using(crate::proofs::CodedSteps::confirmed_as))]
fn confirmed_label(
    alloc: Global,
    given: &[u32],
    label: &[u32],
    properties: Properties,
) -> Result<Option<LabelUtf8>, AllocError>
    requires { AreScalarValues label.now }
    ensures { IfOk result (λ utf8. option_map (λ u. u.items) utf8 ≡
        answered_utf8 (confirmed properties given.now label.now)) }
{
    if is_confirmed(alloc, given, label, properties)? {
        Ok(Some(utf8_of(label)))
    } else {
        Ok(None)
    }
}

/// The UTF-8 of a short label.
fn utf8_of(label: &[u32]) -> LabelUtf8
    requires scalar_values { AreScalarValues label.now }
    requires short { length label.now ≤ 63 }
    ensures { result.items ≡ utf8_of label.now }
{
    let mut room = [0; 252];
    let end = put_points(label, &mut room, 0);
    let mut utf8 = ArrayVec::new();
    let Ok(()) = utf8.try_extend_from_slice(&room[..end]) else {
        unreachable!()
    };
    utf8
}
