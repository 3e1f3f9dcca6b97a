//! A-labels.
ghost use Rattle.std.specs.Prelude.{◌≡◌, ◌≤◌, length, true, false, IfSome};
ghost use Rattle.idna.specs.Validity.{is_all_ascii};
ghost use Rattle.idn_label.specs.ALabel.{a_label_of};

use crate::unit::Unit;
use arrayvec::ArrayString;
use idn_class::MAX_LABEL_LEN;
use idn_punycode::{ACE_PREFIX, Encoder};

/// An A-label of at most 63 octets. A label in ASCII is its own A-label.
pub type ALabel = ArrayString<MAX_LABEL_LEN>;

/// Encodes labels, each into the same text. What is left of one label says nothing of the next.
#[derive(Drop)]
pub(crate) struct ALabelEncoder {
    encoder: Encoder,
    a_label: ALabel,
}

impl ALabelEncoder {
    pub(crate) fn new() -> ALabelEncoder {
        ALabelEncoder {
            encoder: Encoder::new(),
            a_label: ALabel::new(),
        }
    }

    /// The A-label of a label that is not all ASCII, if it has at most 63 octets.
    pub(crate) fn encode(&mut self, label: &[char]) -> Option<&[u8]>
        requires few { length label.now ≤ 63 }
        requires other { is_all_ascii label.now ≡ false }
        ensures { IfSome result (λ answer. answer.now ≡ a_label_of label.now) }
    {
        self.a_label.clear();
        self.a_label.push_str(ACE_PREFIX);
        self.encoder.push_encoded(label, &mut self.a_label).ok()?;
        Some(self.a_label.as_bytes())
    }
}

/// A label in ASCII as text. There must be space for it.
pub fn ascii_text<U: Unit, const N: usize>(label: &[U]) -> ArrayString<N>
    requires short { length label.now ≤ N }
    requires ascii { is_all_ascii (U.codes label.now) ≡ true }
    ensures { result.bytes ≡ U.codes label.now }
{
    let mut text = ArrayString::new();
    for unit in label {
        text.push(char::from(unit.code_point() as u8));
    }
    text
}
