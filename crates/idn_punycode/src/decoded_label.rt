//! What Punycode stands for.
ghost use Rattle.std.specs.Prelude.{◌≡◌, ◌≤◌, [], length, None, Some, IfOk, OnOk, OnErr};
ghost use Rattle.idna.specs.Punycode.{decode};
ghost use Rattle.idn_class.specs.Facts.{AreFactsOf};

use crate::decoding::{ROOM, decode_into};
use crate::unit::Unit;
use idn_class::Facts;
use std::marker::Model;

/// That code points are not Punycode of scalar values (RFC 3492).
#[derive(Clone, Copy, PartialEq, Eq)]
pub struct NotPunycode;

/// A label of at most 63 code points that was decoded. Contracts see the label.
#[derive(Drop)]
pub struct DecodedLabel {
    /// Its code points. What an earlier label or the decoding left after them stays there.
    points: [u32; ROOM],
    len: usize,
}

impl Model for DecodedLabel {
    ghost use Rattle.std.specs.Prelude.{◌≤◌, ℕ, List, take};

    ghost Value = { List ℕ };

    ghost view = { λ label. take label.len label.points };

    ghost invariant = { λ label. label.len ≤ 63 };
}

impl DecodedLabel {
    /// The empty label.
    pub fn new() -> DecodedLabel
        ensures { result ≡ [] }
    {
        DecodedLabel {
            points: [0; ROOM],
            len: 0,
        }
    }

    /// The code points.
    #[inline]
    pub fn as_slice(&self) -> &[u32]
        ensures value { result.now ≡ self.now }
        ensures short { length result.now ≤ 63 }
    {
        &self.points[..self.len]
    }

    /// Puts what at most 63 code points of Punycode stand for (RFC 3492 section 6.2) in place of the label, and tells
    /// the facts of its code points. Capital letters are digits too. Where the code is not Punycode of scalar values,
    /// as where a code point of it is past ASCII, what label is then left says nothing.
    #[inline]
    pub fn decode<U: Unit>(&mut self, code: &[U]) -> Result<Facts, NotPunycode>
        requires { length code.now ≤ 63 }
        ensures decoded { OnOk result (decode (U.codes code.now) ≡ Some self.new) }
        ensures refused { OnErr result (decode (U.codes code.now) ≡ None) }
        ensures facts { IfOk result (λ facts. AreFactsOf facts self.new) }
        ensures short { OnOk result (length self.new ≤ length code.now) }
    {
        let (len, facts) = decode_into(code, &mut self.points).ok_or(NotPunycode)?;
        self.len = len;
        Ok(facts)
    }
}
