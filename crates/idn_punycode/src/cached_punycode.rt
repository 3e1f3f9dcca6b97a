//! The Punycode of one label after another.
ghost use Rattle.std.specs.Prelude.{◌≡◌, ◌<◌, ◌≤◌, ℕ, List, []};
ghost use Rattle.std.specs.Prelude.{◌++◌, codes, min, length, take, OnOk, OnErr};
ghost use Rattle.idna.specs.Punycode.{encode};
ghost use Rattle.idn_punycode.specs.Cached.{IsTakenApart};

use crate::cached_digits::CachedDigits;
use crate::encoding::push_parts;
use crate::key::Parts;
use crate::parameters::ACE_PREFIX;
use arrayvec::{ArrayString, CapacityError};
use std::marker::Model;

/// A text, as a rule the Punycode of the last label after the prefix of A-labels. Of the next label what both share at
/// their start is not taken apart again; and where no code point is of ASCII, the digits of the first keys that both
/// have stay. Contracts see the text, and what the first code points are taken apart into.
#[derive(Drop)]
pub struct CachedPunycode {
    parts: Parts,
    /// How many code points are taken apart.
    apart: usize,
    digits: CachedDigits,
}

impl Model for CachedPunycode {
    ghost use Rattle.std.specs.Prelude.{◌≤◌};
    ghost use Rattle.idn_punycode.specs.Cached.{Cached};

    ghost Value = { Cached };

    ghost view = { λ cached. record { text = cached.digits.text; parts = cached.parts; apart = cached.apart } };

    ghost invariant = { λ cached. cached.apart ≤ 63 };
}

impl CachedPunycode {
    /// No text, and no label taken apart.
    pub fn new() -> CachedPunycode
        ensures text { result.text ≡ [] }
        ensures apart { (label : List ℕ) → IsTakenApart label result }
    {
        CachedPunycode {
            parts: Parts::new(),
            apart: 0,
            digits: CachedDigits::new(),
        }
    }

    /// The text.
    pub fn text(&self) -> &ArrayString<63>
        ensures { result.now.bytes ≡ self.now.text }
    {
        self.digits.text()
    }

    /// Puts another text in place of the one that is held.
    pub fn put(&mut self, text: ArrayString<63>)
        ensures { self.new ≡ record self.old { text = text.bytes } }
    {
        self.digits.put(text);
    }

    /// Goes over to labels that begin with the same `count` code points.
    #[inline]
    pub fn keep(&mut self, count: usize)
        ensures text { self.new.text ≡ self.old.text }
        ensures count { self.new.apart ≡ min self.old.apart count }
        ensures apart { (before label : List ℕ) → IsTakenApart before self.old →
            take count before ≡ take count label → IsTakenApart label self.new }
    {
        if count < self.apart {
            self.parts.keep_before(count);
            self.apart = count;
        }
    }

    /// Puts the Punycode of a label of at most 63 code points in place of the text, as `Encoder` appends it to the
    /// prefix of A-labels. What is taken apart must be of this label. Where it does not fit, nothing is said of the
    /// text.
    pub fn encode(&mut self, label: &[u32]) -> Result<(), CapacityError>
        requires few { length label.now ≤ 63 }
        requires begun { IsTakenApart label.now self.old }
        ensures apart { IsTakenApart label.now self.new }
        ensures ok { OnOk result (self.new.text ≡ codes "xn--" ++ encode label.now) }
        ensures short { OnOk result (length (codes "xn--" ++ encode label.now) ≤ 63) }
        ensures too_long { OnErr result (63 < length (codes "xn--" ++ encode label.now)) }
    {
        self.parts.lengthen(label, self.apart);
        self.apart = label.len();
        if self.parts.places() == 0 {
            return self.digits.write(self.parts.keys());
        }
        let mut text = ArrayString::new();
        text.push_str(ACE_PREFIX);
        push_parts(label, &self.parts, &mut text)?;
        self.digits.put(text);
        Ok(())
    }
}
