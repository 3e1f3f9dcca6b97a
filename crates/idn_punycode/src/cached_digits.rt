//! The digits of a label, of which the next one may keep the first.
ghost use Rattle.std.specs.Prelude.{◌≡◌, ◌<◌, ◌≤◌, [], ◌++◌, codes, length, take, OnOk, OnErr};
ghost use Rattle.idn_punycode.specs.inner.Digits.{AreWritable, all_digits, after_all};

use crate::encoding::Progress;
use crate::parameters::ACE_PREFIX;
use arrayvec::{ArrayString, CapacityError};
use idn_class::MAX_LABEL_LEN;
use std::marker::Model;

/// A text, as a rule the digits of a label without a code point of ASCII after the prefix of A-labels, with what it
/// takes to go on after each key. Where the first keys of the next label are the same, so are their digits. Contracts
/// see the text, and the keys of which it has the digits.
#[derive(Drop)]
pub(crate) struct CachedDigits {
    text: ArrayString<63>,
    /// How many keys there are: none, where the text may be any other.
    len: usize,
    keys: [u64; MAX_LABEL_LEN],
    /// The bias after each key.
    biases: [u32; MAX_LABEL_LEN],
    /// Where in the text the digits of each key end.
    ends: [u8; MAX_LABEL_LEN],
}

impl Model for CachedDigits {
    ghost use Rattle.std.specs.Prelude.{◌≤◌, take};
    ghost use Rattle.idn_punycode.specs.inner.Digits.{Written, IsWritten, AreOfKeys, bias_after, end_after};

    ghost Value = { Written };

    ghost view = { λ cached. record { keys = take cached.len cached.keys; text = cached.text.bytes } };

    ghost invariant = { λ cached. (cached.len ≤ 63)
        × IsWritten (take cached.len cached.keys) cached.text.bytes
        × AreOfKeys bias_after (take cached.len cached.keys) cached.biases
        × AreOfKeys end_after (take cached.len cached.keys) cached.ends };
}

impl CachedDigits {
    /// No text, and no keys.
    pub(crate) fn new() -> CachedDigits
        ensures { result.text ≡ [] }
    {
        CachedDigits {
            text: ArrayString::new(),
            len: 0,
            keys: [0; MAX_LABEL_LEN],
            biases: [0; MAX_LABEL_LEN],
            ends: [0; MAX_LABEL_LEN],
        }
    }

    /// The text.
    #[inline]
    pub(crate) fn text(&self) -> &ArrayString<63>
        ensures { result.now.bytes ≡ self.now.text }
    {
        &self.text
    }

    /// Puts any other text in place of the one that is held.
    #[inline]
    pub(crate) fn put(&mut self, text: ArrayString<63>)
        ensures { self.new.text ≡ text.bytes }
    {
        self.len = 0;
        self.text = text;
    }

    /// Puts the digits of these keys in place of the text. Those of the first keys that both have stay, and only the
    /// digits after them are written. Where they do not fit, nothing is said of the text.
    ///
    /// Always inline: what a turn changes then stays in registers.
    #[inline(always)]
    pub(crate) fn write(&mut self, keys: &[u64]) -> Result<(), CapacityError>
        requires few { length keys.now ≤ 63 }
        requires writable { AreWritable keys.now }
        ensures ok { OnOk result (self.new.text ≡ codes "xn--" ++ all_digits keys.now) }
        ensures short { OnOk result (length (codes "xn--" ++ all_digits keys.now) ≤ 63) }
        ensures too_long { OnErr result (63 < length (codes "xn--" ++ all_digits keys.now)) }
    {
        let kept = self.shared_len(keys);
        self.keep(kept);
        let mut progress = self.after_cached();
        let mut text = self.text;
        self.len = 0;
        for at in kept..keys.len() {
            self.keys[at] = keys[at];
            progress = progress.write_key(keys[at], 0, &mut text)?;
            self.biases[at] = progress.bias();
            self.ends[at] = text.len() as u8;
        }
        self.text = text;
        self.len = keys.len();
        Ok(())
    }

    /// The keys of which the text has the digits.
    #[inline]
    fn keys(&self) -> &[u64]
        ensures value { result.now ≡ self.now.keys }
        ensures short { length result.now ≤ 63 }
    {
        &self.keys[..self.len]
    }

    /// How many keys these share at their start with those of the text.
    #[inline]
    fn shared_len(&self, keys: &[u64]) -> usize
        ensures within { result ≤ length self.now.keys }
        ensures same { take result self.now.keys ≡ take result keys.now }
    {
        let own = self.keys();
        let len = own.len().min(keys.len());
        let mut at = 0;
        while at < len && own[at] == keys[at] {
            at += 1;
        }
        at
    }

    /// What the writer came to after the last key.
    #[inline]
    fn after_cached(&self) -> Progress
        ensures { result ≡ after_all self.now.keys }
    {
        let own = self.keys();
        let len = own.len();
        if len == 0 {
            return Progress::after_basic(0);
        }
        let last = len - 1;
        Progress::after(last as u32, own[last], self.biases[last])
    }

    /// Keeps the digits of the first keys.
    #[inline]
    fn keep(&mut self, count: usize)
        requires { count ≤ length self.old.keys }
        ensures keys { self.new.keys ≡ take count self.old.keys }
        ensures text { self.new.text ≡ codes "xn--" ++ all_digits (take count self.old.keys) }
        ensures short { length self.new.text ≤ 63 }
    {
        self.len = count;
        if count == 0 {
            self.text.clear();
            self.text.push_str(ACE_PREFIX);
        } else {
            self.text.truncate(usize::from(self.ends[count - 1]));
        }
    }
}
