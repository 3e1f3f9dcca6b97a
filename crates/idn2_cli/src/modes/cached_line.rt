//! The line of a variant, whose beginning stays from one variant to the next.

ghost use Rattle.std.specs.Prelude.{◌≡◌, ◌≤◌, ◌<◌, ◌+◌, ◌++◌, ℕ, List, min, length, take};
ghost use Rattle.idn_text.specs.Points.{AreScalarValues, utf8_of};
ghost use Rattle.idn2_cli.specs.inner.CachedLines.{IsBegun};

use idn_class::MAX_LABEL_LEN;
use idn_text::put_points;
use std::marker::Model;

/// The most octets of a line: four for each code point of a label, a tab, an A-label, a field and a line feed.
const MAX_VARIANT_LINE_LEN: usize = 4 * MAX_LABEL_LEN + 1 + MAX_LABEL_LEN + 16 + 1;

/// A line that begins with a label's UTF-8. The next line keeps that of the code points which both labels share at
/// their start. Contracts see the line, and with what it begins.
#[derive(Drop)]
pub(crate) struct CachedLine {
    /// With how many code points of a label the line begins.
    count: usize,
    /// How many octets of UTF-8 the first of them have, from none of them to all.
    ends: [u8; MAX_LABEL_LEN + 1],
    line: [u8; MAX_VARIANT_LINE_LEN],
    /// How many octets the line has. What an earlier line left after them stays there.
    len: usize,
}

impl Model for CachedLine {
    ghost use Rattle.std.specs.Prelude.{◌≤◌, take};
    ghost use Rattle.idn2_cli.specs.inner.CachedLines.{Begun};

    ghost Value = { Begun };

    ghost view = { λ cached. record { line = take cached.len cached.line; count = cached.count; ends = cached.ends } };

    ghost invariant = { λ cached. (cached.len ≤ 333) × (cached.count ≤ 63) };
}

impl CachedLine {
    /// The line of no label yet.
    pub(crate) fn new() -> CachedLine
        ensures { (label : List ℕ) → IsBegun label result }
    {
        CachedLine {
            count: 0,
            ends: [0; MAX_LABEL_LEN + 1],
            line: [0; MAX_VARIANT_LINE_LEN],
            len: 0,
        }
    }

    /// Goes over to labels that begin with the same `count` code points.
    #[inline]
    pub(crate) fn keep(&mut self, count: usize)
        ensures count { self.new.count ≡ min self.old.count count }
        ensures begun { (before label : List ℕ) → IsBegun before self.old → take count before ≡ take count label →
            IsBegun label self.new }
    {
        self.count = self.count.min(count);
    }

    /// Begins the line of a label of at most 63 code points. What the line begins with must be of this label.
    ///
    /// Always inline: it is called once for each variant.
    #[inline(always)]
    pub(crate) fn begin(&mut self, label: &[u32])
        requires short { length label.now ≤ MAX_LABEL_LEN }
        requires scalar_values { AreScalarValues label.now }
        requires begun { IsBegun label.now self.old }
        ensures begun { IsBegun label.now self.new }
        ensures line { self.new.line ≡ utf8_of label.now }
    {
        self.cut();
        while self.count < label.len() {
            self.push(label);
        }
    }

    /// Appends a text for which there is space.
    pub(crate) fn append(&mut self, text: &[u8])
        requires { length self.old.line + length text.now ≤ MAX_VARIANT_LINE_LEN }
        ensures line { self.new.line ≡ self.old.line ++ text.now }
        ensures begun { (label : List ℕ) → IsBegun label self.old → IsBegun label self.new }
    {
        let end = self.len + text.len();
        self.line[self.len..end].copy_from_slice(text);
        self.len = end;
    }

    /// The line.
    pub(crate) fn as_slice(&self) -> &[u8]
        ensures { result.now ≡ self.now.line }
    {
        &self.line[..self.len]
    }

    /// Cuts off what stands after the code points with which the line begins.
    fn cut(&mut self)
        ensures count { self.new.count ≡ self.old.count }
        ensures cut { (label : List ℕ) → IsBegun label self.old →
            IsBegun label self.new × (self.new.line ≡ utf8_of (take self.old.count label)) }
    {
        self.len = usize::from(self.ends[self.count]);
    }

    /// Appends the next code point of the label to the line, which has nothing after those before it.
    fn push(&mut self, label: &[u32])
        requires short { length label.now ≤ MAX_LABEL_LEN }
        requires scalar_values { AreScalarValues label.now }
        requires more { self.old.count < length label.now }
        requires begun { IsBegun label.now self.old }
        requires line { self.old.line ≡ utf8_of (take self.old.count label.now) }
        ensures count { self.new.count ≡ self.old.count + 1 }
        ensures begun { IsBegun label.now self.new }
        ensures line { self.new.line ≡ utf8_of (take self.new.count label.now) }
    {
        let end = put_points(&[label[self.count]], &mut self.line, self.len);
        self.count += 1;
        self.ends[self.count] = end as u8;
        self.len = end;
    }
}
