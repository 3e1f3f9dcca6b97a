//! What is known of the beginnings of a label, cached for the next label.

use crate::beginning::with_hyphens;
use crate::cached_label::MAX_LABEL_LEN;
use crate::facts::Facts;
use crate::known::Known;
use crate::properties::Properties;
use std::marker::Model;

/// What is known of the beginnings of a label: of the one that has one code point, then of the one that has two, and so
/// on. What is known of beginnings that the next label has too is cached, and only the code points after these are
/// looked at. Contracts see what is known.
#[derive(Drop)]
pub struct CachedPrefixes {
    known: [Known; MAX_LABEL_LEN],
    /// Of how many beginnings something is known.
    len: usize,
}

impl Model for CachedPrefixes {
    ghost use Rattle.std.specs.Prelude.{◌≤◌, List, take};
    ghost use Rattle.idn_class.specs.declared.known.Known.{Known};

    ghost Value = { List Known };

    ghost view = { λ cached. take cached.len cached.known };

    ghost invariant = { λ cached. cached.len ≤ 63 };
}

impl CachedPrefixes {
    ghost use Rattle.std.specs.Prelude.{◌≡◌, ◌≤◌, ◌<◌, ◌+◌, ◌∷◌, []};
    ghost use Rattle.std.specs.Prelude.{◌++◌, ℕ, List, true, length, take, None, MatchOption};
    ghost use Rattle.idn_class.specs.DeadPrefixes.{TellsDeadPrefix};
    ghost use Rattle.idn_class.specs.declared.properties.Properties.{Properties};
    ghost use Rattle.idn_class.specs.Facts.{AreFactsOf};
    ghost use Rattle.idn_class.specs.Known.{IsKnown, AreKnown, TellsKnown};
    ghost use Rattle.idn_class.specs.Directions.{TellsShortest, breaks_at_first};

    /// Nothing is known of any beginning.
    pub fn new() -> CachedPrefixes
        ensures { result ≡ [] }
    {
        CachedPrefixes {
            known: [Known::nothing(); MAX_LABEL_LEN],
            len: 0,
        }
    }

    /// Keeps what is known of the first `count` beginnings.
    #[inline]
    pub fn keep(&mut self, count: usize)
        ensures { self.new ≡ take count self.old }
    {
        self.len = self.len.min(count);
    }

    /// How many code points the shortest dead prefix of a label of at most 63 code points has, as
    /// `shortest_hopeless` tells it. What is cached must be of this label, and is so afterwards: of all beginnings, but
    /// where one is dead.
    pub fn shortest_hopeless(&mut self, label: &[u32], properties: Properties) -> Option<usize>
        requires short { length label.now ≤ 63 }
        requires begun { AreKnown properties label.now self.old }
        ensures shortest { TellsDeadPrefix properties label.now result }
        ensures known { AreKnown properties label.now self.new }
        ensures whole { result ≡ None → length self.new ≡ length label.now }
    {
        let breaking = self.lengthen_to(label, properties);
        with_hyphens(label, breaking, properties)
    }

    /// The facts that some code point has of the longest beginning of which something is known.
    pub fn facts(&self) -> Facts
        ensures { (properties : Properties) (label : List ℕ) → AreKnown properties label self.now →
            AreFactsOf result (take (length self.now) label) }
    {
        match self.last_known() {
            Some(known) => known.facts(),
            None => Facts::none(),
        }
    }

    /// What is known of the longest beginning. `None` where nothing is.
    fn last_known(&self) -> Option<Known>
        ensures { (properties : Properties) (label : List ℕ) → AreKnown properties label self.now →
            MatchOption result (self.now ≡ []) (IsKnown properties (take (length self.now) label)) }
    {
        if self.len == 0 {
            return None;
        }
        Some(self.known[self.len - 1])
    }

    /// Goes on to the end of the label, or to the code point that breaks a test for good.
    fn lengthen_to(&mut self, label: &[u32], properties: Properties) -> Option<usize>
        requires short { length label.now ≤ 63 }
        requires begun { AreKnown properties label.now self.old }
        ensures breaking { TellsShortest (breaks_at_first properties) label.now result }
        ensures known { AreKnown properties label.now self.new }
        ensures whole { result ≡ None → length self.new ≡ length label.now }
    {
        for index in self.len..label.len() {
            match self.lengthened(label[index], properties) {
                Some(known) => self.push(known),
                None => return Some(index + 1),
            }
        }
        None
    }

    /// What is known once a code point follows. `None` where that breaks a test for good.
    fn lengthened(&self, c: u32, properties: Properties) -> Option<Known>
        ensures { (label : List ℕ) → AreKnown properties label self.now →
            TellsKnown properties (take (length self.now) label ++ c ∷ []) result }
    {
        match self.last_known() {
            Some(known) => known.lengthened(c, properties),
            None => Known::begun(c, properties),
        }
    }

    /// Adds what is known of the beginning that is longer by one code point than the last one.
    fn push(&mut self, known: Known)
        requires { length self.old < 63 }
        ensures { self.new ≡ self.old ++ known ∷ [] }
    {
        self.known[self.len] = known;
        self.len += 1;
    }
}
