//! Facts: which tests a label may need, by one look-up for each of its code points.
ghost use Rattle.std.specs.Prelude.{◌≡◌, ◌||◌, ◌<◌, ◌↔◌, false, IsTrue};
ghost use Rattle.idn_class.specs.Facts.{AreFactsOf, contains, has_fact, place_of};

use crate::class_table::{FACT_INDEX, FACT_WORDS};

/// A test that a label may need because of one of its code points. If no code point of a label has a
/// fact, the label passes the test that the fact stands for.
#[derive(Clone, Copy, Debug, PartialEq, Eq)]
pub enum Fact {
    /// The class is DISALLOWED or UNASSIGNED, or no look-up says which class it is.
    MayBeBarred,
    /// The class is CONTEXTJ.
    Contextj,
    /// The class is CONTEXTO.
    Contexto,
    /// NFC may change a text that holds the code point: NFC_QC is not Yes, or the combining class is
    /// not 0.
    MayCompose,
    /// A combining mark, which may not begin a label.
    Mark,
    /// The Bidi rule applies to a label that holds the code point, by the profile or by Unicode.
    RightToLeft,
    /// UTS 46 does not map the code point to itself.
    NotKept,
}

impl Fact {
    #[inline]
    fn place(self) -> u32
        ensures place { result ≡ place_of self }
        ensures within { result < 7 }
    {
        match self {
            Fact::MayBeBarred => 0,
            Fact::Contextj => 1,
            Fact::Contexto => 2,
            Fact::MayCompose => 3,
            Fact::Mark => 4,
            Fact::RightToLeft => 5,
            Fact::NotKept => 6,
        }
    }
}

/// The facts of a code point, or of any of a label.
#[derive(Clone, Copy)]
pub struct Facts {
    /// A bit for each fact that is absent, at its place. So the facts of some code points are joined
    /// by `&`, and a number past Unicode, which the table does not have, has them all.
    absent: u32,
}

/// The bits of all facts.
const ALL: u32 = 0x7F;

/// One past the last code point.
pub(crate) const END: u32 = 0x11_0000;

impl Facts {
    /// No fact, as of the empty label.
    #[inline]
    pub fn none() -> Facts
        ensures { (fact : Fact) → contains result fact ≡ false }
    {
        Facts { absent: ALL }
    }

    /// The facts of a code point, by one look-up. A number past Unicode has each.
    #[inline]
    pub fn of(c: u32) -> Facts
        ensures { (fact : Fact) → contains result fact ≡ has_fact fact c }
    {
        Facts {
            absent: ucd_table::get::<8, 16>(&FACT_INDEX, &FACT_WORDS, &[], c),
        }
    }

    /// The facts that some code point of a label has.
    pub fn of_label(label: &[u32]) -> Facts
        ensures { AreFactsOf result label.now }
    {
        let mut facts = Facts::none();
        for c in label {
            // The look-up is faster where it need not ask this itself.
            if *c >= END {
                return Facts { absent: 0 };
            }
            facts = facts.joined(Facts::of(*c));
        }
        facts
    }

    /// The facts that one of the two has, or both.
    #[inline]
    pub fn joined(self, other: Facts) -> Facts
        ensures { (fact : Fact) → contains result fact ≡ (contains self fact || contains other fact) }
    {
        Facts {
            absent: self.absent & other.absent,
        }
    }

    /// Whether this fact is one of them.
    #[inline]
    pub fn contains(self, fact: Fact) -> bool
        ensures { result ≡ contains self fact }
    {
        self.absent >> fact.place() & 1 == 0
    }

    /// Whether there is no fact.
    #[inline]
    pub fn is_empty(self) -> bool
        ensures { IsTrue result ↔ ((fact : Fact) → contains self fact ≡ false) }
    {
        self.absent & ALL == ALL
    }
}
