//! Why an input is refused, and why a run ends early.

ghost use Rattle.std.specs.Prelude.{◌≡◌};
ghost use Rattle.idn_text.specs.declared.refusal.Refusal.TheVariants.{Memory};

use std::alloc::{AllocError, AllocFailed};

/// A refusal. Each has a number and a text, which messages show.
#[derive(Clone, Copy, Debug, PartialEq, Eq)]
pub enum Refusal {
    /// A line whose bytes are no UTF-8 (RFC 3629).
    NotUtf8,
    /// A line of more than 1,024 bytes, a carriage return at its end counted.
    LineTooLong,
    /// A line or a label without a code point.
    Empty,
    /// A label that is not greater than the one before it, where labels have to rise.
    OutOfOrder,
    /// A line that ends after byte 4,294,967,295 of its file.
    FileTooLong,
    /// A code point of class DISALLOWED (RFC 5892 section 3).
    Disallowed,
    /// A code point of class UNASSIGNED (RFC 5892 section 3).
    Unassigned,
    /// A label that is not in Normalization Form C (RFC 5891 section 4.2.1).
    NotNfc,
    /// A hyphen first, last, or in both the third and fourth places (RFC 5891 section 4.2.3.1).
    Hyphen,
    /// A label that begins with a combining mark (RFC 5891 section 4.2.3.2).
    LeadingMark,
    /// A joiner against its rule (RFC 5892 appendices A.1 and A.2).
    ContextJ,
    /// Another code point against its contextual rule (RFC 5892 appendices A.3 to A.9).
    ContextO,
    /// A label against the Bidi rule (RFC 5893 section 2).
    Bidi,
    /// A label of more than 63 code points, or with an A-label of more than 63 octets.
    LabelTooLong,
    /// A label that begins as an A-label does and is none (RFC 5890 section 2.3.2.1).
    BadALabel,
    /// A name that the ToASCII operation of UTS #46 refuses.
    LookupInvalid,
    /// A name, or a label of it, whose length the DNS refuses (RFC 1035 section 2.3.4).
    LookupLength,
    /// A line of a table that is not blank, and is no comment, no entry, no range and no definition; or the first line
    /// of a text that lacks its version; or what is no XML, or not that of a ruleset (RFC 7940).
    Syntax,
    /// A source that an earlier line of the table has.
    SameSource,
    /// A variant that its entry has twice, unless each time under another condition; or one that is the source itself.
    SameVariant,
    /// A code point that a table may not hold.
    BadClass,
    /// A table over one of its limits.
    Limit,
    /// A name of a type, set or rule that no earlier line of a ruleset defines.
    NoSuchName,
    /// A name that an earlier line of a ruleset defines, or that is predefined.
    SameName,
    /// What a ruleset in XML may say, and no table says.
    NotSupported,
    /// A label that can't be cut into sources of the table, whatever their conditions (RFC 7940 section 8.1).
    NotInTable,
    /// A label that can be cut into sources of a ruleset, but that isn't eligible, breaks a demand, is unclear, or is
    /// invalid by an action (RFC 7940 sections 7 and 8).
    NotValid,
    /// Words of the command line that are refused.
    Usage,
    /// A reader that failed, that was called too often, or that gave too many lines.
    ReadFault,
    /// A writer that failed.
    WriteFault,
    /// Memory that was refused.
    Memory,
}

impl Refusal {
    ghost use Rattle.idn_text.specs.Refusals.{refusal_number, refusal_text};

    /// The number of the refusal.
    pub fn number(&self) -> u8
        ensures { result ≡ refusal_number self.now }
    {
        match self {
            Refusal::NotUtf8 => 1,
            Refusal::LineTooLong => 2,
            Refusal::Empty => 3,
            Refusal::OutOfOrder => 4,
            Refusal::FileTooLong => 5,
            Refusal::Disallowed => 10,
            Refusal::Unassigned => 11,
            Refusal::NotNfc => 12,
            Refusal::Hyphen => 13,
            Refusal::LeadingMark => 14,
            Refusal::ContextJ => 15,
            Refusal::ContextO => 16,
            Refusal::Bidi => 17,
            Refusal::LabelTooLong => 18,
            Refusal::BadALabel => 19,
            Refusal::LookupInvalid => 20,
            Refusal::LookupLength => 21,
            Refusal::Syntax => 30,
            Refusal::SameSource => 31,
            Refusal::SameVariant => 32,
            Refusal::BadClass => 33,
            Refusal::Limit => 34,
            Refusal::NoSuchName => 35,
            Refusal::SameName => 36,
            Refusal::NotSupported => 37,
            Refusal::NotInTable => 40,
            Refusal::NotValid => 41,
            Refusal::Usage => 50,
            Refusal::ReadFault => 60,
            Refusal::WriteFault => 61,
            Refusal::Memory => 70,
        }
    }

    /// What messages say of the refusal, in ASCII.
    pub fn text(&self) -> &'static str
        ensures { result.now ≡ refusal_text self.now }
    {
        match self {
            Refusal::NotUtf8 => "not UTF-8",
            Refusal::LineTooLong => "line too long",
            Refusal::Empty => "empty",
            Refusal::OutOfOrder => "out of order",
            Refusal::FileTooLong => "file too long",
            Refusal::Disallowed => "disallowed code point",
            Refusal::Unassigned => "unassigned code point",
            Refusal::NotNfc => "not in NFC",
            Refusal::Hyphen => "hyphen out of place",
            Refusal::LeadingMark => "leading combining mark",
            Refusal::ContextJ => "joiner out of context",
            Refusal::ContextO => "code point out of context",
            Refusal::Bidi => "Bidi rule broken",
            Refusal::LabelTooLong => "label too long",
            Refusal::BadALabel => "not an A-label",
            Refusal::LookupInvalid => "not a valid name",
            Refusal::LookupLength => "name or label length",
            Refusal::Syntax => "table syntax",
            Refusal::SameSource => "source given twice",
            Refusal::SameVariant => "variant given twice",
            Refusal::BadClass => "code point not allowed in a table",
            Refusal::Limit => "table limit",
            Refusal::NoSuchName => "name not defined",
            Refusal::SameName => "name given twice",
            Refusal::NotSupported => "not supported",
            Refusal::NotInTable => "not made of table entries",
            Refusal::NotValid => "not valid under the table",
            Refusal::Usage => "usage",
            Refusal::ReadFault => "read fault",
            Refusal::WriteFault => "write fault",
            Refusal::Memory => "out of memory",
        }
    }
}

impl From<AllocError> for Refusal {
    ghost from_gives = { λ _ refusal. refusal ≡ Memory };

    fn from(_: AllocError) -> Refusal {
        Refusal::Memory
    }
}

impl<T: Drop> From<AllocFailed<T>> for Refusal {
    ghost from_gives = { λ _ refusal. refusal ≡ Memory };

    fn from(_: AllocFailed<T>) -> Refusal {
        Refusal::Memory
    }
}
