//! The objects of the check of a table: one for each pair that is found and each type that is idle, and one that
//! counts.
ghost use Rattle.std.specs.Prelude.{◌≡◌, ◌≤◌, length, slice_index};
ghost use Rattle.answer_json.specs.Answers.{line_of};
ghost use Rattle.answer_json.specs.Objects.{checked, idle, pair, word_of};
ghost use Rattle.answer_json.specs.inner.Openings.{IsOpening, name_in};

use crate::ends::end_line;
use crate::member::{put_number, put_text};
use crate::room::ObjectRoom;

/// What a check tells of two sequences of a table.
#[derive(Clone, Copy, PartialEq, Eq)]
pub enum PairFinding {
    /// The table lacks the second as a variant of the first.
    Missing,
    /// Each is a variant of the other, and not under the same conditions.
    Differs,
}

impl PairFinding {
    /// The word for it.
    pub fn word(self) -> &'static str
        ensures word { result.now ≡ word_of self }
        ensures short { length result.now ≤ 7 }
    {
        match self {
            PairFinding::Missing => "missing",
            PairFinding::Differs => "differs",
        }
    }

    /// What stands before the second sequence in the object.
    fn opening(self) -> &'static str
        ensures opening { IsOpening result.now }
        ensures comma { slice_index result.now 0 ≡ 44 }
        ensures name { name_in result.now ≡ word_of self }
        ensures short { length result.now ≤ 11 }
    {
        match self {
            PairFinding::Missing => ",\"missing\":",
            PairFinding::Differs => ",\"differs\":",
        }
    }
}

/// Writes the object of what a check finds of two sequences, in their canonical texts, and a line feed.
pub fn write_pair<'a>(
    out: &'a mut ObjectRoom,
    finding: PairFinding,
    source: &[u8],
    other: &[u8],
) -> &'a [u8]
    requires source { length source.now ≤ 64 }
    requires other { length other.now ≤ 64 }
    ensures { result.now ≡ line_of (pair finding source.now other.now) }
{
    let at = put_text(out, 0, "{\"source\":", source);
    let end = put_text(out, at, finding.opening(), other);
    end_line(out, end)
}

/// Writes the object of a type of a ruleset's own that no action names, and a line feed.
pub fn write_idle<'a>(out: &'a mut ObjectRoom, name: &[u8]) -> &'a [u8]
    requires { length name.now ≤ 32 }
    ensures { result.now ≡ line_of (idle name.now) }
{
    let end = put_text(out, 0, "{\"idle\":", name);
    end_line(out, end)
}

/// Writes the object of a table that is checked, and a line feed: how many entries and how many gaps it has.
pub fn write_checked(out: &mut ObjectRoom, entries: u64, gaps: u64) -> &[u8]
    ensures { result.now ≡ line_of (checked entries gaps) }
{
    let at = put_number(out, 0, "{\"entries\":", entries);
    let end = put_number(out, at, ",\"gaps\":", gaps);
    end_line(out, end)
}
