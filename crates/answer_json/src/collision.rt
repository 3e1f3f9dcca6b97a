//! The object of a registered label that collides with a label, and what each of the two is to the other.
ghost use Rattle.std.specs.Prelude.{◌≡◌, ◌≤◌, ◌+◌, ◌++◌, [], length, take};
ghost use Rattle.answer_json.specs.Answers.{line_of};
ghost use Rattle.answer_json.specs.Objects.{collision, regard_fields};
ghost use Rattle.answer_json.specs.inner.Texts.{fields_text};

use crate::ends::end_line;
use crate::member::{put_number, put_text};
use crate::room::{MAX_OBJECT_LEN, ObjectRoom};

/// What a label is to another one.
#[derive(Clone, Copy, PartialEq, Eq)]
pub enum Regard {
    /// It is no variant of the other.
    NoVariant,
    /// It is a variant, under a table of version 1, which says no more.
    Variant,
    /// It is a variant that nobody may have.
    Blocked,
    /// It is a variant that the holder of the other may have.
    Allocatable,
}

impl Regard {
    ghost use Rattle.answer_json.specs.Objects.{regard_text};

    /// The text of it.
    pub fn text(self) -> &'static str
        ensures text { result.now ≡ regard_text self }
        ensures short { length result.now ≤ 11 }
    {
        match self {
            Regard::NoVariant => "none",
            Regard::Variant => "variant",
            Regard::Blocked => "blocked",
            Regard::Allocatable => "allocatable",
        }
    }
}

/// What each of two labels is to the other.
#[derive(Clone, Copy, PartialEq, Eq)]
pub struct Regards {
    /// What the one that was found is to the one that was asked about.
    pub there: Regard,
    /// What the one that was asked about is to the one that was found.
    pub back: Regard,
}

/// Writes the object of a registered label with its A-label, and a line feed.
pub fn write_collision<'a>(
    out: &'a mut ObjectRoom,
    line: u64,
    u_label: &[u8],
    a_label: &[u8],
    regards: Regards,
) -> &'a [u8]
    requires u_label { length u_label.now ≤ 252 }
    requires a_label { length a_label.now ≤ 63 }
    ensures { result.now ≡ line_of (collision line u_label.now a_label.now regards) }
{
    let at = put_number(out, 0, "{\"line\":", line);
    let next = put_text(out, at, ",\"ulabel\":", u_label);
    let last = put_text(out, next, ",\"alabel\":", a_label);
    let end = put_regards(out, last, regards);
    end_line(out, end)
}

/// Writes as two members what each of two labels is to the other.
#[tactic(auto, using(crate::proofs::Members::one_field))]
pub(crate) fn put_regards(out: &mut ObjectRoom, at: usize, regards: Regards) -> usize
    requires { at + 160 ≤ MAX_OBJECT_LEN }
    ensures fields { take result out.new ≡ take at out.old ++ fields_text (regard_fields regards) [] }
    ensures end { result ≤ at + 160 }
{
    let next = put_text(out, at, ",\"there\":", regards.there.text().as_bytes());
    put_text(out, next, ",\"back\":", regards.back.text().as_bytes())
}
