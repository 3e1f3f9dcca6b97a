//! Objects of JSON that are ready to be written: all that a run writes where its answers are objects.

ghost use Rattle.std.specs.Prelude.{◌≡◌};
ghost use Rattle.answer_json.specs.Answers.{line_of};
ghost use Rattle.idn2_output.specs.Objects.{HasSpace, object_told};

use answer_json::{
    Disposition, Input, ObjectRoom, PairFinding, RefusalMembers, Regards, write_checked,
    write_collision, write_decoded, write_idle, write_least, write_looked_up, write_no_least,
    write_old_label, write_pair, write_refused, write_registered, write_registered_fault,
    write_table_fault, write_trailer, write_variant,
};
use idn_text::Refusal;

/// What an object says. Where it begins with a number, that is the number of a line, and the input after it is that
/// line.
#[derive(Clone, Copy)]
pub enum Object<'a> {
    /// What a name is in a query.
    LookedUp(u64, Input<'a>, &'a [u8]),
    /// What a label stands for, and its A-label.
    Registered(u64, Input<'a>, &'a [u8], &'a [u8]),
    /// What a name is decoded to.
    Decoded(u64, Input<'a>, &'a [u8]),
    /// The old label that a label of a zone stands for.
    OldLabel(u64, Input<'a>, &'a [u8]),
    /// The least near label from a text on, and what each of it and the label asked about is to the other.
    Least(u64, Input<'a>, &'a [u8], Regards),
    /// There is no near label from a text on.
    NoLeast(u64, Input<'a>),
    /// A variant, its A-label, and its disposition, if the table has any.
    Variant(u64, &'a [u8], &'a [u8], Option<Disposition>),
    /// A registered label that collides, its A-label, and what each of it and the label asked about is to the other.
    Collision(u64, &'a [u8], &'a [u8], Regards),
    /// How many labels a block has, and where it stops if there may be more.
    BlockEnd(u64, Input<'a>, u64, Option<&'a [u8]>),
    /// Why a line is refused.
    Refused(u64, Input<'a>, Refusal, &'a RefusalMembers<'a>),
    /// What a check finds of two sequences of a table.
    Pair(PairFinding, &'a [u8], &'a [u8]),
    /// The name of a type of a ruleset's own that no action names.
    Idle(&'a [u8]),
    /// How many entries and how many gaps a table has.
    Checked(u64, u64),
    /// Why a line of a table is refused.
    TableFault(u64, Refusal, &'a RefusalMembers<'a>),
    /// Why a line of the registered labels is refused.
    RegisteredFault(u64, Refusal, &'a RefusalMembers<'a>),
}

/// Writes an object and a line feed.
///
/// Always inline: where it is called, the kind of the object is known.
#[inline(always)]
pub fn write_object<'a>(out: &'a mut ObjectRoom, object: &Object<'_>) -> &'a [u8]
    requires { HasSpace object.now }
    ensures { result.now ≡ line_of (object_told object.now) }
{
    match object {
        Object::LookedUp(line, input, ascii) => write_looked_up(out, *line, input, ascii),
        Object::Registered(line, input, u_label, a_label) => {
            write_registered(out, *line, input, u_label, a_label)
        }
        Object::Decoded(line, input, unicode) => write_decoded(out, *line, input, unicode),
        Object::OldLabel(line, input, unicode) => write_old_label(out, *line, input, unicode),
        Object::Least(line, input, label, regards) => {
            write_least(out, *line, input, label, *regards)
        }
        Object::NoLeast(line, input) => write_no_least(out, *line, input),
        Object::Variant(line, u_label, a_label, disposition) => {
            write_variant(out, *line, u_label, a_label, *disposition)
        }
        Object::Collision(line, u_label, a_label, regards) => {
            write_collision(out, *line, u_label, a_label, *regards)
        }
        Object::BlockEnd(line, input, count, stop) => {
            write_trailer(out, *line, input, *count, *stop)
        }
        Object::Refused(line, input, refusal, members) => {
            write_refused(out, *line, input, *refusal, members)
        }
        Object::Pair(finding, source, other) => write_pair(out, *finding, source, other),
        Object::Idle(name) => write_idle(out, name),
        Object::Checked(entries, gaps) => write_checked(out, *entries, *gaps),
        Object::TableFault(line, refusal, members) => {
            write_table_fault(out, *line, *refusal, members)
        }
        Object::RegisteredFault(line, refusal, members) => {
            write_registered_fault(out, *line, *refusal, members)
        }
    }
}
