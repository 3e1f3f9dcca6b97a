//! Causes as messages tell them: the members of the object in their order, with words between them.
ghost use Rattle.std.specs.Prelude.{◌≡◌, ◌≤◌, ◌+◌, ◌++◌, [], codes, length, if◌then◌else◌};
ghost use Rattle.std.specs.Option.{option_copied, option_map};
ghost use Rattle.arrayvec.specs.ArrayVec.{array_vec_len};
ghost use Rattle.answer_json.specs.Details.{HasShortTexts, details_of, given_len};
ghost use Rattle.idn2_refusals.specs.CauseParts.{IsShort};
ghost use Rattle.idn2_refusals.specs.CauseWords.{action_words, before_place, before_point, cause_words};
ghost use Rattle.idn2_refusals.specs.CauseWords.{demand_words, label_words, length_words, number_between, place_words};
ghost use Rattle.idn2_refusals.specs.CauseWords.{point_after, rule_words, subject_words, text_between};
ghost use Rattle.idn2_refusals.specs.ToldCauses.{told_parts};

use crate::digits::push_code_point;
use crate::told_cause::{Lead, ToldCause};
use answer_json::RefusalMembers;
use arrayvec::ArrayVec;
use idn2_output::append;
use itoa::Buffer;

/// A message with a cause.
pub(crate) type ExplainedMessage = ArrayVec<u8, 1472>;

/// Appends a cause.
#[tactic(auto, unfolding(crate::specs::CauseWords::cause_words))]
pub(crate) fn push_cause(text: &mut ExplainedMessage, told: &ToldCause<'_>)
    requires room { array_vec_len text.old + 1312 ≤ 1472 }
    requires short { IsShort (told_parts told.now) }
    ensures items { text.new.items ≡ text.old.items ++ cause_words (told_parts told.now) }
    ensures end { array_vec_len text.new ≤ array_vec_len text.old + 1312 }
{
    push_label(text, &told.members);
    push_action(text, &told.members);
    push_subject(text, &told.lead, told.members.code_point);
    push_place(text, told);
    push_rule(text, told);
    push_demand(text, &told.members);
    push_lengths(text, &told.members);
}

/// Appends which label of a name it is, and whether what is refused is what it stands for.
#[tactic(auto, unfolding(crate::specs::CauseWords::label_words))]
fn push_label(text: &mut ExplainedMessage, members: &RefusalMembers<'_>)
    requires { array_vec_len text.old + 60 ≤ 1472 }
    ensures items { text.new.items ≡ text.old.items ++ label_words (details_of members.now) }
    ensures end { array_vec_len text.new ≤ array_vec_len text.old + 60 }
{
    push_number(text, b"label ", members.label, after_label(members.decoded));
    push_decoded(text, members.decoded);
}

/// What stands after the number of a label.
fn after_label(decoded: bool) -> &'static [u8]
    ensures text { result.now ≡ (if decoded then codes ", " else codes ": ") }
    ensures short { length result.now ≤ 2 }
{
    if decoded { b", " } else { b": " }
}

/// Appends that what is refused is what an A-label stands for, where it is.
fn push_decoded(text: &mut ExplainedMessage, decoded: bool)
    requires { array_vec_len text.old + 9 ≤ 1472 }
    ensures items { text.new.items ≡ text.old.items ++ (if decoded then codes "decoded: " else []) }
    ensures end { array_vec_len text.new ≤ array_vec_len text.old + 9 }
{
    if decoded {
        append(text, b"decoded: ");
    }
}

/// Appends which action a label triggers.
#[tactic(auto, unfolding(crate::specs::CauseWords::action_words))]
fn push_action(text: &mut ExplainedMessage, members: &RefusalMembers<'_>)
    requires { array_vec_len text.old + 120 ≤ 1472 }
    ensures items { text.new.items ≡ text.old.items ++ action_words (details_of members.now) }
    ensures end { array_vec_len text.new ≤ array_vec_len text.old + 120 }
{
    let after = before_point(members.code_point);
    push_number(text, b"action ", members.action, after);
    push_number(text, b"default action ", members.default_action, after);
}

/// What stands between the number of an action and a code point, if one is told.
fn before_point(point: Option<u32>) -> &'static [u8]
    ensures text { result.now ≡ before_point point }
    ensures short { length result.now ≤ 2 }
{
    match point {
        Some(_) => b": ",
        None => b"",
    }
}

/// Appends what stands at the place: the code point, if nothing is told in place of it.
fn push_subject(text: &mut ExplainedMessage, lead: &Option<Lead>, point: Option<u32>)
    requires { array_vec_len text.old + 34 ≤ 1472 }
    ensures items { text.new.items ≡ text.old.items ++ subject_words (option_map (λ lead. lead.items) lead.now) point }
    ensures end { array_vec_len text.new ≤ array_vec_len text.old + 34 }
{
    match lead {
        Some(lead) => append(text, lead.as_slice()),
        None => push_point(text, b"", point),
    }
}

/// Appends the place in code points, or in bytes.
#[tactic(auto, unfolding(crate::specs::CauseWords::place_words))]
fn push_place(text: &mut ExplainedMessage, told: &ToldCause<'_>)
    requires { array_vec_len text.old + 100 ≤ 1472 }
    ensures items { text.new.items ≡ text.old.items ++ place_words (told_parts told.now) }
    ensures end { array_vec_len text.new ≤ array_vec_len text.old + 100 }
{
    push_number(text, before_place(&told.lead), told.members.place, b"");
    push_number(text, b" at byte ", told.members.byte, b"");
}

/// What stands before the number of a place.
fn before_place(lead: &Option<Lead>) -> &'static [u8]
    ensures text { result.now ≡ before_place (option_map (λ lead. lead.items) lead.now) }
    ensures short { length result.now ≤ 10 }
{
    match lead {
        Some(lead) => match lead.as_slice() {
            [] => b"place ",
            _ => b" at place ",
        },
        None => b" at place ",
    }
}

/// Appends the Bidi_Class or the type, and the rule that is broken.
#[tactic(auto, unfolding(crate::specs::CauseWords::rule_words))]
fn push_rule(text: &mut ExplainedMessage, told: &ToldCause<'_>)
    requires room { array_vec_len text.old + 256 ≤ 1472 }
    requires short { IsShort (told_parts told.now) }
    ensures items { text.new.items ≡ text.old.items ++ rule_words (told_parts told.now) }
    ensures end { array_vec_len text.new ≤ array_vec_len text.old + 256 }
{
    push_text(text, b" is ", told.members.bidi_class, b"");
    push_text(text, b" is ", told.members.type_name, b"");
    append(text, told.rule.before);
    push_text(text, b"", told.members.condition, b" ");
    append(text, told.rule.rule);
    append(text, told.rule.after);
    push_point(text, b": NFC has ", told.members.nfc);
}

/// Appends the demand, or that a label is unclear.
#[tactic(auto, unfolding(crate::specs::CauseWords::demand_words))]
fn push_demand(text: &mut ExplainedMessage, members: &RefusalMembers<'_>)
    requires room { array_vec_len text.old + 70 ≤ 1472 }
    requires short { HasShortTexts (details_of members.now) }
    ensures items { text.new.items ≡ text.old.items ++ demand_words (details_of members.now) }
    ensures end { array_vec_len text.new ≤ array_vec_len text.old + 70 }
{
    push_number(text, b"demand ", members.demand, b"");
    push_text(text, b", ", members.kind, b"");
    push_unclear(text, members.unclear);
}

/// Appends that a label is unclear, where it is.
fn push_unclear(text: &mut ExplainedMessage, unclear: bool)
    requires { array_vec_len text.old + 7 ≤ 1472 }
    ensures items { text.new.items ≡ text.old.items ++ (if unclear then codes "unclear" else []) }
    ensures end { array_vec_len text.new ≤ array_vec_len text.old + 7 }
{
    if unclear {
        append(text, b"unclear");
    }
}

/// Appends the lengths, the other A-label and the U-label.
#[tactic(auto, unfolding(crate::specs::CauseWords::length_words))]
fn push_lengths(text: &mut ExplainedMessage, members: &RefusalMembers<'_>)
    requires room { array_vec_len text.old + 640 ≤ 1472 }
    requires short { HasShortTexts (details_of members.now) }
    ensures items { text.new.items ≡ text.old.items ++ length_words (details_of members.now) }
    ensures end { array_vec_len text.new ≤ array_vec_len text.old + 640 }
{
    push_number(text, b"", members.code_points, b" code points");
    push_number(text, b"", members.octets, b" octets");
    push_text(text, b"the A-label is ", members.alabel, b"");
    push_text(text, b": an A-label of '", members.ulabel, b"'");
}

/// Appends a number between words, if it is there.
fn push_number(text: &mut ExplainedMessage, before: &[u8], number: Option<u128>, after: &[u8])
    requires { array_vec_len text.old + (length before.now + length after.now + 40) ≤ 1472 }
    ensures items { text.new.items ≡ text.old.items ++ number_between before.now number after.now }
    ensures end { array_vec_len text.new ≤ array_vec_len text.old + (length before.now + length after.now + 40) }
{
    if let Some(number) = number {
        let mut digits = Buffer::new();
        append(text, before);
        append(text, digits.format(number).as_bytes());
        append(text, after);
    }
}

/// Appends a code point after words, if it is there.
fn push_point(text: &mut ExplainedMessage, before: &[u8], point: Option<u32>)
    requires { array_vec_len text.old + (length before.now + 8) ≤ 1472 }
    ensures items { text.new.items ≡ text.old.items ++ point_after before.now point }
    ensures end { array_vec_len text.new ≤ array_vec_len text.old + (length before.now + 8) }
{
    if let Some(point) = point {
        append(text, before);
        push_code_point(text, point);
    }
}

/// Appends a text between words, if it is there.
fn push_text(text: &mut ExplainedMessage, before: &[u8], told: Option<&[u8]>, after: &[u8])
    requires { array_vec_len text.old + (length before.now + given_len (option_copied told) + length after.now) ≤
        1472 }
    ensures items { text.new.items ≡ text.old.items ++ text_between before.now (option_copied told.entry) after.now }
    ensures end { array_vec_len text.new ≤ array_vec_len text.old +
        (length before.now + given_len (option_copied told.entry) + length after.now) }
{
    if let Some(told) = told {
        append(text, before);
        append(text, told);
        append(text, after);
    }
}
