//! The members of a refusal, one after another.
ghost use Rattle.std.specs.Prelude.{◌≡◌, ◌≤◌, ◌+◌, ◌*◌, ◌++◌, [], length, slice_index, take};
ghost use Rattle.std.specs.Option.{option_copied};
ghost use Rattle.answer_json.specs.Answers.{count, if_given, text};
ghost use Rattle.answer_json.specs.Details.{HasShortTexts, action_fields, demand_fields, details_of, flag_if};
ghost use Rattle.answer_json.specs.Details.{given_len, length_fields, point, rule_fields, where_fields};
ghost use Rattle.answer_json.specs.inner.Openings.{IsOpening, name_in};
ghost use Rattle.answer_json.specs.inner.Texts.{fields_text};

use crate::member::{put_count, put_flag, put_point, put_text};
use crate::refusal_members::RefusalMembers;
use crate::room::{MAX_OBJECT_LEN, ObjectRoom};

/// Writes which label is refused, and where.
pub(crate) fn put_where(out: &mut ObjectRoom, at: usize, members: &RefusalMembers) -> usize
    requires { at + 192 ≤ MAX_OBJECT_LEN }
    ensures fields { take result out.new ≡ take at out.old ++ fields_text (where_fields (details_of members.now)) [] }
    ensures end { result ≤ at + 192 }
{
    let decoded = put_number_if(out, at, ",\"label\":", members.label);
    let code_point = put_flag_if(out, decoded, ",\"decoded\":", members.decoded);
    let place = put_point_if(out, code_point, ",\"code_point\":", members.code_point);
    put_number_if(out, place, ",\"place\":", members.place)
}

/// Writes the rule that is broken, and what it is broken by.
pub(crate) fn put_rule(out: &mut ObjectRoom, at: usize, members: &RefusalMembers) -> usize
    requires texts { HasShortTexts (details_of members.now) }
    requires room { at + 1024 ≤ MAX_OBJECT_LEN }
    ensures fields { take result out.new ≡ take at out.old ++ fields_text (rule_fields (details_of members.now)) [] }
    ensures end { result ≤ at + 1024 }
{
    let rule = put_text_if(out, at, ",\"condition\":", members.condition);
    let bidi_class = put_text_if(out, rule, ",\"rule\":", members.rule);
    let nfc = put_text_if(out, bidi_class, ",\"bidi_class\":", members.bidi_class);
    put_point_if(out, nfc, ",\"nfc\":", members.nfc)
}

/// Writes which demand is broken.
pub(crate) fn put_demand(out: &mut ObjectRoom, at: usize, members: &RefusalMembers) -> usize
    requires texts { HasShortTexts (details_of members.now) }
    requires room { at + 128 ≤ MAX_OBJECT_LEN }
    ensures fields { take result out.new ≡ take at out.old ++ fields_text (demand_fields (details_of members.now)) [] }
    ensures end { result ≤ at + 128 }
{
    let kind = put_number_if(out, at, ",\"demand\":", members.demand);
    put_text_if(out, kind, ",\"kind\":", members.kind)
}

/// Writes which action is triggered, and what it is triggered by.
pub(crate) fn put_action(out: &mut ObjectRoom, at: usize, members: &RefusalMembers) -> usize
    requires texts { HasShortTexts (details_of members.now) }
    requires room { at + 384 ≤ MAX_OBJECT_LEN }
    ensures fields { take result out.new ≡ take at out.old ++ fields_text (action_fields (details_of members.now)) [] }
    ensures end { result ≤ at + 384 }
{
    let default_action = put_number_if(out, at, ",\"action\":", members.action);
    let type_name = put_number_if(
        out,
        default_action,
        ",\"default_action\":",
        members.default_action,
    );
    let unclear = put_text_if(out, type_name, ",\"type\":", members.type_name);
    put_flag_if(out, unclear, ",\"unclear\":", members.unclear)
}

/// Writes how long what is refused is, and which other A-label, byte or U-label it has.
pub(crate) fn put_lengths(out: &mut ObjectRoom, at: usize, members: &RefusalMembers) -> usize
    requires texts { HasShortTexts (details_of members.now) }
    requires room { at + 3400 ≤ MAX_OBJECT_LEN }
    ensures fields { take result out.new ≡ take at out.old ++ fields_text (length_fields (details_of members.now)) [] }
    ensures end { result ≤ at + 3400 }
{
    let octets = put_number_if(out, at, ",\"code_points\":", members.code_points);
    let alabel = put_number_if(out, octets, ",\"octets\":", members.octets);
    let byte = put_text_if(out, alabel, ",\"alabel\":", members.alabel);
    let ulabel = put_number_if(out, byte, ",\"byte\":", members.byte);
    put_text_if(out, ulabel, ",\"ulabel\":", members.ulabel)
}

/// Writes a member that is there only where it is true.
#[tactic(auto, using(crate::proofs::Members::one_field))]
pub(crate) fn put_flag_if(out: &mut ObjectRoom, at: usize, opening: &str, holds: bool) -> usize
    requires room { at + length opening.now + 5 ≤ MAX_OBJECT_LEN }
    requires opening { IsOpening opening.now }
    requires comma { slice_index opening.now 0 ≡ 44 }
    ensures field { take result out.new ≡ take at out.old ++ fields_text (flag_if (name_in opening.now) holds) [] }
    ensures end { result ≤ at + (length opening.now + 5) }
{
    if holds {
        put_flag(out, at, opening, true)
    } else {
        at
    }
}

/// Writes a number as a member, where there is one.
#[tactic(auto, using(crate::proofs::Members::one_field))]
fn put_number_if(out: &mut ObjectRoom, at: usize, opening: &str, number: Option<u128>) -> usize
    requires room { at + length opening.now + 40 ≤ MAX_OBJECT_LEN }
    requires opening { IsOpening opening.now }
    requires comma { slice_index opening.now 0 ≡ 44 }
    ensures field { take result out.new ≡
        take at out.old ++ fields_text (if_given (name_in opening.now) count number) [] }
    ensures end { result ≤ at + (length opening.now + 40) }
{
    match number {
        Some(number) => put_count(out, at, opening, number),
        None => at,
    }
}

/// Writes a code point as a member, where there is one.
#[tactic(auto, using(crate::proofs::Members::one_field))]
fn put_point_if(out: &mut ObjectRoom, at: usize, opening: &str, code_point: Option<u32>) -> usize
    requires room { at + length opening.now + 12 ≤ MAX_OBJECT_LEN }
    requires opening { IsOpening opening.now }
    requires comma { slice_index opening.now 0 ≡ 44 }
    ensures field { take result out.new ≡
        take at out.old ++ fields_text (if_given (name_in opening.now) point code_point) [] }
    ensures end { result ≤ at + (length opening.now + 12) }
{
    match code_point {
        Some(code_point) => put_point(out, at, opening, code_point),
        None => at,
    }
}

/// Writes a text as a member, where there is one.
#[tactic(auto, using(crate::proofs::Members::one_field))]
fn put_text_if(out: &mut ObjectRoom, at: usize, opening: &str, told: Option<&[u8]>) -> usize
    requires room { at + length opening.now + 6 * given_len (option_copied told) + 2 ≤ MAX_OBJECT_LEN }
    requires opening { IsOpening opening.now }
    requires comma { slice_index opening.now 0 ≡ 44 }
    ensures field { take result out.new ≡
        take at out.old ++ fields_text (if_given (name_in opening.now) text (option_copied told.entry)) [] }
    ensures end { result ≤ at + (length opening.now + 6 * given_len (option_copied told.entry) + 2) }
{
    match told {
        Some(told) => put_text(out, at, opening, told),
        None => at,
    }
}
