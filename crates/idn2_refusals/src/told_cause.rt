//! A cause as it is told: once, for its object and its message alike. Places, labels and bytes are counted from 1 here.
ghost use Rattle.std.specs.Prelude.{◌≡◌, ◌≤◌, ◌+◌, ◌++◌, [], Some, codes, length};
ghost use Rattle.std.specs.Option.{option_copied};
ghost use Rattle.answer_json.specs.Details.{HasShortTexts, details_of, no_details};
ghost use Rattle.idn2_refusals.specs.CauseParts.{IsShort, a_label_parts, at_byte as at_byte_of};
ghost use Rattle.idn2_refusals.specs.CauseParts.{by_action as by_action_of, byte_text};
ghost use Rattle.idn2_refusals.specs.CauseParts.{changed_parts, code_point_text, decoded_parts, fault_place_parts};
ghost use Rattle.idn2_refusals.specs.CauseParts.{hyphen_text, label_parts, labelled, led, length_parts, lexeme_text};
ghost use Rattle.idn2_refusals.specs.CauseParts.{noted, parts_of, placed as placed_of, plain};
ghost use Rattle.idn2_refusals.specs.CauseParts.{point_at_byte as point_at_byte_of, point_parts, ruled, told_details};
ghost use Rattle.idn2_refusals.specs.RuleTexts.{demand_text, named};
ghost use Rattle.idn2_refusals.specs.ToldCauses.{rule_of, told_parts};
ghost use Rattle.ruleset_text.specs.Actions.{kind_word};

use crate::cause::{DefinedName, LineCause, Quoted};
use crate::digits::{push_code_point, push_digit};
use crate::rules::{
    Rule, name_of_class, rule_of_a_label, rule_of_appendix, rule_of_condition, rule_of_line,
    rule_of_punycode, word_of_condition, word_of_demand, words_of_condition,
};
use answer_json::RefusalMembers;
use arrayvec::ArrayVec;
use idn_cause::{ALabelCause, Cause, LabelUtf8, LengthCause};
use idn_text::Refusal;
use idn2_output::append;
use label_patterns::ConditionKind;
use ruleset_text::{DemandKind, FaultPlace};

/// The code point of the hyphen.
const HYPHEN: u32 = 0x2D;

/// The code point of a byte order mark.
const BYTE_ORDER_MARK: u32 = 0xFEFF;

/// What a message has in place of a code point: a lexeme with its quotes is the longest.
pub(crate) type Lead = ArrayVec<u8, 34>;

/// A cause as it is told. An object has the members, and so has a message, with words between them.
#[derive(Drop)]
pub(crate) struct ToldCause<'a> {
    pub members: RefusalMembers<'a>,
    /// What a message has in place of the code point.
    pub lead: Option<Lead>,
    /// How a message names the rule.
    pub rule: Rule<'a>,
}

impl<'a> ToldCause<'a> {
    /// Members alone.
    fn plain(members: RefusalMembers<'a>) -> ToldCause<'a>
        ensures { told_parts result ≡ plain (details_of members.entry) }
    {
        let rule = Rule::words_alone(b"");
        ToldCause {
            members,
            lead: None,
            rule,
        }
    }

    /// Members, and what stands in place of a code point.
    fn led(lead: &[u8], members: RefusalMembers<'a>) -> ToldCause<'a>
        requires { length lead.now ≤ 34 }
        ensures { told_parts result ≡ led lead.now (details_of members.entry) }
    {
        let mut text = Lead::new();
        append(&mut text, lead);
        ToldCause {
            lead: Some(text),
            ..ToldCause::plain(members)
        }
    }

    /// Members, and a rule.
    fn ruled(rule: Rule<'a>, members: RefusalMembers<'a>) -> ToldCause<'a>
        ensures { told_parts result ≡ ruled (rule_of rule.entry) (details_of members.entry) }
    {
        let members = RefusalMembers {
            rule: Some(rule.rule),
            ..members
        };
        ToldCause {
            members,
            lead: None,
            rule,
        }
    }

    /// The same with words at the end of a message.
    fn noted(self, words: &'static [u8]) -> ToldCause<'a>
        ensures { told_parts result ≡ noted words.now (told_parts self.entry) }
    {
        ToldCause {
            rule: Rule::words_alone(words),
            ..self
        }
    }

    /// The same of the label of this number of a name.
    fn numbered(self, number: u128) -> ToldCause<'a>
        ensures { told_parts result ≡ labelled number (told_parts self.entry) }
    {
        let members = RefusalMembers {
            label: Some(number),
            ..self.members
        };
        ToldCause { members, ..self }
    }

    /// The same of what an A-label stands for.
    fn decoded(self) -> ToldCause<'a>
        ensures { told_parts result ≡ decoded_parts (told_parts self.entry) }
    {
        let members = RefusalMembers {
            decoded: true,
            ..self.members
        };
        ToldCause { members, ..self }
    }
}

/// What the object of a refused line says of the cause, if there is one.
pub(crate) fn members_of<'a>(refusal: &Refusal, cause: Option<&'a LineCause>) -> RefusalMembers<'a>
    ensures members { details_of result ≡ told_details refusal.now (option_copied cause.entry) }
    ensures short { HasShortTexts (details_of result) }
{
    match cause {
        Some(cause) => told_cause(refusal, cause).members,
        None => RefusalMembers::NONE,
    }
}

/// The cause of a line's refusal.
pub(crate) fn told_cause<'a>(refusal: &Refusal, cause: &'a LineCause) -> ToldCause<'a>
    ensures parts { told_parts result ≡ parts_of refusal.now cause.now }
    ensures short { IsShort (told_parts result) }
{
    match cause {
        LineCause::Byte(place, byte) => of_byte(*place, *byte),
        LineCause::LongLine => ToldCause::led(b"more than 1024 bytes", RefusalMembers::NONE),
        LineCause::OfLabel(cause) => of_label(refusal, cause),
        LineCause::OfALabel(cause) => of_a_label(refusal, cause),
        LineCause::OfName(cause) => {
            of_a_label(refusal, &cause.cause).numbered(counted(cause.label.into()))
        }
        LineCause::OfQuery(cause) => of_length(cause),
        LineCause::Misplaced(place, point, kind, rule) => {
            of_misplaced(*place, *point, *kind, rule)
        }
        LineCause::NoEntry(place, point) => {
            ToldCause::plain(placed(*place, *point)).noted(b": no entry")
        }
        LineCause::Broken(number, kind) => ToldCause::plain(by_demand(*number, *kind)),
        LineCause::Unclear => ToldCause::plain(RefusalMembers {
            unclear: true,
            ..RefusalMembers::NONE
        }),
        LineCause::ActionAsking(number, kind, rule) => of_asking_action(*number, *kind, rule),
        LineCause::ActionOfType(number, place, point, name) => {
            of_action_of_type(*number, *place, *point, name)
        }
        LineCause::Action(number) => ToldCause::plain(by_action(*number)),
        LineCause::DefaultAction(place, point) => {
            ToldCause::plain(by_default_action(*place, *point))
        }
        LineCause::Ends(place) => of_end(*place),
        LineCause::OfTable(place, quoted) => of_fault_place(place, quoted),
        LineCause::ByteOrderMark => {
            ToldCause::led(b"a byte order mark", point_at_byte(0, BYTE_ORDER_MARK))
        }
        LineCause::ALabelOf(label) => of_a_label_that_stands_for(label),
        LineCause::NoALabel => ToldCause {
            lead: Some(Lead::new()),
            ..ToldCause::ruled(rule_of_a_label(), placed(2, HYPHEN))
        },
    }
}

/// A code point of which a source is asked by this rule.
fn of_misplaced<'a>(
    place: usize,
    point: u32,
    kind: ConditionKind,
    rule: &'a DefinedName,
) -> ToldCause<'a>
    ensures parts { told_parts result ≡ ruled (named rule.now.items)
        (record (placed_of place point) { condition = Some (kind_word kind) }) }
    ensures short { IsShort (told_parts result) }
{
    let members = RefusalMembers {
        condition: Some(word_of_condition(kind)),
        ..placed(place, point)
    };
    ToldCause::ruled(Rule::named(rule.as_slice()), members)
}

/// An action that is triggered by what is asked of a rule.
fn of_asking_action<'a>(number: usize, kind: ConditionKind, rule: &'a DefinedName) -> ToldCause<'a>
    ensures parts { told_parts result ≡ ruled (named rule.now.items)
        (record (by_action_of number) { condition = Some (kind_word kind) }) }
    ensures short { IsShort (told_parts result) }
{
    let members = RefusalMembers {
        condition: Some(word_of_condition(kind)),
        ..by_action(number)
    };
    ToldCause::ruled(Rule::named(rule.as_slice()), members)
}

/// An action that is triggered by the type of the source at this place.
fn of_action_of_type<'a>(
    action: usize,
    place: usize,
    point: u32,
    name: &'a DefinedName,
) -> ToldCause<'a>
    ensures parts { told_parts result ≡ plain
        (record (placed_of place point) { action = Some (action + 1); type_name = Some name.now.items }) }
    ensures short { IsShort (told_parts result) }
{
    ToldCause::plain(RefusalMembers {
        action: Some(counted(action)),
        type_name: Some(name.as_slice()),
        ..placed(place, point)
    })
}

/// An A-label where a U-label is wanted, and the U-label that it stands for.
fn of_a_label_that_stands_for<'a>(label: &'a LabelUtf8) -> ToldCause<'a>
    ensures parts { told_parts result ≡ noted (codes ", with place 4")
        (led [] (record (placed_of 2 0x2D) { ulabel = Some label.now.items })) }
    ensures short { IsShort (told_parts result) }
{
    let members = RefusalMembers {
        ulabel: Some(label.as_slice()),
        ..placed(2, HYPHEN)
    };
    ToldCause::led(b"", members).noted(b", with place 4")
}

/// The place at which a label ends.
fn of_end<'a>(place: usize) -> ToldCause<'a>
    ensures parts { told_parts result ≡ led (codes "ends") (record no_details { place = Some (place + 1) }) }
    ensures short { IsShort (told_parts result) }
{
    let members = RefusalMembers {
        place: Some(counted(place)),
        ..RefusalMembers::NONE
    };
    ToldCause::led(b"ends", members)
}

/// The cause of a label's fault.
#[tactic(auto, unfolding(crate::specs::CauseParts::label_parts))]
fn of_label<'a>(refusal: &Refusal, cause: &Cause) -> ToldCause<'a>
    ensures parts { told_parts result ≡ label_parts refusal.now cause.now }
    ensures short { IsShort (told_parts result) }
{
    match cause {
        Cause::Barred(place, point, line) => {
            ToldCause::ruled(rule_of_line(*line), placed(*place, *point))
        }
        Cause::Changed(place, point, form) => of_form(*place, *point, *form),
        Cause::Hyphen(place, length) => {
            ToldCause::led(b"", placed(*place, HYPHEN)).noted(which_hyphen(*place, *length))
        }
        Cause::Point(place, point) => of_point(refusal, *place, *point),
        Cause::Condition(broken, point, class) => ToldCause {
            members: RefusalMembers {
                rule: Some(rule_of_condition(broken.condition)),
                bidi_class: Some(name_of_class(*class)),
                ..placed(broken.place, *point)
            },
            lead: None,
            rule: words_of_condition(broken.condition),
        },
        Cause::Points(number) => ToldCause::plain(RefusalMembers {
            code_points: Some(u128::from(*number as u64)),
            ..RefusalMembers::NONE
        }),
        Cause::Octets(number) => ToldCause::led(b"A-label of ", octets(*number)),
    }
}

/// Which hyphen stands at a place of a label that is so long: the first that fits.
fn which_hyphen(place: usize, count: usize) -> &'static [u8]
    ensures text { result.now ≡ hyphen_text place count }
    ensures short { length result.now ≤ 24 }
{
    if place == 0 {
        b", the first"
    } else if u128::from(place as u64) + 1 == u128::from(count as u64) {
        b", the last"
    } else {
        b", with place 4"
    }
}

/// A code point that differs from its Normalization Form C, which may end before it.
fn of_form<'a>(place: usize, point: u32, form: Option<u32>) -> ToldCause<'a>
    ensures parts { told_parts result ≡ changed_parts (placed_of place point) form }
    ensures short { IsShort (told_parts result) }
{
    match form {
        Some(_) => ToldCause::plain(RefusalMembers {
            nfc: form,
            ..placed(place, point)
        }),
        None => ToldCause::plain(placed(place, point)).noted(b": NFC ends"),
    }
}

/// A code point and, if the fault is one of a context, the rule of it.
fn of_point<'a>(refusal: &Refusal, place: usize, point: u32) -> ToldCause<'a>
    ensures parts { told_parts result ≡ point_parts refusal.now place point }
    ensures short { IsShort (told_parts result) }
{
    match refusal {
        Refusal::ContextJ | Refusal::ContextO => {
            ToldCause::ruled(Rule::named(rule_of_appendix(point)), placed(place, point))
        }
        _ => ToldCause::plain(placed(place, point)),
    }
}

/// The cause of the fault of what begins with `xn--`.
#[tactic(auto, unfolding(crate::specs::CauseParts::a_label_parts))]
fn of_a_label<'a>(refusal: &Refusal, cause: &'a ALabelCause) -> ToldCause<'a>
    ensures parts { told_parts result ≡ a_label_parts refusal.now cause.now }
    ensures short { IsShort (told_parts result) }
{
    match cause {
        ALabelCause::NoCode => ToldCause::led(b"nothing after xn--", RefusalMembers::NONE),
        ALabelCause::NotAscii(place, point) => {
            ToldCause::plain(placed(*place, *point)).noted(b": not ASCII")
        }
        ALabelCause::NoPunycode => ToldCause::ruled(rule_of_punycode(), RefusalMembers::NONE),
        ALabelCause::Other(octets) => ToldCause::plain(RefusalMembers {
            alabel: Some(octets.as_slice()),
            ..RefusalMembers::NONE
        }),
        ALabelCause::Decoded(cause) => of_label(refusal, cause).decoded(),
        ALabelCause::Copied(cause) => of_label(refusal, cause),
    }
}

/// A length that the DNS does not allow.
fn of_length<'a>(cause: &LengthCause) -> ToldCause<'a>
    ensures parts { told_parts result ≡ length_parts cause.now }
    ensures short { IsShort (told_parts result) }
{
    match cause {
        LengthCause::LabelOctets(number, count) => ToldCause::plain(RefusalMembers {
            label: Some(counted(*number)),
            ..octets(*count)
        }),
        LengthCause::NameOctets(count) => ToldCause::led(b"name of ", octets(*count)),
    }
}

/// The byte that no UTF-8 goes on with, by its two hexadecimal digits.
#[tactic(auto, unfolding(crate::specs::CauseParts::byte_text))]
fn of_byte<'a>(place: usize, byte: u8) -> ToldCause<'a>
    ensures parts { told_parts result ≡ led (byte_text byte) (at_byte_of place) }
    ensures short { IsShort (told_parts result) }
{
    let mut text = Lead::new();
    append(&mut text, b"byte 0x");
    push_digit(&mut text, byte as u32 / 16 % 16);
    push_digit(&mut text, byte as u32 % 16);
    ToldCause::led(text.as_slice(), at_byte(place))
}

/// Where a line of a table has its fault.
fn of_fault_place<'a>(place: &FaultPlace, quoted: &Quoted) -> ToldCause<'a>
    ensures parts { told_parts result ≡ fault_place_parts place.now quoted.now.items }
    ensures short { IsShort (told_parts result) }
{
    match place {
        FaultPlace::Lexeme(place, _) => of_lexeme(*place, quoted),
        FaultPlace::End(place) => ToldCause::led(b"the line ends", at_byte(*place)),
        FaultPlace::Variant(place) => ToldCause::led(b"variant", at_byte(*place)),
        FaultPlace::Source(place) => ToldCause::led(b"source", at_byte(*place)),
        FaultPlace::Byte(place) => ToldCause::led(b"the line goes on", at_byte(*place)),
        FaultPlace::Point(place, point) => ToldCause::plain(point_at_byte(*place, *point)),
        FaultPlace::InRange(place, point) => in_range(*place, *point),
        FaultPlace::NinthPoint(place, point) => {
            ToldCause::plain(point_at_byte(*place, *point)).noted(b": code point 9")
        }
        FaultPlace::SeventeenthVariant(place, point) => {
            ToldCause::plain(point_at_byte(*place, *point)).noted(b": variant 17")
        }
    }
}

/// A lexeme between single quotes, where it is quoted.
fn of_lexeme<'a>(place: usize, quoted: &Quoted) -> ToldCause<'a>
    ensures { told_parts result ≡ led (lexeme_text quoted.now.items) (at_byte_of place) }
{
    match quoted.as_slice() {
        [] => ToldCause::led(b"word", at_byte(place)),
        lexeme => {
            let mut text = Lead::new();
            append(&mut text, b"'");
            append(&mut text, lexeme);
            append(&mut text, b"'");
            ToldCause::led(text.as_slice(), at_byte(place))
        }
    }
}

/// A code point of a range.
fn in_range<'a>(place: usize, point: u32) -> ToldCause<'a>
    ensures { told_parts result ≡ led (code_point_text point ++ codes " in the range") (point_at_byte_of place point) }
{
    let mut text = Lead::new();
    push_code_point(&mut text, point);
    append(&mut text, b" in the range");
    ToldCause::led(text.as_slice(), point_at_byte(place, point))
}

/// The members that tell a code point and its place.
fn placed<'a>(place: usize, point: u32) -> RefusalMembers<'a>
    ensures { details_of result ≡ placed_of place point }
{
    RefusalMembers {
        code_point: Some(point),
        place: Some(counted(place)),
        ..RefusalMembers::NONE
    }
}

/// An action of a ruleset.
fn by_action<'a>(number: usize) -> RefusalMembers<'a>
    ensures { details_of result ≡ by_action_of number }
{
    RefusalMembers {
        action: Some(counted(number)),
        ..RefusalMembers::NONE
    }
}

/// The first default action, by the source at this place: the type is `invalid` (RFC 7940 section 7.6).
fn by_default_action<'a>(place: usize, point: u32) -> RefusalMembers<'a>
    ensures { details_of result
        ≡ record (placed_of place point) { default_action = Some 1; type_name = Some (codes "invalid") } }
{
    RefusalMembers {
        default_action: Some(1),
        type_name: Some(b"invalid"),
        ..placed(place, point)
    }
}

/// A demand of a ruleset.
fn by_demand<'a>(number: usize, kind: DemandKind) -> RefusalMembers<'a>
    ensures { details_of result ≡ record no_details { demand = Some (number + 1); kind = Some (demand_text kind) } }
{
    RefusalMembers {
        demand: Some(counted(number)),
        kind: Some(word_of_demand(kind)),
        ..RefusalMembers::NONE
    }
}

/// A byte of a line.
fn at_byte<'a>(place: usize) -> RefusalMembers<'a>
    ensures { details_of result ≡ at_byte_of place }
{
    RefusalMembers {
        byte: Some(counted(place)),
        ..RefusalMembers::NONE
    }
}

/// A byte of a line, and the code point that begins there.
fn point_at_byte<'a>(place: usize, point: u32) -> RefusalMembers<'a>
    ensures { details_of result ≡ point_at_byte_of place point }
{
    RefusalMembers {
        code_point: Some(point),
        ..at_byte(place)
    }
}

/// How many octets there are.
fn octets<'a>(count: usize) -> RefusalMembers<'a>
    ensures { details_of result ≡ record no_details { octets = Some count } }
{
    RefusalMembers {
        octets: Some(u128::from(count as u64)),
        ..RefusalMembers::NONE
    }
}

/// A place or a number, which are counted from 0, as it is counted from 1.
fn counted(place: usize) -> u128
    ensures { result ≡ place + 1 }
{
    u128::from(place as u64) + 1
}
