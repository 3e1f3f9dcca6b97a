//! The cause that is told of a refused line. It is looked for only once the line is refused, and only if causes are
//! wanted.
ghost use Rattle.std.specs.Prelude.{◌≡◌, ◌≢◌, ◌≤◌, false, ℕ, List, IfOk, None, length, option_map};
ghost use Rattle.std.specs.Option.{option_copied};
ghost use Rattle.std.specs.Result.{IsOk};
ghost use Rattle.idn_text.specs.Points.{AreScalarValues, IsUtf8Of, utf8_of};
ghost use Rattle.ruleset_text.specs.Definitions.{rule_name, type_name};
ghost use Rattle.answer_json.specs.Details.{given_len};
ghost use Rattle.idn_cause.specs.NameCauses.{name_cause, query_cause};
ghost use Rattle.idna.specs.Validity.{has_ace_prefix};
ghost use Rattle.idn_cause.specs.Causes.{IsFoundWithoutMemory};
ghost use Rattle.idn2_refusals.specs.Explained.{BodyCauseNeedsNone, PointsCauseNeedsNone, TableCauseNeedsNone};
ghost use Rattle.idn2_refusals.specs.Explained.{TextCauseNeedsNone, bad_byte, body_cause, coded_cause, if_wanted};
ghost use Rattle.idn2_refusals.specs.Explained.{not_in_table_cause, points_cause, registration_cause, table_cause};
ghost use Rattle.idn2_refusals.specs.Explained.{text_cause, u_label_cause, unless_unexplained};
ghost use Rattle.idn2_refusals.specs.Explained.{action_cause as action_cause_of, invalid_cause as invalid_cause_of};
ghost use Rattle.idn2_refusals.specs.Explained.{validity_cause as validity_cause_of};
ghost use Rattle.idn2_refusals.specs.Explaining.{explained_by};

use crate::request::label_of_request;
use arrayvec::ArrayVec;
use idn_cause::{
    ALabelCause, Cause, LabelUtf8, LengthCause, NameCause, a_label_cause, cause_of, coded_label,
    name_cause, query_cause,
};
use idn_class::{MAX_LABEL_LEN, Properties};
use idn_label::{code_point_at, has_ace_prefix};
use idn_text::{MAX_LINE_LEN, Refusal, decode_points, write_points};
use idn2_output::append;
use label_patterns::ConditionKind;
use ruleset_text::{DemandKind, FaultPlace};
use std::alloc::{AllocError, Global};
use std::str;
use valid_labels::{ActionCause, ValidityCause, furthest, invalid_cause};
use variant_table::Table;

/// How a mode explains what it refuses, and by whose properties.
#[derive(Clone, Copy)]
pub enum Explaining<'t> {
    /// Not at all.
    Nothing,
    /// By a label, or by what it stands for.
    Label(Properties),
    /// By a name whose A-labels are decoded.
    Name(Properties),
    /// By a name that is looked up, with UseSTD3ASCIIRules or without.
    Query(bool),
    /// By a label, and how far sources of this table reach in it.
    Table(Properties, &'t Table),
    /// By the label of a request, and how far sources of this table reach in it.
    Request(Properties, &'t Table),
    /// By a label as it stands: a line of the file of registered labels.
    RegisteredLine(Properties),
}

/// A lexeme that is quoted, for whose bytes there is space; nothing where none is.
pub(crate) type Quoted = ArrayVec<u8, 32>;

/// The name of a rule or of a type of a ruleset.
pub(crate) type DefinedName = ArrayVec<u8, 32>;

/// Why a line is refused. Places, labels, demands and actions are counted from 0.
#[derive(Drop)]
pub enum LineCause {
    /// The place of the first byte that no UTF-8 goes on with, and the byte.
    Byte(usize, u8),
    /// The line is too long.
    LongLine,
    /// The cause of a label's fault.
    OfLabel(Cause),
    /// The cause of the fault of a label that begins with `xn--`.
    OfALabel(ALabelCause),
    /// The label of a name that is refused, and the cause.
    OfName(NameCause),
    /// A length that the DNS does not allow.
    OfQuery(LengthCause),
    /// A source stands at this place of a label, with this code point, where its condition fails: so it is asked of the
    /// rule of this name.
    Misplaced(usize, u32, ConditionKind, DefinedName),
    /// No source of a ruleset is at this place of a label, with this code point, by which the label may be cut.
    NoEntry(usize, u32),
    /// A label breaks the demand of this number and kind.
    Broken(usize, DemandKind),
    /// The readings of a label have different kinds.
    Unclear,
    /// A label triggers the action of this number, by what is asked of the rule of this name.
    ActionAsking(usize, ConditionKind, DefinedName),
    /// A label triggers the action of this number, by the type of this name: that of the source at this place, with
    /// this code point.
    ActionOfType(usize, usize, u32, DefinedName),
    /// A label triggers the action of this number.
    Action(usize),
    /// A label triggers the first default action, by the source at this place, with this code point.
    DefaultAction(usize, u32),
    /// Where a label ends before it differs from the one before it.
    Ends(usize),
    /// Where a line of a table has its fault, and the lexeme there, if it is quoted.
    OfTable(FaultPlace, Quoted),
    /// A byte order mark at the head of a table.
    ByteOrderMark,
    /// An A-label where a U-label is wanted: the U-label that it stands for.
    ALabelOf(LabelUtf8),
    /// What begins with `xn--` where a U-label is wanted, and is no A-label.
    NoALabel,
}

impl<'t> Explaining<'t> {
    /// How a mode explains, if causes are wanted.
    pub fn if_wanted(self, explain: bool) -> Explaining<'t>
        ensures { explained_by result ≡ if_wanted explain (explained_by self.entry) }
    {
        if explain { self } else { Explaining::Nothing }
    }
}

/// The cause of the refusal of a line, if causes are wanted and one is told. Of a line that is too long there is no
/// text, and its cause takes no memory.
pub(crate) fn cause_of_body(
    alloc: Global,
    text: Option<&[u8]>,
    refusal: Refusal,
    explaining: &Explaining<'_>,
) -> Result<Option<LineCause>, AllocError>
    requires short { given_len (option_copied text) ≤ MAX_LINE_LEN }
    ensures cause { IfOk result (λ cause. cause ≡
        body_cause (explained_by explaining.now) (option_copied text.entry) refusal) }
    ensures long { option_copied text.entry ≡ None → IsOk result }
    ensures no_memory { BodyCauseNeedsNone (explained_by explaining.now) (option_copied text.entry) refusal →
        IsOk result }
{
    match text {
        Some(text) => cause_of_text(alloc, text, refusal, explaining),
        None => Ok(cause_unless_unexplained(explaining, LineCause::LongLine)),
    }
}

/// The cause of the refusal of these bytes.
#[tactic(auto, using(crate::proofs::CauseLemmas::causes_of_text))]
fn cause_of_text(
    alloc: Global,
    text: &[u8],
    refusal: Refusal,
    explaining: &Explaining<'_>,
) -> Result<Option<LineCause>, AllocError>
    requires short { length text.now ≤ MAX_LINE_LEN }
    ensures cause { IfOk result (λ cause. cause ≡ text_cause (explained_by explaining.now) text.now refusal) }
    ensures no_memory { TextCauseNeedsNone (explained_by explaining.now) text.now refusal → IsOk result }
{
    let mut points = ArrayVec::new();
    match decode_points(text, &mut points) {
        Ok(()) => cause_of_points(alloc, points.as_slice(), refusal, explaining),
        Err(_) => Ok(cause_unless_unexplained(explaining, bad_byte(text))),
    }
}

/// A cause, if causes are wanted.
fn cause_unless_unexplained(explaining: &Explaining<'_>, cause: LineCause) -> Option<LineCause>
    ensures { result ≡ unless_unexplained (explained_by explaining.now) cause }
{
    match explaining {
        Explaining::Nothing => None,
        _ => Some(cause),
    }
}

/// The first byte that no UTF-8 goes on with, of bytes that are none.
fn bad_byte(text: &[u8]) -> LineCause
    requires { (points : List ℕ) → ¬ (IsUtf8Of text.now points) }
    ensures { result ≡ bad_byte text.now }
{
    match str::from_utf8(text) {
        Ok(_) => unreachable!(),
        Err(error) => {
            let place = error.valid_up_to();
            LineCause::Byte(place, text[place])
        }
    }
}

/// The cause of the refusal of these code points.
#[tactic(auto, unfolding(crate::specs::Explained::points_cause))]
fn cause_of_points(
    alloc: Global,
    points: &[u32],
    refusal: Refusal,
    explaining: &Explaining<'_>,
) -> Result<Option<LineCause>, AllocError>
    requires short { length points.now ≤ MAX_LINE_LEN }
    requires scalar_values { AreScalarValues points.now }
    ensures cause { IfOk result (λ cause. cause ≡ points_cause (explained_by explaining.now) points.now refusal) }
    ensures no_memory { PointsCauseNeedsNone (explained_by explaining.now) points.now refusal → IsOk result }
{
    match explaining {
        Explaining::Nothing => Ok(None),
        Explaining::Label(properties) => {
            registration_cause(alloc, points, refusal, *properties)
        },
        Explaining::Name(properties) => cause_of_name(alloc, points, refusal, *properties),
        Explaining::Query(std3) => cause_of_query(alloc, points, *std3, refusal),
        Explaining::Table(properties, table) => {
            cause_by_table(alloc, points, refusal, *properties, table)
        },
        Explaining::Request(properties, table) => {
            cause_by_table(alloc, label_of_request(points), refusal, *properties, table)
        }
        Explaining::RegisteredLine(properties) => {
            cause_of_u_label(alloc, points, refusal, *properties)
        },
    }
}

/// The cause of the fault of a label, or of what it stands for if it begins with `xn--`.
fn registration_cause(
    alloc: Global,
    label: &[u32],
    refusal: Refusal,
    properties: Properties,
) -> Result<Option<LineCause>, AllocError>
    requires short { length label.now ≤ MAX_LINE_LEN }
    requires scalar_values { AreScalarValues label.now }
    ensures cause { IfOk result (λ cause. cause ≡ registration_cause properties label.now refusal) }
    ensures no_memory { has_ace_prefix label.now ≡ false → IsFoundWithoutMemory refusal → IsOk result }
{
    if has_ace_prefix(label) {
        return match a_label_cause(alloc, label, refusal, properties)? {
            Some(cause) => Ok(Some(LineCause::OfALabel(cause))),
            None => Ok(None),
        };
    }
    Ok(of_label(cause_of(alloc, label, refusal, properties)?))
}

/// The cause of a label's fault as that of a line.
fn of_label(cause: Option<Cause>) -> Option<LineCause>
    ensures { result ≡ option_map LineCause.OfLabel cause }
{
    match cause {
        Some(cause) => Some(LineCause::OfLabel(cause)),
        None => None,
    }
}

/// The cause of the fault of a name that is decoded.
fn cause_of_name(
    alloc: Global,
    name: &[u32],
    refusal: Refusal,
    properties: Properties,
) -> Result<Option<LineCause>, AllocError>
    requires { length name.now ≤ MAX_LINE_LEN }
    ensures cause { IfOk result (λ cause. cause ≡
        option_map LineCause.OfName (name_cause properties name.now refusal)) }
    ensures no_memory { refusal ≡ Refusal.Empty → IsOk result }
{
    match name_cause(alloc, name, refusal, properties)? {
        Some(cause) => Ok(Some(LineCause::OfName(cause))),
        None => Ok(None),
    }
}

/// The cause of the fault of a name that is looked up.
fn cause_of_query(
    alloc: Global,
    name: &[u32],
    std3: bool,
    refusal: Refusal,
) -> Result<Option<LineCause>, AllocError>
    requires short { length name.now ≤ MAX_LINE_LEN }
    requires scalar_values { AreScalarValues name.now }
    ensures cause { IfOk result (λ cause. cause ≡
        option_map LineCause.OfQuery (query_cause (utf8_of name.now) std3 refusal)) }
    ensures no_memory { refusal ≢ Refusal.LookupLength → IsOk result }
{
    let mut utf8 = ArrayVec::new();
    write_points(name, &mut utf8);
    match query_cause(alloc, utf8.as_slice(), std3, refusal)? {
        Some(cause) => Ok(Some(LineCause::OfQuery(cause))),
        None => Ok(None),
    }
}

/// The cause of the fault of a label under a table.
#[tactic(auto, unfolding(crate::specs::Explained::table_cause))]
fn cause_by_table(
    alloc: Global,
    label: &[u32],
    refusal: Refusal,
    properties: Properties,
    table: &Table,
) -> Result<Option<LineCause>, AllocError>
    requires short { length label.now ≤ MAX_LINE_LEN }
    requires scalar_values { AreScalarValues label.now }
    ensures cause { IfOk result (λ cause. cause ≡ table_cause properties table.now label.now refusal) }
    ensures no_memory { TableCauseNeedsNone label.now refusal → IsOk result }
{
    match refusal {
        Refusal::NotInTable => Ok(of_label(not_in_table_cause(label, table))),
        Refusal::NotValid => cause_by_ruleset(alloc, label, table),
        _ => cause_of_u_label(alloc, label, refusal, properties),
    }
}

/// The cause of the fault of a label where a U-label is wanted.
#[tactic(auto, unfolding(crate::specs::Explained::u_label_cause))]
fn cause_of_u_label(
    alloc: Global,
    label: &[u32],
    refusal: Refusal,
    properties: Properties,
) -> Result<Option<LineCause>, AllocError>
    requires short { length label.now ≤ MAX_LINE_LEN }
    requires scalar_values { AreScalarValues label.now }
    ensures cause { IfOk result (λ cause. cause ≡ u_label_cause properties label.now refusal) }
    ensures no_memory { has_ace_prefix label.now ≡ false → IsFoundWithoutMemory refusal → IsOk result }
{
    match refusal {
        Refusal::Hyphen if has_ace_prefix(label) => {
            Ok(Some(of_coded(coded_label(alloc, label, properties)?)))
        }
        _ => Ok(of_label(cause_of(alloc, label, refusal, properties)?)),
    }
}

/// The cause of what begins with `xn--` where a U-label is wanted.
fn of_coded(label: Option<LabelUtf8>) -> LineCause
    ensures { result ≡ coded_cause (option_map (λ utf8. utf8.items) label) }
{
    match label {
        Some(label) => LineCause::ALabelOf(label),
        None => LineCause::NoALabel,
    }
}

/// The code point after those that sources of a table reach.
fn not_in_table_cause(label: &[u32], table: &Table) -> Option<Cause>
    ensures { result ≡ not_in_table_cause table.now label.now }
{
    if label.len() > MAX_LABEL_LEN {
        return None;
    }
    let place = furthest(table, label);
    Some(Cause::Point(place, code_point_at(label, place)))
}

/// Why a label that is made of sources of a ruleset isn't valid.
fn cause_by_ruleset(
    alloc: Global,
    label: &[u32],
    table: &Table,
) -> Result<Option<LineCause>, AllocError>
    ensures { IfOk result (λ cause. cause ≡ invalid_cause_of table.now label.now) }
{
    if label.len() > MAX_LABEL_LEN {
        return Ok(None);
    }
    match invalid_cause(alloc, table, label)? {
        Some(cause) => Ok(Some(validity_cause(label, table, cause))),
        None => Ok(None),
    }
}

/// Where the label isn't eligible, with the condition that fails there by the name of its rule; or the demand or the
/// action; or that it is unclear.
fn validity_cause(label: &[u32], table: &Table, cause: ValidityCause) -> LineCause
    ensures { result ≡ validity_cause_of table.now label.now cause }
{
    match cause {
        ValidityCause::NotEligible(place, Some(condition)) => LineCause::Misplaced(
            place,
            code_point_at(label, place),
            condition.kind,
            name_of_rule(table, condition.rule),
        ),
        ValidityCause::NotEligible(place, None) => {
            LineCause::NoEntry(place, code_point_at(label, place))
        }
        ValidityCause::Broken(number, kind) => LineCause::Broken(number, kind),
        ValidityCause::Unclear => LineCause::Unclear,
        ValidityCause::Action(number, cause) => action_cause(label, table, number, cause),
        ValidityCause::DefaultAction(place) => {
            LineCause::DefaultAction(place, code_point_at(label, place))
        }
    }
}

/// The action of this number that the label triggers, by what triggers it.
fn action_cause(label: &[u32], table: &Table, number: usize, cause: ActionCause) -> LineCause
    ensures { result ≡ action_cause_of table.now label.now number cause }
{
    match cause {
        ActionCause::Rule(condition) => {
            LineCause::ActionAsking(number, condition.kind, name_of_rule(table, condition.rule))
        }
        ActionCause::Source(place, type_number) => {
            let point = code_point_at(label, place);
            LineCause::ActionOfType(number, place, point, name_of_type(table, type_number))
        }
        ActionCause::Other => LineCause::Action(number),
    }
}

/// The name of the rule of this number.
fn name_of_rule(table: &Table, rule: u8) -> DefinedName
    ensures { result.items ≡ rule_name table.now.definitions rule }
{
    let mut name = DefinedName::new();
    append(&mut name, table.definitions().rule_name(rule));
    name
}

/// The name of the type of this number.
fn name_of_type(table: &Table, number: u8) -> DefinedName
    ensures { result.items ≡ type_name table.now.definitions number }
{
    let mut name = DefinedName::new();
    let definitions = table.definitions();
    // Only for the proof: its contract says that each name is short.
    let _names = definitions.set_names();
    append(&mut name, definitions.type_name(number as usize));
    name
}
