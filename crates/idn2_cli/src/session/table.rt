//! The table of a run, by the text of its file: lines, or a ruleset in XML (RFC 7940).

ghost use Rattle.std.specs.Prelude.{◌≡◌, ◌<◌, ℕ, Bool, true, false, IfErr, IfOk, List, length};
ghost use Rattle.idn2_answers.specs.Transcript.{IsTableIn, IsToldFor, is_in_xml, ruleset_refusal};
ghost use Rattle.lgr_table.specs.Texts.{IsToldOf};
ghost use Rattle.idn2_cli.specs.inner.UnreadTables.{IsUnreadAs, TellsFault};
ghost use Rattle.variant_table.specs.WellFormed.{IsTable};

use idn_class::Properties;
use idn_text::{Refusal, Sink};
use idn2_options::{Form, Notation};
use idn2_output::{Console, Status, Stop};
use idn2_refusals::{refuse_table, refuse_table_line};
use lgr_table::{TableError, TableFault, table_of_text};
use std::alloc::{AllocError, Global};
use variant_table::{Table, TableRefusal};
use xml_text::begins_as_xml;

/// Why a text gives no table.
#[derive(Drop)]
pub(crate) enum Unread<'a> {
    /// It spells none.
    Lines(TableRefusal<'a>),
    /// It is in XML, and no table says what it says.
    Ruleset(TableError),
}

/// The table that a text gives.
pub(crate) fn read_table<'a>(
    alloc: Global,
    notation: Notation,
    text: &'a [u8],
    properties: Properties,
) -> Result<Table, Unread<'a>>
    ensures table { IfOk result (IsTableIn properties notation text.now) }
    ensures well_formed { IfOk result IsTable }
    ensures by_these { IfOk result (λ table. table.definitions.properties ≡ properties) }
    ensures unread { IfErr result (IsUnreadAs properties notation text.now) }
{
    if is_in_xml(notation, text) {
        read_ruleset(alloc, notation, text, properties)
    } else {
        read_lines(alloc, notation, text, properties)
    }
}

/// The table that says what a ruleset in XML says.
fn read_ruleset<'a>(
    alloc: Global,
    notation: Notation,
    text: &'a [u8],
    properties: Properties,
) -> Result<Table, Unread<'a>>
    requires { is_in_xml notation text.now ≡ true }
    ensures table { IfOk result (IsTableIn properties notation text.now) }
    ensures well_formed { IfOk result IsTable }
    ensures by_these { IfOk result (λ table. table.definitions.properties ≡ properties) }
    ensures unread { IfErr result (IsUnreadAs properties notation text.now) }
{
    match table_of_text(alloc, properties, text) {
        Ok(table) => Ok(table),
        Err(error) => Err(Unread::Ruleset(error)),
    }
}

/// The table that lines spell.
fn read_lines<'a>(
    alloc: Global,
    notation: Notation,
    text: &'a [u8],
    properties: Properties,
) -> Result<Table, Unread<'a>>
    requires { is_in_xml notation text.now ≡ false }
    ensures table { IfOk result (IsTableIn properties notation text.now) }
    ensures well_formed { IfOk result IsTable }
    ensures by_these { IfOk result (λ table. table.definitions.properties ≡ properties) }
    ensures unread { IfErr result (IsUnreadAs properties notation text.now) }
{
    match Table::read_by(alloc, notation, text, properties) {
        Ok(table) => Ok(table),
        Err(refusal) => Err(Unread::Lines(refusal)),
    }
}

/// Tells why a text gives no table, and gives the status of the run. Where memory was refused, nothing is told, and the
/// run stops.
pub(crate) fn refuse_unread<W: Sink, E: Sink>(
    form: Form,
    wanted: bool,
    text: &[u8],
    unread: &Unread<'_>,
    console: &mut Console<'_, '_, W, E>,
) -> Result<Status, Stop>
    ensures { (properties : Properties) (notation : Notation) → IsUnreadAs properties notation text.now unread.now →
        TellsFault form wanted properties notation text.now console.old console.new result }
{
    match unread {
        Unread::Lines(refusal) => refuse_table(form, wanted, text, refusal, console),
        Unread::Ruleset(error) => refuse_ruleset(form, *error, console),
    }
}

/// Tells why no table says what a ruleset in XML says. No cause is told of it.
fn refuse_ruleset<W: Sink, E: Sink>(
    form: Form,
    error: TableError,
    console: &mut Console<'_, '_, W, E>,
) -> Result<Status, Stop>
    ensures { (wanted : Bool) (properties : Properties) (notation : Notation) (text : List ℕ) →
        is_in_xml notation text ≡ true → IsToldOf properties text error →
        TellsFault form wanted properties notation text console.old console.new result }
{
    match error {
        TableError::Fault { fault, line } => {
            refuse_table_line(form, line as u64, refusal_of(fault), console)
        }
        TableError::Memory => Err(Stop::Memory),
    }
}

/// The line, from 1, that is told of the entry of this number: its own, or the first one of a text in XML. It is an
/// `Err` only where memory was refused.
pub(crate) fn line_of_entry(
    alloc: Global,
    notation: Notation,
    text: &[u8],
    table: &Table,
    number: usize,
) -> Result<u64, AllocError>
    requires given { IsTableIn table.now.definitions.properties notation text.now table.now }
    requires number { number < length table.now.entries }
    ensures { IfOk result (IsToldFor (is_in_xml notation text.now) notation text.now table.now number) }
{
    if is_in_xml(notation, text) {
        Ok(1)
    } else {
        table.line_of_entry(alloc, notation, text, number)
    }
}

/// Whether a text is one of a ruleset in XML.
fn is_in_xml(notation: Notation, text: &[u8]) -> bool
    ensures { result ≡ is_in_xml notation text.now }
{
    match notation {
        Notation::Table => false,
        Notation::Ruleset => begins_as_xml(text),
    }
}

/// The fault of a ruleset in XML as a refusal.
fn refusal_of(fault: TableFault) -> Refusal
    ensures { result ≡ ruleset_refusal fault }
{
    match fault {
        TableFault::Syntax => Refusal::Syntax,
        TableFault::SameSource => Refusal::SameSource,
        TableFault::SameVariant => Refusal::SameVariant,
        TableFault::BadClass => Refusal::BadClass,
        TableFault::Limit => Refusal::Limit,
        TableFault::NoSuchName => Refusal::NoSuchName,
        TableFault::SameName => Refusal::SameName,
        TableFault::NotSupported => Refusal::NotSupported,
    }
}
